//! The engine, which defines classes and runs them.

use bounds::Bounds;
use jtypes::{Args, NoLoader, Refusal};
use machine::{Done, Workspace, run};
use std::alloc::{AllocError, Global};
use std::marker::Model;
use verify::{Verified, verify};

/// An accepted class: its number, and the bounds of its runs.
#[derive(Clone, Copy, Debug, PartialEq, Eq)]
pub struct Defined {
    pub number: u32,
    pub bounds: Bounds,
}

/// The accepted classes, and the workspace that they run in. The view is the classes by their numbers.
/// A class that is forgotten leaves its number empty, so no number is used twice.
#[derive(Drop)]
pub struct Engine {
    classes: Vec<Option<Verified>>,
    workspace: Workspace,
}

impl Model for Engine {
    ghost use Rattle.std.specs.Prelude.{List, Option};
    ghost use Rattle.typecheck.specs.Typing.{Class};

    ghost Value = { List (Option Class) };

    ghost view = { λ e. e.classes.items };
}

impl Engine {
    ghost use Rattle.std.specs.Prelude.{◌≡◌, ◌≢◌, ◌⊎◌, ℕ, [], length, Some, None, is_some, IfOk, IfErr, OnErr, IfSome, IfNone, false};
    ghost use Rattle.jtypes.specs.Profile.{Third};
    ghost use Rattle.jtypes.specs.declared.refusal.Refusal.{Refusal};
    ghost use Rattle.typecheck.specs.Typing.{Class};
    ghost use Rattle.verdict.specs.Verdict.{IsRefused};
    ghost use Rattle.ended.specs.Ended.{IsMeant};
    ghost use Rattle.std.specs.Option.{option_copied};
    ghost use Rattle.embedded.specs.Classes.{class_at, text_at, IsDefined};

    /// Returns an engine without classes, or an error if memory is exhausted.
    pub fn new(alloc: Global) -> Result<Engine, AllocError>
        ensures { IfOk result (λ engine. engine ≡ []) }
    {
        let workspace = Workspace::new(alloc)?;
        Ok(Engine {
            classes: Vec::new(alloc),
            workspace,
        })
    }

    /// Verifies the bytes of a class (JVMS §4, §4.10.1), and stores it under the next number, of which there are 2^32.
    pub fn define(&mut self, alloc: Global, bytes: &[u8]) -> Result<Defined, Refusal>
        ensures defined { IfOk result (λ d. IsDefined bytes.now self.old d self.new) }
        ensures refused { IfErr result (λ r. (r ≡ Refusal.NoMemory) ⊎ IsRefused Third bytes.now r) }
        ensures unchanged { OnErr result (self.new ≡ self.old) }
    {
        let Ok(number) = u32::try_from(self.classes.len()) else {
            return Err(Refusal::NoMemory);
        };
        let class = verify(alloc, bytes)?;
        let bounds = class.bounds();
        match self.classes.push(Some(class)) {
            Ok(()) => Ok(Defined { number, bounds }),
            Err(_) => Err(Refusal::NoMemory),
        }
    }

    /// Removes the class with a number, and returns whether there was one.
    pub fn forget(&mut self, number: u32) -> bool
        ensures found { result ≡ is_some (class_at self.old number) }
        ensures forgotten { class_at self.new number ≡ None }
        ensures others { (n : ℕ) → n ≢ number → class_at self.new n ≡ class_at self.old n }
        ensures count { length self.new ≡ length self.old }
    {
        if !self.has(number) {
            return false;
        }
        self.classes[number as usize] = None;
        true
    }

    /// Returns whether there is a class with a number.
    pub fn has(&self, number: u32) -> bool
        ensures { result ≡ is_some (class_at self.now number) }
    {
        match self.classes.get(number as usize) {
            Some(class) => class.is_some(),
            None => false,
        }
    }

    /// Runs the class with a number on an entry, without a loader.
    /// The result is the meaning of the call, or `None` if there is no such class.
    pub fn invoke(
        &mut self,
        number: u32,
        key: i64,
        before: Option<i64>,
        args: &Args,
    ) -> Option<Done>
        ensures meant { IfSome result (λ d. (c : Class) × (class_at self.old number ≡ Some c) × IsMeant c (record { key = key; args = args.now; before = before; loads = false }) d) }
        ensures none { IfNone result (class_at self.old number ≡ None) }
        ensures kept { self.new ≡ self.old }
    {
        let class = self.classes.get(number as usize)?.as_ref()?;
        Some(run(class, key, before, args, &mut self.workspace, &NoLoader))
    }

    /// Returns the text of the `String` constant at an index of the constant pool of the class with a number, in modified UTF-8
    /// (JVMS §4.4.7), or `None` if there is no such class or constant.
    pub fn text(&self, number: u32, index: u32) -> Option<&[u8]>
        ensures { option_copied result ≡ text_at self.now number index }
    {
        let class = self.classes.get(number as usize)?.as_ref()?;
        match u16::try_from(index) {
            Ok(index) => class.text(index),
            Err(_) => None,
        }
    }
}
