//! The verdict on a class, level by level.

ghost use Rattle.std.specs.Prelude.{◌≡◌, ◌⊎◌, ℕ, List, length, IfOk, IfErr, option_copied};
ghost use Rattle.jtypes.specs.declared.refusal.Refusal.{Refusal};
ghost use Rattle.jtypes.specs.Layout.{IsLaidOut};
ghost use Rattle.classfile.specs.Class.{class_file};
ghost use Rattle.classfile.specs.View.{view_of};
ghost use Rattle.bounds.specs.Limits.{IsWithinLimits};
ghost use Rattle.verdict.specs.Shaping.{HasGoodShape};
ghost use Rattle.verdict.specs.Judging.{AreFound, AreTyped, HasInstructionsOf, IsTypedRow};
ghost use Rattle.verdict.specs.Verdict.{IsAccepted, IsClassOf, IsRefused, TypesStand};
ghost use Rattle.verdict.specs.Judged.{IsJudgedAs, NumbersRise, row_in, process_row};
ghost use Rattle.typecheck.specs.Typing.{Class, IsProcessOf};
ghost use Rattle.bounds.specs.Paths.{AreBounds};
ghost use Rattle.bounds.specs.Rows.{bounds_in};
ghost use Rattle.jtypes.specs.Profile.{Third};

use crate::typed_class::{TypedClass, type_class};
use bounds::{Bounds, bound};
use classfile::{ClassFile, ClassView};
use jtypes::Refusal;
use std::alloc::Global;
use std::marker::Model;
use typecheck::Typed;

/// An accepted class.
#[derive(Drop)]
pub struct JudgedClass {
    class: ClassFile,
    methods: Vec<Typed>,
    bounds: Bounds,
}

impl Model for JudgedClass {
    ghost use Rattle.verdict.specs.Judged.{Judged};

    ghost Value = { Judged };

    ghost view = { λ v. record { pool = v.class.pool; parts = v.class.parts; methods = v.methods.items; bounds = v.bounds } };
}

impl JudgedClass {
    /// Returns the upper bounds of an invocation.
    pub fn bounds(&self) -> Bounds
        ensures { result ≡ self.now.bounds }
    {
        self.bounds
    }

    /// Returns a `Typed` for each method except the constructor, by ascending method index.
    pub fn methods(&self) -> &[Typed]
        ensures { result.now ≡ self.now.methods }
    {
        self.methods.as_slice()
    }

    /// Returns the class file, and drops the typed methods and the bounds.
    pub fn into_file(self) -> ClassFile
        ensures pool { result.pool ≡ self.pool }
        ensures parts { result.parts ≡ self.parts }
    {
        self.class
    }

    pub fn view(&self) -> ClassView<'_>
        ensures { result ≡ view_of self.now.pool self.now.parts }
    {
        self.class.view()
    }

    /// Returns the method with this index in the class file, or `None` if it is the constructor or doesn't exist.
    pub fn method(&self, number: usize) -> Option<&Typed>
        ensures { NumbersRise self.now.methods → option_copied result ≡ row_in self.now.methods number }
    {
        let rows = self.methods.as_slice();
        let i = rows.partition_point(|m| m.number < number);
        match rows.get(i) {
            Some(m) if m.number == number => Some(m),
            _ => None,
        }
    }

    /// Returns `process` with the erased descriptor.
    pub fn process(&self) -> Option<&Typed>
        ensures { option_copied result ≡ process_row self.now.methods }
    {
        for row in self.methods.as_slice() {
            if row.is_process {
                return Some(row);
            }
        }
        None
    }
}

/// Checks the layout, the shape, the instructions, the types, the recursion and the bounds of a class (JVMS §4, §4.10.1).
/// Stops at the first level with a refusal.
pub fn judge(alloc: Global, bytes: &[u8]) -> Result<JudgedClass, Refusal>
    // The class file is exactly these bytes.
    ensures found { IfOk result (λ v. IsLaidOut (class_file (length bytes.now)) bytes.now (v.pool, v.parts)) }

    // No refusal of the layout, shape, instructions, types, recursion or bounds applies to an accepted class.
    ensures accepted { IfOk result (λ _. IsAccepted Third bytes.now) }

    // The bytes define a class, and the result describes that class, with the bounds of its `process`.
    ensures class { IfOk result (λ _. (c : Class) × IsClassOf Third bytes.now c) }
    ensures judged { IfOk result (λ v. (c : Class) → IsClassOf Third bytes.now c → IsJudgedAs c v) }
    ensures bounds { IfOk result (λ v. (c : Class) (j : ℕ) → IsClassOf Third bytes.now c → IsProcessOf c j → AreBounds c j (bounds_in v.bounds)) }

    // The bounds are within the limits.
    ensures limits { IfOk result (λ v. IsWithinLimits Third v.bounds) }

    // The refusal applies to the bytes, unless it is out of memory.
    ensures refused { IfErr result (λ r. (r ≡ Refusal.NoMemory) ⊎ IsRefused Third bytes.now r) }
{
    let TypedClass { class, methods } = match type_class(alloc, bytes) {
        Ok(found) => found,
        Err(located) => return Err(located.refusal),
    };
    let bounds = bound(alloc, &methods)?;
    Ok(JudgedClass {
        class,
        methods,
        bounds,
    })
}
