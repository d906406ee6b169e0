//! Verified classes.

ghost use Rattle.std.specs.Prelude.{◌≡◌, ◌⊎◌, ℕ, IfOk, IfErr};
ghost use Rattle.std.specs.Option.{option_copied};
ghost use Rattle.jtypes.specs.declared.refusal.Refusal.{Refusal};
ghost use Rattle.typecheck.specs.Typing.{Class, IsProcessOf};
ghost use Rattle.bounds.specs.Limits.{IsWithinLimits};
ghost use Rattle.bounds.specs.Paths.{AreBounds};
ghost use Rattle.bounds.specs.Rows.{bounds_in};
ghost use Rattle.verdict.specs.Verdict.{IsAccepted, IsClassOf, IsRefused};
ghost use Rattle.verdict.specs.Sound.{IsSafe};
ghost use Rattle.verdict.specs.Checked.{IsChecked};
ghost use Rattle.vmcode.specs.Linking.{IsLinked, IsEntry};
ghost use Rattle.vmcode.specs.Numbering.{index_of};
ghost use Rattle.verify.specs.Earlier.{IsEarlier, HasStepsOf};
ghost use Rattle.verify.specs.Texts.{string_at};
ghost use Rattle.verify.specs.TheClass.{TheClass, TheClass-prop};
ghost use Rattle.jtypes.specs.Profile.{Profile, Third};

use crate::link::link;
use crate::texts::string;
use bounds::Bounds;
use classfile::ClassFile;
use jtypes::Refusal;
use soundness::{
    accepted_has_bounds, accepted_is_checked, accepted_is_ordered, profiles_are_kept,
    type_soundness,
};
use std::alloc::{AllocError, Global};
use std::fmt;
use std::marker::Model;
use verdict::judge;
use vmcode::LinkedClass;

/// An accepted class, with its bounds and its linked code.
/// Contracts see it as the class of its bytes.
#[derive(Drop)]
pub struct Verified {
    file: ClassFile,
    bounds: Bounds,
    linked: LinkedClass,
    ghost class: { TheClass file.pool file.parts } by { TheClass-prop file.pool file.parts },
}

impl Model for Verified {
    ghost use Rattle.typecheck.specs.Typing.{Class};
    ghost use Rattle.verify.specs.Held.{Holds};

    ghost Value = { Class };

    ghost view = { λ a. a.class.0 };

    ghost invariant = { λ a. Holds a.class.0 a.bounds a.linked };
}

impl fmt::Debug for Verified {
    fn fmt<W: fmt::Write>(&self, f: &mut fmt::Formatter<W>) -> fmt::Result {
        f.debug_struct("Verified")
            .field("bounds", &self.bounds)
            .finish_non_exhaustive()
    }
}

/// Checks a class file, and links its code.
fn judge_and_link(alloc: Global, bytes: &[u8]) -> Result<Verified, Refusal>
    ensures class { IfOk result (λ c. IsClassOf Third bytes.now c) }
    ensures accepted { IfOk result (λ _. IsAccepted Third bytes.now) }
    ensures refused { IfErr result (λ r. (r ≡ Refusal.NoMemory) ⊎ IsRefused Third bytes.now r) }
{
    accepted_is_ordered();
    accepted_is_checked();
    accepted_has_bounds();
    let judged = judge(alloc, bytes)?;
    let bounds = judged.bounds();
    let linked = match link(alloc, &judged) {
        Ok(linked) => linked,
        Err(AllocError) => return Err(Refusal::NoMemory),
    };
    Ok(Verified {
        file: judged.into_file(),
        bounds,
        linked,
    })
}

/// Verifies a class file (JVMS §4, §4.10.1), and links its code (JVMS §5.4).
/// Returns a refusal that applies to the class file, or `Refusal::NoMemory`.
pub fn verify(alloc: Global, bytes: &[u8]) -> Result<Verified, Refusal>
    ensures class { IfOk result (λ c. IsClassOf Third bytes.now c) }
    ensures accepted { IfOk result (λ _. IsAccepted Third bytes.now) }
    ensures refused { IfErr result (λ r. (r ≡ Refusal.NoMemory) ⊎ IsRefused Third bytes.now r) }

    // A class that an earlier profile accepts is refused only with `Refusal::NoMemory`.
    // It is the same class, and its bounds are within that profile's limit of steps.
    ensures earlier { (profile : Profile) → IsEarlier profile → IsAccepted profile bytes.now → IfErr result (λ r. r ≡ Refusal.NoMemory) }
    ensures earlier_class { (profile : Profile) (c : Class) → IsEarlier profile → IsClassOf profile bytes.now c → IfOk result (λ d. d ≡ c) }
    ensures earlier_steps { (profile : Profile) (c : Class) → IsEarlier profile → IsAccepted profile bytes.now → IsClassOf profile bytes.now c → IfOk result (HasStepsOf profile) }
{
    profiles_are_kept();
    judge_and_link(alloc, bytes)
}

impl Verified {
    /// Returns the upper bounds of an invocation: steps, words of arrays, slots, and depth of nested activations.
    /// Each invocation ends within them, and never gets stuck.
    pub fn bounds(&self) -> Bounds
        ensures limits { IsWithinLimits Third result }
        ensures bounds { (j : ℕ) → IsProcessOf self.now j → AreBounds self.now j (bounds_in result) }
        ensures safe { IsSafe self.now (bounds_in result) }
    {
        accepted_has_bounds();
        type_soundness();
        self.bounds
    }

    /// Returns the linked code of the class.
    pub fn linked(&self) -> &LinkedClass
        ensures code { IsLinked self.now (index_of self.now) result.now }
        ensures process { IsEntry self.now (index_of self.now) result.now.process }
    {
        &self.linked
    }

    /// Returns the text of the `String` constant at an index of the constant pool, in modified UTF-8 (JVMS §4.4.3, §4.4.7).
    /// Returns `None` if the constant there isn't a `String`.
    pub fn text(&self, index: u16) -> Option<&[u8]>
        ensures { option_copied result ≡ string_at self.now.view.pool index }
    {
        string(&self.file.pool, index)
    }
}

/// Does nothing at run time; the contract says that an accepted class is checked, as type soundness requires.
pub fn is_checked(class: &Verified)
    ensures { IsChecked class.now }
{
    accepted_is_ordered();
    accepted_is_checked();
    let _file = &class.file;
}
