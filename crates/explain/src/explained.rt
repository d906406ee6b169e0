//! Explanations of the verdict on a class file.

ghost use Rattle.std.specs.Prelude.{◌≡◌, ◌≢◌, ℕ, Bool, IsTrue, IfOk, IfErr};
ghost use Rattle.typecheck.specs.Typing.{Class};
ghost use Rattle.bounds.specs.Lengths.{HaveLengths};
ghost use Rattle.bounds.specs.Limits.{IsLimit};
ghost use Rattle.bounds.specs.Rows.{AreRowsOf, IsCircleIn};
ghost use Rattle.bounds.specs.Table.{LeadsOn};
ghost use Rattle.explain.specs.Explanation.{IsExplanation};
ghost use Rattle.explain.specs.Listed.{AreCostsListed, IsLackingAmong};

use crate::circle::{OwnCall, circle_of};
use crate::costs::{MethodCost, listed};
use bounds::{Bounds, bound, costs_by_number, lacking_length};
use jtypes::Refusal;
use std::alloc::{AllocError, Global};
use typecheck::Typed;
use verdict::{Located, Spot, type_class};

/// The explanation of the verdict on a class file.
#[derive(Drop)]
pub enum Explained {
    /// The class is accepted, with these bounds and with these costs of its methods except the constructor.
    Accepted {
        bounds: Bounds,
        methods: Vec<MethodCost>,
    },
    /// The class is refused, at this location.
    Refused(Located),
    /// Own calls form a cycle: each call reaches the method of the next one, and the last one that of the first.
    Recursive(Vec<OwnCall>),
    /// The class exceeds a limit, with these costs of its methods except the constructor.
    PastLimit {
        refusal: Refusal,
        methods: Vec<MethodCost>,
    },
}

/// Returns the location of a `newarray` without a constant length.
fn lacking(methods: &[Typed]) -> Located
    requires { HaveLengths methods.now → ⊥ }
    ensures { IsLackingAmong methods.now result }
{
    let refusal = Refusal::LengthNotConstant;
    match lacking_length(methods) {
        Some((method, place)) => Located {
            refusal,
            spot: Spot::AtInstruction { method, place },
        },
        None => refusal.into(),
    }
}

/// Returns the costs of the methods if own calls form no cycle.
fn costs_of(alloc: Global, methods: &[Typed]) -> Result<Vec<MethodCost>, Refusal>
    ensures ok { IfOk result (λ costs. (c : Class) (set : ℕ → Bool) → LeadsOn c set → AreRowsOf c set methods.now → AreCostsListed c methods.now costs.items) }
    ensures err { IfErr result (λ r. r ≢ Refusal.NoMemory → (r ≡ Refusal.Recursive) × IsCircleIn methods.now) }
{
    let known = costs_by_number(alloc, methods)?;
    Ok(listed(alloc, methods, &known)?)
}

fn is_limit(refusal: Refusal) -> bool
    ensures { IsTrue result → IsLimit refusal }
{
    matches!(
        refusal,
        Refusal::StepLimit | Refusal::WordLimit | Refusal::FrameLimit
    )
}

/// Returns the explanation of a refusal at a location. Out of memory is an error.
fn refused(located: Located) -> Result<Explained, AllocError>
    ensures { IfOk result (λ told. (told ≡ Explained.Refused located) × (located.refusal ≢ Refusal.NoMemory)) }
{
    match located.refusal {
        Refusal::NoMemory => Err(AllocError),
        _ => Ok(Explained::Refused(located)),
    }
}

/// Judges a class file as `verdict::judge` does, and explains where it is refused, or what each method costs.
pub fn explain(alloc: Global, bytes: &[u8]) -> Result<Explained, AllocError>
    // The explanation is correct by the definitions.
    ensures { IfOk result (IsExplanation bytes.now) }
{
    let typed = match type_class(alloc, bytes) {
        Ok(typed) => typed,
        Err(located) => return refused(located),
    };
    let methods = typed.methods.as_slice();
    match bound(alloc, methods) {
        Ok(bounds) => match costs_of(alloc, methods) {
            Ok(methods) => Ok(Explained::Accepted { bounds, methods }),
            Err(refusal) => refused(refusal.into()),
        },
        Err(refusal) => match refusal {
            Refusal::LengthNotConstant => refused(lacking(methods)),
            Refusal::Recursive => match circle_of(alloc, methods)? {
                Some(calls) => Ok(Explained::Recursive(calls)),
                None => refused(Refusal::Recursive.into()),
            },
            _ if is_limit(refusal) => match costs_of(alloc, methods) {
                Ok(methods) => Ok(Explained::PastLimit { refusal, methods }),
                Err(other) => refused(other.into()),
            },
            _ => refused(refusal.into()),
        },
    }
}
