//! What is followed in a class.

ghost use Rattle.std.specs.Prelude.{◌≡◌, ℕ, ◌==◌, ◌&&◌, ◌||◌, false, get_or, IfOk};
ghost use Rattle.decode.specs.Places.{target_of, cases_of};
ghost use Rattle.unrolled.specs.Rules as rules;
ghost use Rattle.search.specs.Followed.{have_loops, AreFollowings};

use crate::node::Following;
use decode::{Instruction, Placed};
use jtypes::Kind;
use std::alloc::{AllocError, Global};
use typecheck::Typed;

/// Returns whether a branch target is at or before the pc of its branch.
fn is_back(place: usize, target: i128) -> bool
    ensures { result ≡ rules.is_back place target }
{
    match usize::try_from(target) {
        Ok(q) => q <= place,
        Err(_) => false,
    }
}

/// Returns whether an instruction has a branch target that is at or before its pc; of a switch, the default.
fn target_leads_back(p: &Placed) -> bool
    ensures { result ≡ rules.back_target p.now.place (target_of p.now.instruction) }
{
    match p.instruction.target() {
        Some(target) => is_back(p.place, target),
        None => false,
    }
}

/// Returns whether a case of a switch leads back.
fn case_leads_back(p: &Placed) -> bool
    ensures { result ≡ rules.any_back p.now.place (cases_of p.now.instruction) }
{
    for i in 0..p.instruction.case_count() {
        if is_back(p.place, p.instruction.case_target(i)) {
            return true;
        }
    }
    false
}

/// Returns whether some branch of a method leads back.
fn leads_back(code: &[Placed]) -> bool
    ensures { result ≡ rules.leads_back code.now }
{
    for p in code {
        if target_leads_back(p) || case_leads_back(p) {
            return true;
        }
    }
    false
}

/// Returns whether some branch of the methods leads back.
pub fn has_loops(methods: &[Typed]) -> bool
    ensures { result ≡ have_loops methods.now }
{
    for m in methods {
        if leads_back(m.code.as_slice()) {
            return true;
        }
    }
    false
}

/// Returns whether an instruction tests an int or a reference.
fn is_test(instruction: &Instruction) -> bool
    ensures { result ≡ rules.is_test instruction.now }
{
    matches!(
        instruction,
        Instruction::Branch(..) | Instruction::Switch(..)
    )
}

/// Returns whether an instruction may come between the load of a local variable and the test that looks at it.
fn goes_between(instruction: &Instruction) -> bool
    ensures { result ≡ rules.goes_between instruction.now }
{
    matches!(
        instruction,
        Instruction::Push(_)
            | Instruction::Load(..)
            | Instruction::Operate(_)
            | Instruction::ArrayLength
    )
}

/// Marks a local variable.
fn mark(ints: &mut Vec<bool>, n: usize) -> Result<(), AllocError>
    ensures { IfOk result (λ _. (q : ℕ) → get_or ints.new.items q false ≡ (n == q || get_or ints.old.items q false)) }
{
    while ints.len() <= n {
        ints.push(false)?;
    }
    ints[n] = true;
    Ok(())
}

/// Marks the local variable of an int that an instruction loads, if a test follows.
fn mark_loaded(ints: &mut Vec<bool>, p: &Placed, is_test_ahead: bool) -> Result<(), AllocError>
    ensures { IfOk result (λ _. (q : ℕ) → get_or ints.new.items q false ≡ ((rules.loads_int q p.now.instruction && is_test_ahead) || get_or ints.old.items q false)) }
{
    match p.instruction {
        Instruction::Load(Kind::Int, n) if is_test_ahead => mark(ints, usize::from(n)),
        _ => Ok(()),
    }
}

/// Returns which local variables hold ints that a test looks at. Those past the end hold none.
pub fn tested(alloc: Global, code: &[Placed]) -> Result<Vec<bool>, AllocError>
    ensures { IfOk result (λ ints. (q : ℕ) → get_or ints.items q false ≡ rules.is_tested q code.now) }
{
    let mut ints = Vec::new(alloc);
    let mut ahead = false;
    let mut left = code.len();
    while left > 0 {
        left -= 1;
        let p = &code[left];
        mark_loaded(&mut ints, p, ahead)?;
        ahead = is_test(&p.instruction) || (goes_between(&p.instruction) && ahead);
    }
    Ok(ints)
}

/// Returns what is followed in a method, if values are followed at all in its class.
fn following(alloc: Global, values: bool, method: &Typed) -> Result<Following, AllocError>
    ensures values { IfOk result (λ f. f.values ≡ values) }
    ensures ints { IfOk result (λ f. (q : ℕ) → get_or f.ints.items q false ≡ rules.is_tested q method.now.code) }
{
    Ok(Following {
        values,
        ints: tested(alloc, method.code.as_slice())?,
    })
}

/// Returns what is followed in each method of a class. The only error is that of memory.
pub fn followings(alloc: Global, methods: &[Typed]) -> Result<Vec<Following>, AllocError>
    ensures { IfOk result (λ fs. AreFollowings methods.now fs.items) }
{
    let values = has_loops(methods);
    let mut fs = Vec::new(alloc);
    for m in methods {
        let f = following(alloc, values, m)?;
        fs.push(f)?;
    }
    Ok(fs)
}
