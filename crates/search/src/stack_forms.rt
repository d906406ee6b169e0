//! The stack instructions, from `pop` to `swap`, on what is known of the operands.

ghost use Rattle.std.specs.Prelude.{◌≡◌, IfOk, MatchOption, None, map, drop, length, is_some, option_map, if◌then◌else◌, Some, unwrap_or};
ghost use Rattle.transfer.specs.Forms.{forms_of, below_form, picked, by_forms, rearranged};
ghost use Rattle.transfer.specs.Seen.{form_seen};
ghost use Rattle.unrolled.specs.Known as spec;
ghost use Rattle.search.specs.Seen.{operands_seen};

use crate::known::Known;
use crate::operands::{drop_top, peek, push};
use crate::values::is_wide;
use jtypes::Rearrangement;
use std::alloc::{AllocError, Global};
use transfer::{StackForm, forms_of};

/// Checks that the top operands have these sizes: `true` is a long.
fn has_sizes(operands: &[Known], longs: &[bool]) -> bool
    ensures { result ≡ is_some (below_form spec.is_wide longs.now (operands_seen operands.now)) }
{
    for i in 0..longs.len() {
        let Some(k) = peek(operands, i) else {
            return false;
        };
        if longs[i] != is_wide(k) {
            return false;
        }
    }
    true
}

/// Returns the first of these forms that matches the operands.
fn form_for<'a>(operands: &[Known], forms: &'a [StackForm]) -> Option<&'a StackForm>
    ensures { MatchOption result (by_forms spec.is_wide (map form_seen forms.now) (operands_seen operands.now) ≡ None) (λ form. by_forms spec.is_wide (map form_seen forms.now) (operands_seen operands.now) ≡ picked form.now.picks.now (operands_seen operands.now) (drop (length form.now.longs.now) (operands_seen operands.now))) }
{
    for form in forms {
        if has_sizes(operands, form.longs) {
            return Some(form);
        }
    }
    None
}

/// Pushes the picked operands of `from`, the first of them last. Returns false if one doesn't exist.
fn push_picked(to: &mut Vec<Known>, from: &[Known], picks: &[usize]) -> Result<bool, AllocError>
    ensures { IfOk result (λ yes. picked picks.now (operands_seen from.now) (operands_seen to.old.items) ≡ (if yes then Some (operands_seen to.new.items) else None)) }
{
    let Some((first, more)) = picks.split_first() else {
        return Ok(true);
    };
    if !push_picked(to, from, more)? {
        return Ok(false);
    }
    match peek(from, *first) {
        Some(k) => {
            push(to, k)?;
            Ok(true)
        }
        None => Ok(false),
    }
}

/// Returns the operands rearranged by the form that matches them, or `None` if there is none.
fn rearranged(
    alloc: Global,
    operands: &[Known],
    rearrangement: Rearrangement,
) -> Result<Option<Vec<Known>>, AllocError>
    ensures { IfOk result (λ o. option_map (λ v. operands_seen v.items) o ≡ rearranged spec.is_wide rearrangement (operands_seen operands.now)) }
{
    let Some(form) = form_for(operands, forms_of(rearrangement)) else {
        return Ok(None);
    };
    let mut to = Vec::from_slice(alloc, operands)?;
    drop_top(&mut to, form.longs.len());
    if push_picked(&mut to, operands, form.picks)? {
        Ok(Some(to))
    } else {
        Ok(None)
    }
}

/// Rearranges the operands. If no form matches, which well-typed code doesn't have, they stay.
pub fn rearrange(
    alloc: Global,
    operands: &mut Vec<Known>,
    rearrangement: Rearrangement,
) -> Result<(), AllocError>
    ensures { IfOk result (λ _. operands_seen operands.new.items ≡ unwrap_or (rearranged spec.is_wide rearrangement (operands_seen operands.old.items)) (operands_seen operands.old.items)) }
{
    if let Some(to) = rearranged(alloc, operands, rearrangement)? {
        *operands = to;
    }
    Ok(())
}
