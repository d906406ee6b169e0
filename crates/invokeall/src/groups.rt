//! The groups of a round's calls, by stripe.

ghost use Rattle.std.specs.Prelude.{◌≡◌, ◌<◌, length, map, replicate, slice_index, IfOk};
ghost use Rattle.claims.specs.Counters.{IsJobCount};
ghost use Rattle.stripe.specs.Seen.{call_of as seen_call};
ghost use Rattle.stripe.specs.Tables.{IsCount};
ghost use Rattle.invokeall.specs.Jobs.{all_seen};
ghost use Rattle.invokeall.specs.Groups.{AreBlank, AreGroups, AreLinked, group_at as group_of_stripe, group_of as group_seen};

use std::alloc::{AllocError, Global};
use stripe::{Call, stripe_of};

/// The groups of a round's calls, as linked lists of call numbers.
/// A group has all calls whose keys belong to one stripe, or to one part of a stripe, in order.
/// Workers claim groups in the order of their numbers. `FACTOR` gives consecutive groups different stripes, if there are several stripes,
/// so that workers on consecutive groups lock different stripes.
#[derive(Drop)]
pub struct Groups {
    /// The number of the first call of each group, or the count of calls if the group is empty.
    pub firsts: Vec<usize>,
    /// The number of the next call in the group of each call, or the count of calls after the last one.
    /// Each worker reads from all parts of this list, so its items are short.
    pub nexts: Vec<u16>,
}

/// Returns the number of groups for `stripes` stripes: four for each stripe, or two or one if four or two make more than 64 groups.
/// The part of a stripe that a key belongs to is the stripe that it would have in a cache of that many stripes.
/// Smaller groups shorten the wait of the workers for one another at the end of a round. For a single worker each stripe is one group.
pub fn groups_for(stripes: usize, workers: usize) -> usize
    requires { IsCount stripes }
    ensures { IsCount result }
{
    if workers == 1 || stripes > 32 {
        stripes
    } else if stripes > 16 {
        2 * stripes
    } else {
        4 * stripes
    }
}

/// Returns `groups` empty groups, with links preallocated for `calls` calls.
pub fn no_groups(alloc: Global, calls: usize, groups: usize) -> Result<Groups, AllocError>
    requires few { IsJobCount calls }
    ensures { IfOk result (AreBlank calls groups) }
{
    let firsts = vec![in alloc; calls; groups]?;
    let nexts = vec![in alloc; 0; calls]?;
    Ok(Groups { firsts, nexts })
}

/// A prime that is greater than the maximum number of stripes.
const FACTOR: usize = 71;

/// Returns the group of a stripe, of as many groups as stripes: the remainder of a product, so different stripes have different groups.
/// The cases 16, 32 and 64 need no division.
fn group_at(groups: usize, stripe: usize) -> usize
    requires groups { IsCount groups }
    requires stripe { stripe < groups }
    ensures group { result ≡ group_of_stripe groups stripe }
    ensures within { result < groups }
{
    let product = FACTOR * stripe;
    match groups {
        16 => product % 16,
        32 => product % 32,
        64 => product % 64,
        _ => product % groups,
    }
}

/// Returns the group of a call, of `groups` groups: that of its key's stripe in a cache of as many stripes.
/// The default counts are separate cases, so that the compiler knows the divisors.
fn group_of(groups: usize, call: &Call<'_>) -> usize
    requires { IsCount groups }
    ensures group { result ≡ group_seen groups (seen_call call.now) }
    ensures within { result < groups }
{
    let key = call.key();
    match groups {
        16 => group_at(16, stripe_of(16, key)),
        64 => group_at(64, stripe_of(64, key)),
        _ => group_at(groups, stripe_of(groups, key)),
    }
}

/// Links the calls of each group, from the last call of the round to the first.
fn link(calls: &[Call<'_>], firsts: &mut [usize], nexts: &mut [u16])
    requires groups { IsCount (length firsts.old) }
    requires none { firsts.old ≡ replicate (length firsts.old) (length (all_seen calls.now)) }
    requires calls { length nexts.old ≡ length (all_seen calls.now) }
    requires few { IsJobCount (length (all_seen calls.now)) }
    ensures { AreLinked (map (group_seen (length firsts.old)) (all_seen calls.now)) (length firsts.old) 0 firsts.new nexts.new }
{
    let mut left = calls.len();
    while left > 0 {
        left -= 1;
        let group = group_of(firsts.len(), &calls[left]);
        nexts[left] = firsts[group] as u16;
        firsts[group] = left;
    }
}

impl Groups {
    ghost use Rattle.std.specs.Prelude.{◌≡◌, ◌<◌, length, slice_index};
    ghost use Rattle.stripe.specs.Tables.{IsCount};
    ghost use Rattle.invokeall.specs.Jobs.{all_seen};
    ghost use Rattle.invokeall.specs.Groups.{AreBlank, AreGroups};

    /// Returns the groups with each call linked in its group. It allocates no memory.
    pub fn of(self, calls: &[Call<'_>]) -> Groups
        requires groups { IsCount (length self.firsts.items) }
        requires blank { AreBlank (length (all_seen calls.now)) (length self.firsts.items) self }
        ensures groups { length result.firsts.items ≡ length self.firsts.items }
        ensures calls { AreGroups (all_seen calls.now) result }
    {
        let Groups {
            mut firsts,
            mut nexts,
        } = self;
        link(calls, firsts.as_mut_slice(), nexts.as_mut_slice());
        Groups { firsts, nexts }
    }

    /// Returns the number of the first call of a group, or the count of calls if the group is empty.
    pub fn first(&self, group: usize) -> usize
        requires { group < length self.now.firsts.items }
        ensures { result ≡ slice_index self.now.firsts.items group }
    {
        self.firsts[group]
    }

    /// Returns the number of the next call of the same group, or the count of calls after the last one.
    pub fn next(&self, number: usize) -> usize
        requires { number < length self.now.nexts.items }
        ensures { result ≡ slice_index self.now.nexts.items number }
    {
        usize::from(self.nexts[number])
    }
}
