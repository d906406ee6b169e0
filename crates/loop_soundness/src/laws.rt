//! The theorems about classes with loops. They are about the definitions only: no call accepts a class with a loop.

ghost use Rattle.loop_soundness.specs.Counting.{EachCallStarts, EachStepCounts};
ghost use Rattle.loop_soundness.specs.Example.{LoopIsSafe};
ghost use Rattle.loop_soundness.specs.ExampleBytes.{LoopIsAccepted};
ghost use Rattle.loop_soundness.specs.Promise.{
  AcceptedHasBounds,
  AcceptedIsChecked,
  AcceptedIsKept,
  AcceptedIsSafe,
  AcceptedKeepsBounds,
  ForwardIsAccepted,
  ListedIsAccepted,
};
ghost use Rattle.loop_soundness.specs.Runs.{RunsStayWithin};
ghost use Rattle.loop_soundness.specs.Sound.{SoundnessForward, SoundnessOfUnrolled, SoundnessWithLoops};

/// Each state of a run of a class with a cover is within bounds that no path over nodes exceeds, and has a step left.
/// Nothing is asked of the types but that calls of own methods give what their methods return, and that no result is `Top`.
pub fn runs_stay_within()
    ensures { RunsStayWithin }
{}

/// Type soundness with bounds of classes with loops, for invocations with at most eight arguments.
/// - covered: a class that is checked but for the direction of branches, and has a cover, is safe within bounds that no path over
///   nodes exceeds: it never gets stuck, and ends within them.
/// - unrolled: so is such a class whose nodes are listed, within its bounds.
/// - forward: where branches lead forward, so it is within bounds that no path over pcs exceeds.
pub fn sound_with_loops()
    ensures covered { SoundnessWithLoops }
    ensures unrolled { SoundnessOfUnrolled }
    ensures forward { SoundnessForward }
{}

/// Each invocation of a class that is checked but for the direction of branches has a start state, so type soundness says something of it.
/// Each step that doesn't end the invocation adds one to the steps.
pub fn starts_and_counts()
    ensures starts { EachCallStarts }
    ensures counts { EachStepCounts }
{}

/// A small class whose `process` has a loop of two passes satisfies the premises: it is checked except for the direction of branches,
/// its nodes are listed, and it is safe within its bounds. So type soundness isn't vacuous for classes with loops.
pub fn loop_is_safe()
    ensures { LoopIsSafe }
{}

/// Type soundness with bounds of accepted classes with loops: the bytes of a class are accepted with loops if no refusal applies, where
/// the nodes of `process` take the place of its pcs, and if the nodes have a list within the limits.
/// - safe: for each invocation with at most eight arguments such a class never gets stuck, stays within its bounds, and ends.
/// - bounds: it has `process` and its bounds, which are within the limits of an invocation.
/// - checked: it is checked but for the direction of branches.
/// - listed: a class to which no refusal applies before those of the nodes is accepted if its nodes have a list and its bounds are
///   within the limits.
pub fn accepted_with_loops()
    ensures safe { AcceptedIsSafe }
    ensures bounds { AcceptedHasBounds }
    ensures checked { AcceptedIsChecked }
    ensures listed { ListedIsAccepted }
{}

/// The third profile is kept: what it accepts is accepted with loops, and has over nodes the bounds that it has over pcs.
/// Of the classes in which no branch leads back, those that it refuses aren't accepted with loops either.
pub fn third_profile_is_kept()
    ensures accepted { AcceptedIsKept }
    ensures bounds { AcceptedKeepsBounds }
    ensures forward { ForwardIsAccepted }
{}

/// The bytes of a small class with a loop of two passes are accepted with loops, and the third profile refuses them by the branch that
/// leads back. So the laws of accepted bytes aren't vacuous for classes with loops.
pub fn loop_is_accepted()
    ensures { LoopIsAccepted }
{}
