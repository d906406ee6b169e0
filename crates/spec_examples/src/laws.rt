//! Properties of the definitions.

ghost use Rattle.spec_examples.specs.Statements.{FitsAssignable, OneMeaning, OrderedEnds, PassedFits, RunsMean};
ghost use Rattle.spec_examples.specs.Small.{GivesEntry};
ghost use Rattle.spec_examples.specs.Profiles.{AcceptsSmall, RefusesSwitch, RefusesMoreSteps};
ghost use Rattle.spec_examples.specs.Judged.{SmallIsJudged, HiddenIsJudged, FlagIsJudged, SwitchIsJudged};
ghost use Rattle.spec_examples.specs.Chain.{IsChain, HasChainBounds, RefusesChain, AcceptsChain};

/// The result of a run is the meaning of the call.
pub fn runs_mean()
    ensures { RunsMean }
{}

/// A call has at most one meaning for each answer of the loader:
/// one outcome, one entry that it leaves, and one count of steps and of words.
pub fn one_meaning()
    ensures { OneMeaning }
{}

/// Ranks of methods exclude recursion.
pub fn ordered_ends()
    ensures { OrderedEnds }
{}

/// A method of two instructions is well typed and has a path; without an operand stack slot it is refused.
pub fn two_instructions()
    ensures { GivesEntry }
{}

/// A reference that passes a cast fits the cast's type. One that fits a type fits each type to which that type is assignable.
pub fn references_fit()
    ensures casts { PassedFits }
    ensures assignments { FitsAssignable }
{}

/// The first profile accepts a class, so statements on the classes that it accepts are not vacuous.
pub fn first_profile_accepts()
    ensures { AcceptsSmall }
{}

/// The first profile refuses a switch by its opcode, and each class without recursion whose step bound exceeds the profile's limit.
pub fn first_profile_refuses()
    ensures switch { RefusesSwitch }
    ensures steps { RefusesMoreSteps }
{}

/// The first profile refuses a class with a chain of 19 methods, of which each but the last calls the next one twice.
/// The class has a bound of 2^20 steps, and the second profile accepts it.
pub fn first_profile_refuses_a_chain()
    ensures class { IsChain }
    ensures bounds { HasChainBounds }
    ensures first { RefusesChain }
    ensures second { AcceptsChain }
{}

/// What the program `judge_by` computes for these classes is the verdict.
/// Each profile accepts one of them, with its bounds, and refuses one by a single refusal; the first refuses another by a single one.
/// The profiles before the third refuse one by a refusal that applies.
pub fn small_classes_are_judged()
    ensures accepted { SmallIsJudged }
    ensures hidden { HiddenIsJudged }
    ensures flag { FlagIsJudged }
    ensures switch { SwitchIsJudged }
{}
