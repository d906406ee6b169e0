//! The theorems about accepted and checked classes.

ghost use Rattle.typecheck.specs.Typing.{IsProcessOf};
ghost use Rattle.bounds.specs.Paths.{AreBounds};
ghost use Rattle.verdict.specs.Checked.{IsChecked};
ghost use Rattle.verdict.specs.Verdict.{IsAccepted, IsClassOf};
ghost use Rattle.soundness.specs.Accepted.{small_bytes, small_class};
ghost use Rattle.verdict.specs.Sound.{IsSafe, SoundnessOfClasses};
ghost use Rattle.verdict.specs.Promise.{AcceptedIsChecked, AcceptedIsOrdered, TypeSoundness};
ghost use Rattle.soundness.specs.Bounded.{AcceptedHasBounds, CheckedLeadsOn};
ghost use Rattle.soundness.specs.Counting.{EachCallStarts, EachStepCounts};
ghost use Rattle.soundness.specs.Example.{example, limits};
ghost use Rattle.soundness.specs.Once.{EachClassIsOne};
ghost use Rattle.soundness.specs.Ordering.{NotRecursiveHasRanks, RankedIsNotRecursive};
ghost use Rattle.soundness.specs.OtherPremises.{IsCheckedButForCount, IsCheckedButForDirection, IsCheckedButForLengths, IsCheckedButForOperands, IsCheckedButForRanks, IsCheckedButForSignatures, IsCheckedButForTypes, SignedIsPlain, SomeIsNeverSafe, SoundnessByAnyMethod, SoundnessWithoutBounds};
ghost use Rattle.soundness.specs.Premises.{IsCheckedButForInstance, IsCheckedButForName, IsCheckedButForPlaces, SoundnessOver};
ghost use Rattle.soundness.specs.Profiles.{AcceptedIsKept, BoundsAreKept, ClassGoesOn, ClassIsKept, MeaningIsKept};
ghost use Rattle.soundness.specs.Room.{IsCheckedButForRoom};
ghost use Rattle.soundness.specs.Tables.{EachTableIsOne};
ghost use Rattle.jtypes.specs.Profile.{Third};

/// Type soundness with bounds.
/// Let the bytes of a class be accepted, and take the bounds of the paths of its method `process`.
/// For each invocation, with any key, any arguments, and an entry or none:
/// - no reachable state is stuck: no instruction meets a missing or ill-typed operand, a bad local variable or an invalid pc;
/// - each reachable state is within the bounds on steps, array words, slots of local variables and operands, and call depth;
/// - a final state is reached, a return or a named Java exception, within the bounds on steps and words.
///
/// The same holds for each class that satisfies `IsChecked`, independent of its bytes, within any bounds that no path from the start
/// of `process` exceeds.
///
/// The theorem is about the definitions, not about code that runs.
/// The contracts of `verify` say which classes it accepts, and those of the machine that it executes the defined steps.
/// The bounds are given: the theorem doesn't say how to compute them.
pub fn type_soundness()
    ensures bytes { TypeSoundness }
    ensures classes { SoundnessOfClasses }
{}

/// Each invocation of a checked class has a start state, so type soundness isn't vacuous.
/// Each step that doesn't end the invocation adds one to the steps.
pub fn starts_and_counts()
    ensures starts { EachCallStarts }
    ensures counts { EachStepCounts }
{}

/// An accepted class has `process` and its bounds: for each of the four measures the maximum over all paths.
/// In a checked class, each instruction of a method other than the constructor has valid successors.
pub fn accepted_has_bounds()
    ensures bounds { AcceptedHasBounds }
    ensures leads { CheckedLeadsOn }
{}

/// An accepted class is checked if its own calls go to methods of lower rank.
pub fn accepted_is_checked()
    ensures { AcceptedIsChecked }
{}

/// A small class whose `process` loads the entry and returns it satisfies the premises.
/// It is checked, its bounds are the cost of its only path, and it is safe within them.
pub fn example_is_checked()
    ensures checked { IsChecked example }
    ensures process { IsProcessOf example 0 }
    ensures bounds { AreBounds example 0 limits }
    ensures safe { IsSafe example limits }
{}

/// The bytes of a small class whose `process` loads the entry and returns it satisfy the premises.
/// They are accepted and define the class, its bounds are the cost of its only path, and it is safe within them.
pub fn example_is_accepted()
    ensures accepted { IsAccepted Third small_bytes }
    ensures class { IsClassOf Third small_bytes small_class }
    ensures process { IsProcessOf small_class 1 }
    ensures bounds { AreBounds small_class 1 limits }
    ensures safe { IsSafe small_class limits }
{}

/// Three of the premises are necessary: without any one of them the theorem is false.
/// A class with a reserved name gets stuck, and so does a class whose `process` is static.
/// A class whose instructions aren't consecutive uses more words than its paths count.
/// Each of these classes satisfies all other premises of a checked class.
pub fn premises_are_needed()
    ensures name { SoundnessOver IsCheckedButForName → ⊥ }
    ensures instance { SoundnessOver IsCheckedButForInstance → ⊥ }
    ensures places { SoundnessOver IsCheckedButForPlaces → ⊥ }
{}

/// A class that isn't recursive has ranks: numbers of its methods such that each own call goes to a method of lower rank.
/// A class with ranks isn't recursive.
pub fn ranks_or_recursion()
    ensures ranks { NotRecursiveHasRanks }
    ensures lasting { RankedIsNotRecursive }
{}

/// An accepted class has ranks.
pub fn accepted_is_ordered()
    ensures { AcceptedIsOrdered }
{}

/// The stack map tables of a method declare at most one list of frames.
pub fn one_table()
    ensures { EachTableIsOne }
{}

/// The same bytes define at most one class: one view, and for each method one environment, one code and one list of declared frames.
pub fn one_class()
    ensures { EachClassIsOne }
{}

/// More premises are necessary: without any one of them the theorem is false.
/// Each class below satisfies all other premises of a checked class.
/// - types: a method that returns a missing operand gets stuck.
/// - signatures: `process` gets stuck if its signature has no result and its descriptor has one.
/// - operands: a long that a frame declares as `Top` occupies more slots than are counted, and the next push gets stuck.
/// - lengths: an array as long as the arguments uses more words than its path counts.
/// - direction: a branch to itself has no path, so no path exceeds the bounds, but it uses steps, slots and depth.
/// - ranks: the same for a method that calls itself.
/// - count: the same for a call of a method that the class lacks.
/// - bounds: a checked class isn't safe within bounds that its path exceeds.
/// - process: the paths of a method other than `process` don't bound `process`.
pub fn other_premises_are_needed()
    ensures types { SoundnessOver IsCheckedButForTypes → ⊥ }
    ensures signatures { SoundnessOver IsCheckedButForSignatures → ⊥ }
    ensures operands { SoundnessOver IsCheckedButForOperands → ⊥ }
    ensures lengths { SoundnessOver IsCheckedButForLengths → ⊥ }
    ensures direction { SoundnessOver IsCheckedButForDirection → ⊥ }
    ensures ranks { SoundnessOver IsCheckedButForRanks → ⊥ }
    ensures count { SoundnessOver IsCheckedButForCount → ⊥ }
    ensures bounds { SoundnessWithoutBounds → ⊥ }
    ensures process { SoundnessByAnyMethod → ⊥ }
{}

/// One premise isn't necessary: that the parameters of a method fit into its local variables.
/// The theorem holds for all classes that satisfy the other premises.
pub fn room_is_not_needed()
    ensures { SoundnessOver IsCheckedButForRoom }
{}

/// The premise that no parameter and no result is `Top` follows from the descriptors.
pub fn signatures_have_no_top()
    ensures { SignedIsPlain }
{}

/// Without any one of these premises, some class satisfies all others and isn't safe within any bounds.
pub fn some_are_never_safe()
    ensures types { SomeIsNeverSafe IsCheckedButForTypes }
    ensures signatures { SomeIsNeverSafe IsCheckedButForSignatures }
    ensures operands { SomeIsNeverSafe IsCheckedButForOperands }
    ensures lengths { SomeIsNeverSafe IsCheckedButForLengths }
    ensures direction { SomeIsNeverSafe IsCheckedButForDirection }
    ensures ranks { SomeIsNeverSafe IsCheckedButForRanks }
    ensures count { SomeIsNeverSafe IsCheckedButForCount }
{}

/// Each profile is compatible with the one before it.
/// A class that a profile accepts is accepted by the one after it.
/// It is the same class with the same bounds, within the earlier profile's limit of steps, and each invocation has the same meaning.
pub fn profiles_are_kept()
    ensures accepted { AcceptedIsKept }
    ensures goes_on { ClassGoesOn }
    ensures class { ClassIsKept }
    ensures bounds { BoundsAreKept }
    ensures meaning { MeaningIsKept }
{}
