//! The laws of calls on one key through the C interface.

ghost use Rattle.embedded_history.specs.Example.{ThreeTurns};
ghost use Rattle.embedded_history.specs.Statements.{AnswersAreDetermined, CallsThatAreNotRun, CallsThatAreRun, ConversationsAreLegal, ConversationsHaveRecords, EffectsAreNumbered, EndsAreAnswers, OutcomesAreNumbered, RecordsAreDetermined};

/// Calls on one key, each on the entry that the answers before it leave, are a legal history without a loader.
/// Classes may be defined and forgotten between the calls.
/// - records: the calls that are run have records, one each and in order: invocations with the replies and entries of the answers.
/// - legal: such records are a legal history, from any entries with the first call's entry under the key.
///   It leaves the entry after the last answer under the key, and every other entry as it was.
/// - determined: the calls and answers determine what the records say.
pub fn conversations_are_legal_histories()
    ensures records { ConversationsHaveRecords }
    ensures legal { ConversationsAreLegal }
    ensures determined { RecordsAreDetermined }
{}

/// The outcomes 4 to 6 are those of the calls that aren't run, and say why. Such a call leaves the entry as it is.
pub fn calls_that_are_not_run()
    ensures not_run { CallsThatAreNotRun }
    ensures run { CallsThatAreRun }
{}

/// Each end that a legal history without a loader may have for a call that is run is an answer to it. So the answers are exactly these ends.
pub fn ends_are_answers()
    ensures { EndsAreAnswers }
{}

/// A call has at most one answer, by the engine's classes.
pub fn answers_are_determined()
    ensures { AnswersAreDetermined }
{}

/// The numbers of an outcome determine it, and those of an effect too.
pub fn numbers_are_exact()
    ensures outcomes { OutcomesAreNumbered }
    ensures effects { EffectsAreNumbered }
{}

/// Three calls on one key, of which the second has a number without a class, are such a conversation, with two records.
/// With a call that ignores the answer before it, or with another value in an answer, calls are no conversation.
pub fn three_calls()
    ensures { ThreeTurns }
{}
