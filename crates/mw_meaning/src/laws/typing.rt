// Evaluation keeps types.

ghost use Rattle.mw_meaning.specs.declared.mode.Mode.{Mode};
ghost use Rattle.mw_meaning.specs.StagedMeaning.{outside};
ghost use Rattle.mw_meaning.specs.Replies.{answering, AreTypedReplies};
ghost use Rattle.mw_meaning.specs.TypingLaws.{NeverStuck, CodeNeverStuck, ValuesAreTyped, BuiltCodeIsTyped};
ghost use Rattle.mw_meaning.specs.TypingLaws.{CodeIsTyped, ClosedCodeIsClosed, RunsAreTyped, StagedRunsAreTyped};
ghost use Rattle.mw_meaning.specs.TypingLaws.{RunsOfCodeAreTyped, LetsHaveTheirValues, KernelsNeverStuck};
ghost use Rattle.mw_meaning.specs.TypingLaws.{KernelsGiveTheirCode, MainNeverStuck, MainGivesItsGround, AnyState};
ghost use Rattle.mw_meaning.specs.TypingLaws.{KernelMeaningNeverStuck, KernelMeaningIsTyped, KernelMeaningIsClosed};

/// What the evaluation of a typable program keeps, where runs and calls answer by the kernel meaning, and where they
/// take their answers in order from any list of answers of the right types.
pub fn typing_kept()
    ensures never_stuck { (mode : Mode) → NeverStuck (outside mode) AnyState }
    ensures code_never_stuck { (mode : Mode) → CodeNeverStuck (outside mode) AnyState }
    ensures values_are_typed { (mode : Mode) → ValuesAreTyped (outside mode) AnyState }
    ensures built_code_is_typed { (mode : Mode) → BuiltCodeIsTyped (outside mode) AnyState }
    ensures code_is_typed { (mode : Mode) → CodeIsTyped (outside mode) AnyState }
    ensures closed_code_is_closed { (mode : Mode) → ClosedCodeIsClosed (outside mode) AnyState }
    ensures runs_are_typed { (mode : Mode) → RunsAreTyped (outside mode) AnyState (λ s. s) }
    ensures staged_runs_are_typed { StagedRunsAreTyped }
    ensures runs_of_code_are_typed { (mode : Mode)
        → RunsOfCodeAreTyped (outside mode) AnyState (λ s. s) }
    ensures lets_have_their_values { (mode : Mode) → LetsHaveTheirValues (outside mode) }
    ensures kernels_never_stuck { (mode : Mode) → KernelsNeverStuck (outside mode) AnyState }
    ensures kernels_give_their_code { (mode : Mode) → KernelsGiveTheirCode (outside mode) AnyState }
    ensures main_never_stuck { (mode : Mode) → MainNeverStuck (outside mode) AnyState }
    ensures main_gives_its_ground { (mode : Mode) → MainGivesItsGround (outside mode) AnyState }

    ensures replied_never_stuck { NeverStuck answering AreTypedReplies }
    ensures replied_code_never_stuck { CodeNeverStuck answering AreTypedReplies }
    ensures replied_values_are_typed { ValuesAreTyped answering AreTypedReplies }
    ensures replied_built_code_is_typed { BuiltCodeIsTyped answering AreTypedReplies }
    ensures replied_code_is_typed { CodeIsTyped answering AreTypedReplies }
    ensures replied_closed_code_is_closed { ClosedCodeIsClosed answering AreTypedReplies }
    ensures replied_runs_are_typed { RunsAreTyped answering AreTypedReplies (λ s. s.begun) }
    ensures replied_runs_of_code_are_typed { RunsOfCodeAreTyped answering AreTypedReplies
        (λ s. s.begun) }
    ensures replied_lets_have_their_values { LetsHaveTheirValues answering }
    ensures replied_kernels_never_stuck { KernelsNeverStuck answering AreTypedReplies }
    ensures replied_kernels_give_their_code { KernelsGiveTheirCode answering AreTypedReplies }
    ensures replied_main_never_stuck { MainNeverStuck answering AreTypedReplies }
    ensures replied_main_gives_its_ground { MainGivesItsGround answering AreTypedReplies }
{}

/// The kernel meaning of closed typed code is never stuck, and its value is closed and has the type.
#[tactic(auto, using(crate::proofs::KernelTyping::kernel_meaning_never_stuck, crate::proofs::KernelTyping::kernel_meaning_is_typed, crate::proofs::KernelTyping::kernel_meaning_is_closed))]
pub fn kernel_typing_kept()
    ensures never_stuck { KernelMeaningNeverStuck }
    ensures typed { KernelMeaningIsTyped }
    ensures closed { KernelMeaningIsClosed }
{}
