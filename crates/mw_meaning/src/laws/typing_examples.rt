// Worked examples of typing: derivations, and terms that have none.

ghost use Rattle.mw_meaning.specs.TypingExamples.{PowerIsItsDefinition, CubeIsTypable, LeakHasNoType, LeakIsNotTypable};
ghost use Rattle.mw_meaning.specs.TypingExamples.{TopLevelGeneratorIsTypable, InnerGeneratorHasOneType};
ghost use Rattle.mw_meaning.specs.TypingExamples.{InnerGeneratorHasOneClassifier, BracketInBracketHasNoType};
ghost use Rattle.mw_meaning.specs.TypingExamples.{NoCodeOfCode, VariableKeepsItsClassifier, OuterVariableHasNoType};
ghost use Rattle.mw_meaning.specs.TypingExamples.{EarlierLetIsSeen, LaterLetIsNotSeen, KernelIsNotSeenByItems};
ghost use Rattle.mw_meaning.specs.TypingExamples.{LetIsASyntacticValue, RepliesAreTakenInOrder, OtherRepliesAreTyped};
ghost use Rattle.mw_meaning.specs.TypingExamples.{ReplyOfAnotherTypeStops};
ghost use Rattle.mw_meaning.specs.TypingRules.{NumberIsAccepted, VariableIsAccepted, FunctionIsAccepted};
ghost use Rattle.mw_meaning.specs.TypingRules.{RecursionIsAccepted, ApplicationIsAccepted, InnerLetIsAccepted};
ghost use Rattle.mw_meaning.specs.TypingRules.{ConditionIsAccepted, PairIsAccepted, PrimitiveIsAccepted};
ghost use Rattle.mw_meaning.specs.TypingRules.{BracketIsAccepted, EscapeIsAccepted, RunIsAccepted, CloseIsAccepted};
ghost use Rattle.mw_meaning.specs.TypingRules.{OpenIsAccepted, LiftIsAccepted, NumberIsRefused, KernelNameIsRefused};
ghost use Rattle.mw_meaning.specs.TypingRules.{FunctionIsRefused, RecursionIsRefused, ApplicationIsRefused};
ghost use Rattle.mw_meaning.specs.TypingRules.{InnerLetIsRefused, ConditionIsRefused, PairIsRefused};
ghost use Rattle.mw_meaning.specs.TypingRules.{PrimitiveIsRefused, EscapeIsRefused, RunIsRefused, OpenIsRefused};
ghost use Rattle.mw_meaning.specs.TypingRules.{LiftIsRefused};

/// The usual cube program is typable.
pub fn cube_is_typable()
    ensures definition { PowerIsItsDefinition }
    ensures typable { CubeIsTypable }
{}

/// Closing code that uses an outer variable has no type.
pub fn leak_has_no_type()
    ensures term { LeakHasNoType }
    ensures item { LeakIsNotTypable }
{}

/// A top-level generator may be used at two types and under two classifiers.
pub fn top_level_generator_is_typable()
    ensures { TopLevelGeneratorIsTypable }
{}

/// The same generator bound inside a term may be used at one type and under one classifier.
pub fn inner_generator_is_monomorphic()
    ensures one_type { InnerGeneratorHasOneType }
    ensures one_classifier { InnerGeneratorHasOneClassifier }
{}

/// A bracket inside brackets has no type, and nothing is code of code.
pub fn code_holds_no_code()
    ensures bracket_in_bracket { BracketInBracketHasNoType }
    ensures code_of_code { NoCodeOfCode }
{}

/// A level 1 variable is used under the classifier of its binder alone.
pub fn variable_keeps_its_classifier()
    ensures variable { VariableKeepsItsClassifier }
    ensures in_a_term { OuterVariableHasNoType }
{}

/// An item sees the lets before it, no later one and no kernel, and a let is a syntactic value.
pub fn items_see_lets_before()
    ensures earlier_let { EarlierLetIsSeen }
    ensures later_let { LaterLetIsNotSeen }
    ensures kernel { KernelIsNotSeenByItems }
    ensures syntactic_value { LetIsASyntacticValue }
{}

/// Runs and calls take replies of their types from a list in order.
pub fn replies_are_taken()
    ensures in_order { RepliesAreTakenInOrder }
    ensures typed { OtherRepliesAreTyped }
    ensures of_another_type { ReplyOfAnotherTypeStops }
{}

/// For each typing rule a term that it accepts.
pub fn rules_accept()
    ensures number { NumberIsAccepted }
    ensures variable { VariableIsAccepted }
    ensures function { FunctionIsAccepted }
    ensures recursion { RecursionIsAccepted }
    ensures application { ApplicationIsAccepted }
    ensures inner_let { InnerLetIsAccepted }
    ensures condition { ConditionIsAccepted }
    ensures pair { PairIsAccepted }
    ensures primitive { PrimitiveIsAccepted }
    ensures bracket { BracketIsAccepted }
    ensures escape { EscapeIsAccepted }
    ensures run { RunIsAccepted }
    ensures closed { CloseIsAccepted }
    ensures opened { OpenIsAccepted }
    ensures lift { LiftIsAccepted }
{}

/// For the rules a term that they refuse; the other refusals are in the functions above.
pub fn rules_refuse()
    ensures number { NumberIsRefused }
    ensures kernel_name { KernelNameIsRefused }
    ensures function { FunctionIsRefused }
    ensures recursion { RecursionIsRefused }
    ensures application { ApplicationIsRefused }
    ensures inner_let { InnerLetIsRefused }
    ensures condition { ConditionIsRefused }
    ensures pair { PairIsRefused }
    ensures primitive { PrimitiveIsRefused }
    ensures escape { EscapeIsRefused }
    ensures run { RunIsRefused }
    ensures opened { OpenIsRefused }
    ensures lift { LiftIsRefused }
{}
