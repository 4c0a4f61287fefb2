// Laws of the grammar, which no program calls.

ghost use Rattle.std.specs.Prelude.{ℕ, List};
ghost use Rattle.mw_lex.specs.Tokens.{PureToken};
ghost use Rattle.mw_grammar.specs.Answers.{HaveOneTree, HasOneDepth, HasAnswer};

/// A list of tokens derives at most one tree.
pub fn one_tree()
    ensures { (tokens : List PureToken) → HaveOneTree tokens }
{}

/// The depth of a front is the same in all its completions.
pub fn one_depth()
    ensures { (front : List PureToken) → HasOneDepth front }
{}

/// A list of tokens is a program that is not too deep, or has a first fault, whatever the bound on the depth.
pub fn exact_program()
    ensures { (b : ℕ) (tokens : List PureToken) → HasAnswer b tokens }
{}
