// What the source has of a node of a term: its form, its place, and the names that it binds.

use mw_term::{Prim, Term};

/// A place in a source: the offset of its first byte, and of the byte after its last.
#[derive(Clone, Copy, Debug, PartialEq, Eq)]
pub struct Span {
    pub first: u32,
    pub end: u32,
}

/// The form of a node, which its term has too.
#[derive(Clone, Copy, Debug, PartialEq, Eq)]
pub enum Form {
    Int,
    Bool,
    /// A name in use, of a variable or of an item.
    Name,
    Fun,
    Rec,
    App,
    Let,
    If,
    Pair,
    Fst,
    Snd,
    Prim(Prim),
    Bracket,
    Escape,
    Run,
    Close,
    Open,
    Lift,
    LiftB,
}

/// The names that a node binds, by their places.
#[derive(Clone, Copy, Debug, PartialEq, Eq)]
pub enum Bound {
    Nothing,
    One(Span),
    /// A recursive function's own name, and its argument.
    Two(Span, Span),
}

/// A node of a term, as its source has it.
#[derive(Clone, Copy, Debug, PartialEq, Eq)]
pub struct Node {
    pub form: Form,
    /// Without parentheses around it, but those of a pair and of a negative literal belong to it. A truth value that
    /// `&&`, `||` or `not` stands for has the place of the whole.
    pub span: Span,
    /// Whether the source has text for it. It has none for such a truth value.
    pub is_written: bool,
    pub bound: Bound,
    /// How many nodes it has with its parts.
    pub size: usize,
}

/// The form of a term's first node.
pub fn form_of(term: &Term) -> Form {
    match term {
        Term::Int(_) => Form::Int,
        Term::Bool(_) => Form::Bool,
        Term::Var(_) | Term::Glob(_) => Form::Name,
        Term::Fun(_) => Form::Fun,
        Term::Rec(_) => Form::Rec,
        Term::App(_, _) => Form::App,
        Term::Let(_, _) => Form::Let,
        Term::If(_, _, _) => Form::If,
        Term::Pair(_, _) => Form::Pair,
        Term::Fst(_) => Form::Fst,
        Term::Snd(_) => Form::Snd,
        Term::Prim(prim, _, _) => Form::Prim(*prim),
        Term::Bracket(_) => Form::Bracket,
        Term::Escape(_) => Form::Escape,
        Term::Run(_, _) => Form::Run,
        Term::CloseCode(_, _) => Form::Close,
        Term::OpenCode(_) => Form::Open,
        Term::Lift(_) => Form::Lift,
        Term::LiftB(_) => Form::LiftB,
    }
}
