// Types and terms.

/// A base type.
#[derive(Clone, Copy, Debug, PartialEq, Eq)]
pub enum Base {
    Int,
    Bool,
}

/// A ground type, which kernels take and give and main has: a base type, or a pair of ground types.
#[derive(Debug, Drop)]
pub enum Ground {
    Base(Base),
    Pair(Box<Ground>, Box<Ground>),
}

/// A kernel type `g` or `g -> h`.
#[derive(Debug, Drop)]
pub enum KType {
    Ground(Ground),
    Fun(Ground, Ground),
}

/// A primitive operation on two integers. The crate exports it as `Prim`.
#[derive(Clone, Copy, Debug, PartialEq, Eq)]
pub enum Primitive {
    Add,
    Sub,
    Mul,
    Div,
    Mod,
    Eq,
    Lt,
    Le,
}

/// A nameless term: `Var(0)` is the nearest binder, whatever its level.
#[derive(Debug, Drop)]
pub enum Term {
    /// A 64-bit integer in two's complement.
    Int(i64),
    Bool(bool),
    /// A variable, by the number of binders between its use and its own.
    Var(u32),
    /// A top-level item, by its index.
    Glob(u32),
    /// A function; its argument is `Var(0)` in the body.
    Fun(Box<Term>),
    /// A recursive function; its argument is `Var(0)` and its own name `Var(1)` in the body.
    Rec(Box<Term>),
    App(Box<Term>, Box<Term>),
    /// A definition, and the term in which it is `Var(0)`.
    Let(Box<Term>, Box<Term>),
    If(Box<Term>, Box<Term>, Box<Term>),
    Pair(Box<Term>, Box<Term>),
    Fst(Box<Term>),
    Snd(Box<Term>),
    Prim(Primitive, Box<Term>, Box<Term>),
    /// `.<e>.`, code of the level 1 term.
    Bracket(Box<Term>),
    /// `.~e` at level 1, a splice of the code that the level 0 term gives.
    Escape(Box<Term>),
    /// `run[K] e`.
    Run(KType, Box<Term>),
    /// `close e`, with the offset of the word in the source.
    CloseCode(u32, Box<Term>),
    OpenCode(Box<Term>),
    /// `lift e`, code of the integer's literal.
    Lift(Box<Term>),
    /// `liftb e`, code of the truth value's literal.
    LiftB(Box<Term>),
}
