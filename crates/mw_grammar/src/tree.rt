// Trees of the surface syntax, in which the short forms are unfolded and parentheses are gone.

use mw_list::Sequence;
use mw_term::{Ground, KType, Name, Prim};

/// A name, with the offset of its first byte.
#[derive(Debug, Drop)]
pub struct Placed {
    pub name: Name,
    pub at: u32,
}

/// An expression with its names. A `u32` is the offset of the bracket, escape or word of the form.
#[derive(Debug, Drop)]
pub enum Tree {
    Int(i64),
    Bool(bool),
    /// A name in use.
    Used(Placed),
    /// A function of its argument.
    Fun(Name, Box<Tree>),
    /// A recursive function: its own name, its argument, its body.
    Rec(Name, Name, Box<Tree>),
    App(Box<Tree>, Box<Tree>),
    /// A name, its definition, and the expression in which it is in scope.
    Let(Name, Box<Tree>, Box<Tree>),
    If(Box<Tree>, Box<Tree>, Box<Tree>),
    Pair(Box<Tree>, Box<Tree>),
    Fst(Box<Tree>),
    Snd(Box<Tree>),
    Prim(Prim, Box<Tree>, Box<Tree>),
    /// `.<e>.`.
    Bracket(u32, Box<Tree>),
    /// `.~e`.
    Escape(u32, Box<Tree>),
    /// `run[K] e`.
    Run(u32, KType, Box<Tree>),
    /// `close e`.
    CloseCode(u32, Box<Tree>),
    /// `open e`.
    OpenCode(u32, Box<Tree>),
    /// `lift e`.
    Lift(u32, Box<Tree>),
    /// `liftb e`.
    LiftB(u32, Box<Tree>),
}

/// A top-level item.
#[derive(Debug, Drop)]
pub enum SurfaceItem {
    /// A let: its name, the offset of the first token after its `=`, and what it binds.
    Let(Placed, u32, Tree),
    /// A kernel item: its name, its kernel type, and its code.
    Kernel(Placed, KType, Tree),
}

/// Items in order, which contracts see as a list.
pub type SurfaceItems = Sequence<SurfaceItem>;

/// A program with its names: its items, and main's type and expression.
#[derive(Debug, Drop)]
pub struct Surface {
    pub items: SurfaceItems,
    pub result: Ground,
    pub body: Tree,
}
