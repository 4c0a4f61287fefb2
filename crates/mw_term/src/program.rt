// Programs.

use crate::name::Name;
use crate::term::{Ground, KType, Term};
use mw_list::Sequence;

/// What an item defines.
#[derive(Debug, Drop)]
pub enum ItemKind {
    /// `let x = v`, where v is a syntactic value.
    Value(Term),
    /// `kernel k : K = e`.
    Kernel(KType, Term),
}

/// A top-level item.
#[derive(Debug, Drop)]
pub struct Item {
    pub name: Name,
    pub kind: ItemKind,
}

/// Items in order, which contracts see as a list.
pub type Items = Sequence<Item>;

/// A program: its items, and main's type and term.
#[derive(Debug, Drop)]
pub struct Program {
    pub items: Items,
    pub result: Ground,
    pub body: Term,
}
