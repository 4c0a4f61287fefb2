// The intermediate language, as programs hold it.

use crate::place::{Place, Places};
use mw_list::Sequence;
use mw_term::Prim;

/// Code of a function.
#[derive(Debug, Drop)]
pub enum Ir {
    Int(i64),
    Bool(bool),
    /// A variable, where the function finds it.
    Get(Place),
    /// A closure of the function of this number, with the places of its free variables.
    Closure(u32, Places),
    App(Box<Ir>, Box<Ir>),
    /// A definition, the slot where its value stands, and the code in which it does.
    Let(u32, Box<Ir>, Box<Ir>),
    If(Box<Ir>, Box<Ir>, Box<Ir>),
    Pair(Box<Ir>, Box<Ir>),
    Fst(Box<Ir>),
    Snd(Box<Ir>),
    Prim(Prim, Box<Ir>, Box<Ir>),
}

/// A function: how many free variables its closures hold, how many slots its lets need, and its body.
#[derive(Debug, Drop)]
pub struct IrFunc {
    pub free: u32,
    pub slots: u32,
    pub body: Ir,
}

/// Functions in order, which contracts see as a list.
pub type IrFuncs = Sequence<IrFunc>;

/// Converted code: its functions by number, and the code outside them, which finds variables in its slots alone.
#[derive(Debug, Drop)]
pub struct Converted {
    pub funcs: IrFuncs,
    pub body: IrFunc,
}
