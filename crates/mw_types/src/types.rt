// Types with unknowns, equations, and why there is no solution.

ghost use Rattle.std.specs.Prelude.{◌≡◌, length, IsTrue, ◌↔◌};
ghost use Rattle.mw_types.specs.Types.{type_of, Within};
ghost use Rattle.mw_types.specs.Equations.{equations_of, AllWithin};
ghost use Rattle.mw_types.specs.declared.types.SolveFault.TheVariants.{Memory};

use mw_list::Sequence;
use std::alloc::{AllocError, AllocFailed};

/// A type in which unknowns, by their numbers, stand for types.
#[derive(Debug, Drop)]
pub enum Ty {
    Int,
    Bool,
    Unknown(u64),
    Pair(Box<Ty>, Box<Ty>),
    Arrow(Box<Ty>, Box<Ty>),
    /// Code under a classifier unknown, by its number.
    Code(u64, Box<Ty>),
    /// Closed code.
    Closed(Box<Ty>),
}

/// Two types that are to be one.
#[derive(Debug, Drop)]
pub struct Equation {
    pub left: Ty,
    pub right: Ty,
}

/// Equations in order, which contracts see as a list.
pub type Pairs = Sequence<Equation>;

/// Equations on the unknowns and the classifier unknowns whose numbers are below two bounds.
#[derive(Debug, Drop)]
pub struct Equations {
    pub unknowns: u64,
    pub classifiers: u64,
    pub pairs: Pairs,
}

impl Equations {
    /// Whether each unknown and each classifier unknown in the list has a number below its bound.
    pub fn is_within(&self) -> bool
        ensures { IsTrue result
            ↔ AllWithin self.now.unknowns self.now.classifiers (equations_of self.now.pairs) }
    {
        for equation in self.pairs.as_slice() {
            if !names_within(&equation.left, self.unknowns, self.classifiers) {
                return false;
            }
            if !names_within(&equation.right, self.unknowns, self.classifiers) {
                return false;
            }
        }
        true
    }
}

// Whether the type's numbers are below the bounds.
fn names_within(ty: &Ty, unknowns: u64, classifiers: u64) -> bool
    ensures { IsTrue result ↔ Within unknowns classifiers (type_of ty.now) }
{
    match ty {
        Ty::Int => true,
        Ty::Bool => true,
        Ty::Unknown(u) => *u < unknowns,
        Ty::Pair(s, t) => {
            names_within(s, unknowns, classifiers) && names_within(t, unknowns, classifiers)
        }
        Ty::Arrow(s, t) => {
            names_within(s, unknowns, classifiers) && names_within(t, unknowns, classifiers)
        }
        Ty::Code(c, t) => *c < classifiers && names_within(t, unknowns, classifiers),
        Ty::Closed(t) => names_within(t, unknowns, classifiers),
    }
}

/// Why equations aren't solved; a number is the length of a front.
#[derive(Clone, Copy, Debug, PartialEq, Eq)]
pub enum SolveFault {
    /// The first front that has no solution, where each shorter one has, and none too big.
    Unsolvable(u64),
    /// The first front that is too big: its most general solution has a type of over 10,000 nodes.
    TooBig(u64),
    Memory(AllocError),
}

impl From<AllocError> for SolveFault {
    ghost from_gives = { λ e s. s ≡ Memory e };

    fn from(e: AllocError) -> SolveFault {
        SolveFault::Memory(e)
    }
}

impl<T: Drop> From<AllocFailed<T>> for SolveFault {
    ghost use Rattle.std.specs.Prelude.{alloc_error};

    ghost from_gives = { λ _ s. s ≡ Memory alloc_error };

    fn from(e: AllocFailed<T>) -> SolveFault {
        SolveFault::Memory(AllocError::from(e))
    }
}
