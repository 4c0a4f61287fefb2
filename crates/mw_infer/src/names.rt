// What top-level names have where equations use them.

use mw_term::KType;
use mw_types::Ty;

/// A let's most general type. Its unknowns and classifier unknowns have the numbers below these two.
#[derive(Drop)]
pub struct LetType {
    pub unknowns: u64,
    pub classifiers: u64,
    pub ty: Ty,
}

/// What a name has: a let its most general type, a kernel item that is in scope its kernel type.
#[derive(Drop)]
pub enum TopScheme<'p> {
    Let(LetType),
    Kernel(&'p KType),
    OutOfScope,
}
