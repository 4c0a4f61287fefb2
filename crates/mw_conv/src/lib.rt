//! Closure conversion of kernels' code. A function becomes one that is closed but for its closure, which holds the
//! values of its free variables; a variable becomes the place where its function finds it.
#![tactic(auto)]

mod code;
mod conversion;
mod find;
mod found;
pub mod laws;

pub use crate::conversion::convert;
