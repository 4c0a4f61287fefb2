//! All kernels of a program as one module, in which each is invoked under its own name.
#![tactic(auto)]

mod count;
mod exports;
pub mod laws;
mod linking;
mod parts;

pub use crate::count::functions;
pub use crate::linking::link;
pub use crate::parts::Linkable;
