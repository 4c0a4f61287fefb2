//! The intermediate language of kernels and its meaning. Functions are closed but for the words of their closures.
//!
//! The Rust types are plain trees. `specs/` has code as pure data with its meaning over a list of heap words, the views
//! from the Rust types to it, and the ranges and limits that converted code keeps.
#![tactic(auto)]

pub mod code;
pub mod laws;
pub mod place;

pub use crate::code::{Converted, Ir, IrFunc, IrFuncs};
pub use crate::place::{Place, Places};
