//! Kernels that run: the `init` of a module on an instance of it, and calls of the function that it gave.
#![tactic(auto)]

mod arguments;
mod fault;
pub mod laws;
mod outcome;
mod reading;
mod running;

pub use crate::fault::RunFault;
pub use crate::running::{Began, Running};
