//! Kernels as WebAssembly: the module of a kernel's code, and its bytes.
#![tactic(auto)]

mod emission;
mod entry;
pub mod laws;
mod steps;

pub use crate::emission::{emit, emit_named};
pub use crate::entry::Entry;
pub use crate::steps::Steps;
