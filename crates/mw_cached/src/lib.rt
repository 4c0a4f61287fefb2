//! Kernels that run code by the modules of a cache, and keep the functions that runs give.
#![tactic(auto)]

mod fault;
mod function;
mod functions;
mod kernels;
mod linked;
mod obtaining;

pub use crate::kernels::{CachedKernels, KernelState};
