//! Simplification of kernels' code, and that it keeps what code means.
#![tactic(auto)]

mod fold;
pub mod laws;
mod leaf;
mod put;
mod simplifying;
mod uses;

pub use crate::simplifying::simplify;
