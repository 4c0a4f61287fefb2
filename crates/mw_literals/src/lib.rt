//! Laws: all literals that a program and its kernels' code have are of 64 bits.
#![tactic(auto)]

pub mod laws;
