//! Modules read from bytes: the module that they spell within the profile, or their first fault, with its place.
#![tactic(auto)]

mod bodies;
mod code;
mod exports;
mod fault;
pub mod laws;
mod modules;
mod opcodes;
mod pieces;
mod regions;
mod sections;
mod segments;
mod storage;
mod trees;
mod types;
mod whole;

pub use crate::fault::{BadModule, DecodeFault};
pub use crate::modules::decode;
