//! The grammar: the trees of programs with their names, which tokens derive which tree, and the parser by forms that
//! the reader is compared with. The functions here read single tokens and types, and make trees of the parts that were
//! read.
//!
//! `specs/Grammar` has the grammar as a relation between tokens and trees, and `specs/Answers` what the answers of a
//! reader mean in its words.
#![tactic(auto)]

pub mod fault;
pub mod kinds;
pub mod next;
pub mod parts;
pub mod rows;
pub mod tree;
pub mod words;

pub use crate::tree::{Placed, Surface, SurfaceItem, SurfaceItems, Tree};
