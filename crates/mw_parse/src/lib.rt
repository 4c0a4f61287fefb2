//! Reads tokens: the tree of a program, or the refusal of its source.
//!
//! The grammar and what the answers mean in its words stand in `mw_grammar`, apart from the reader.
#![tactic(auto)]

mod items;
pub mod laws;
mod reader;
mod room;
mod trees;

pub use crate::reader::parse;
pub use mw_grammar::{Placed, Surface, SurfaceItem, SurfaceItems, Tree};
