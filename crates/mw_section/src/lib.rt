//! The lines of one section of a typing certificate, as they are written: types as lines, each line once, and their
//! text. No type is expanded.
#![tactic(auto)]

pub mod laws;
mod numbers;
mod table;
mod text;
mod writer;

pub use text::{put_head, put_section};
pub use writer::LineWriter;
