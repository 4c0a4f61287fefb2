//! Files of modules, binary or text: the text of a binary one, and whether a module is valid.
#![tactic(auto)]

mod fault;
mod file;
pub mod laws;
mod lines;

pub use crate::fault::{BadFile, FileFault};
pub use crate::file::{binary_text, judge};
pub use crate::lines::{put_bad_file, put_verdict};
