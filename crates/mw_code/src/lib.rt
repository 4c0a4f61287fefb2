//! Code under construction: nodes in a pool, whose binders have numbers, and the terms that they are read back to.
#![tactic(auto)]

mod count;
pub mod fault;
mod form;
pub mod laws;
pub mod node;
mod place;
mod read;
mod reader;
mod steps;

pub use crate::fault::CodeFault;
pub use crate::node::CodeNode;
pub use crate::read::read_back;
pub use crate::steps::Steps;
