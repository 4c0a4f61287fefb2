//! Types by lines, each of which names a type by earlier lines that name its parts: which lines name types, whether one
//! is made from another, and whether a classifier stands in one. No type is expanded.
#![tactic(auto)]

pub mod laws;
mod lines;
mod made;
mod marks;
mod table;

pub use lines::Line;
pub use made::is_made;
pub use marks::holds_classifier;
pub use table::{LineReader, TypeLines};
