//! The meanings of the language, as definitions over pure data, and their laws; and erasure.
#![tactic(auto)]

pub mod erasing;
pub mod laws;
pub mod mode;
pub mod program;
pub mod shape;

pub use crate::erasing::erase;
pub use crate::mode::Mode;
pub use crate::program::erase_program;
pub use crate::shape::has_shape;
