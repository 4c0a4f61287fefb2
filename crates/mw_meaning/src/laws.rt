// Laws of the meanings, which no program calls.

pub mod codes;
pub mod erasure;
pub mod examples;
pub mod kernels;
pub mod outcomes;
pub mod simplification;
pub mod standing;
pub mod typing;
pub mod typing_examples;
pub mod values;

pub use crate::laws::erasure::confluence;
pub use crate::laws::typing::typing_kept;
