//! Sources on the machine, over kernels that answer from a list: what a program's main or a kernel item comes to, and
//! what the machine asks. For tests and for timing.
#![tactic(auto)]

mod scripts;
mod sources;
mod staged;

pub use crate::scripts::Reply;
pub use crate::staged::answer;
