//! Instances of valid modules, and the invocation of their functions.
#![tactic(auto)]

mod calls;
mod control;
mod ended;
mod exports;
mod first_store;
mod held;
mod instance;
mod invocation;
mod jumps;
mod labels;
mod machine;
mod memory;
mod numbers;
mod operands;
mod outcome;
mod segments;
mod simple;
mod state;
mod tables;

pub use crate::ended::{Ended, InstanceFault};
pub use crate::instance::Instance;
