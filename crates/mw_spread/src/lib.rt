//! Work on items that is split among threads, with the outputs in the items' order.
#![tactic(auto)]

mod job;
mod parallel;

pub use crate::job::{Job, JobFault};
pub use crate::parallel::spread;
