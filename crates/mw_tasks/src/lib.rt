//! What the kernel items and main of a program come to on the machine, over any kernels; and over a cache: the kernel
//! items by threads, and then main.
#![tactic(auto)]

mod agreeing;
mod entry;
mod entry_phase;
mod evaluation;
mod gathering;
mod items_phase;
mod job;
mod kernel_item;
pub mod laws;
pub mod outcome;
mod places;

pub use crate::entry::evaluate_main;
pub use crate::entry_phase::{MainEnd, main_phase};
pub use crate::items_phase::{Phase, kernels_phase};
pub use crate::kernel_item::evaluate_item;
pub use crate::outcome::{Evaluated, ItemOutcome, MainOutcome, Outcomes};
