//! A table of slots that are filled once, which threads share and none waits for.
#![tactic(auto)]

pub mod laws;
mod named;
mod receipt;
mod refused;
mod table;
mod witness;

pub use crate::named::{Make, Named};
pub use crate::receipt::{Receipt, Receipts};
pub use crate::refused::{NoRoom, Refused};
pub use crate::table::Table;
