//! The commands of the program.
#![tactic(auto)]

mod command;
mod ending;
mod erased;
mod fault;
mod inquiry;
mod items;
mod kept;
pub mod laws;
mod linked;
mod main_end;
mod migrated;
mod program;
mod ran;
mod shown;
mod source;
mod typing;
mod workplace;

pub use crate::command::run;
pub use crate::workplace::table;
pub use mw_console::Status;
