//! The cache file of a run: what is loaded of it before, what is kept in it afterwards, and its migration.
#![tactic(auto)]

mod keeping;
mod migrating;
mod opening;

pub use crate::keeping::keep;
pub use crate::migrating::{FileMigration, keep_migration, migration};
pub use crate::opening::{CacheFile, Opened, open_cache};
