//! Modules by their code, through what was loaded and a table that threads share.
#![tactic(auto)]

mod asked;
mod cache;
mod emitter;
mod got;
mod hinted;
mod kept;
pub mod laws;
mod migration;
mod records;

pub use crate::asked::Asked;
pub use crate::cache::Cache;
pub use crate::got::Got;
pub use crate::hinted::HintedCache;
pub use crate::kept::KeptReceipts;
pub use crate::migration::{Migration, migration_of};
pub use crate::records::{RecordBytes, Records};
