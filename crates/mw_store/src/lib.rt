//! The records of a cache file: a kernel's text, and the bytes of its module.
#![tactic(auto)]

pub mod laws;
mod load;
mod loaded;
mod parts;
mod record;
mod whole;

pub use crate::load::{FILE_LIMIT, Load, load_of};
pub use crate::record::record_of;
