//! Canonical texts: the one text of each version for code at a kernel type, its digest, and where its name begins to be
//! looked for.
#![tactic(auto)]

pub mod fault;
mod form;
mod hash;
pub mod laws;
pub mod number;
mod passing;
mod read;
mod reader;
pub mod version;
mod write;

pub use crate::fault::TextFault;
pub use crate::hash::{digest, start_in, start_of};
pub use crate::passing::read_type;
pub use crate::read::read_text;
pub use crate::version::Version;
pub use crate::write::text_of;
