//! What a command reads and writes beside its work: the source's file, the lines of the output, and statuses with their
//! exit codes.
#![tactic(auto)]

mod lines;
mod source;
mod status;
mod text;

pub use crate::lines::write_lines;
pub use crate::source::file_bytes;
pub use crate::status::Status;
pub use crate::text::{
    put_answer, put_bound, put_kernel, put_migrated, put_module, put_refusal, put_totals, put_trap,
    put_typing,
};
