// What the program asks of the outside: where files are read, where bytes are written, where a file is
// kept, and what each piece of parallel work passes. Each is a trait whose clauses speak of its content,
// where an implementation tells it, and of a count of its faults.
#![tactic(auto)]

mod errors;
mod gates;
mod keepers;
mod lists;
mod named;
mod plan;
mod reading;
mod real;
mod scripted;
mod sinks;
mod sources;
mod sure;
mod writing;

pub use errors::{KeepFault, ReadFault, ReadStop, StartFault, WriteFault};
pub use gates::{Gate, Pass};
pub use keepers::Keeper;
pub use lists::{Bytes, Calls, Names};
pub use named::{Files, NamedFile};
pub use reading::read_up_to;
pub use real::{FileKeeper, FileSource, OutSink};
pub use scripted::{MemKeeper, MemSink, MemSource};
pub use sinks::Sink;
pub use sources::Source;
pub use sure::{SureKeeper, SureSink, SureSource};
pub use writing::write_whole;

#[cfg(test)]
mod tests;
