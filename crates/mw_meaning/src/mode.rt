// Which code a run of code is of.

/// Whether a kernel's code is run as it was built, or simplified before. Either way it is measured as it was built.
#[derive(Clone, Copy, Debug, PartialEq, Eq)]
pub enum Mode {
    Plain,
    Simple,
}
