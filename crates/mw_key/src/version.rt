// Versions of texts.

/// Which module a text asks for: its first word says which version of emission makes it.
#[derive(Clone, Copy, Debug, PartialEq, Eq)]
pub enum Version {
    One,
    Two,
}
