// The limits of the language.

/// How deep a source's expressions and types may nest.
pub const MOST_NESTING: u32 = 200;

/// How many nodes a type may have.
pub const MOST_TYPE_NODES: u32 = 10_000;

/// How many nodes the code of a kernel may have.
pub const MOST_CODE_NODES: u32 = 20_000;

/// How deep the code of a kernel may be.
pub const MOST_CODE_DEPTH: u32 = 400;
