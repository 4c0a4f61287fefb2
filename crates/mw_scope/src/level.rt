// Levels.

/// The level of an expression: live, which runs and writes code, or quoted, which is the code.
#[derive(Clone, Copy, Debug, PartialEq, Eq)]
pub enum Level {
    Live,
    Quoted,
}
