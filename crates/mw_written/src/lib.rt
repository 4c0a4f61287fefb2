//! The written certificate of a program: of most general types, with numbers and lines in the order in which they are
//! read. A program has at most one.
#![tactic(auto)]

pub mod laws;
