//! What inference tells of a part of a program is most general among the certificates of the part.
#![tactic(auto)]

pub mod laws;
