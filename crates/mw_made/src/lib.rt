//! The sections that are made for what inference tells of a program are those of its written certificate.
#![tactic(auto)]

pub mod laws;
