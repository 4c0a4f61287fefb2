//! What inference finds agrees with the rules of certificates.
#![tactic(auto)]

pub mod laws;
