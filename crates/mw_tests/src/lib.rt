//! Tests of the crates below that call public items alone. A crate with tests is proved twice, so they stand here.
#![tactic(auto)]

#[cfg(test)]
mod cache;
#[cfg(test)]
mod cert;
#[cfg(test)]
mod code;
#[cfg(test)]
mod console;
#[cfg(test)]
mod conv;
#[cfg(test)]
mod encode;
#[cfg(test)]
mod generate;
#[cfg(test)]
mod judge;
#[cfg(test)]
mod kernel;
#[cfg(test)]
mod leb;
#[cfg(test)]
mod lex;
#[cfg(test)]
mod lines;
#[cfg(test)]
mod link;
#[cfg(test)]
mod parts;
#[cfg(test)]
mod sample;
#[cfg(test)]
mod section;
#[cfg(test)]
mod simplify;
#[cfg(test)]
mod slots;
#[cfg(test)]
mod spread;
#[cfg(test)]
mod store;
#[cfg(test)]
mod types;
#[cfg(test)]
mod validate;
#[cfg(test)]
mod wat;
#[cfg(test)]
mod words;
