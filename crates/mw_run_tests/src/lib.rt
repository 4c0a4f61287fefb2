//! Tests of runs: that workers and the table of modules are used. They stand above `mw_drive`, so that it is proved
//! once.
#![tactic(auto)]

#[cfg(test)]
mod drive;
