// Runs and calls of a module that was written by hand, by tables.

mod modules;
mod runs;
