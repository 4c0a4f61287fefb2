// Laws of the definitions and worked examples, which no program calls.

pub mod executions;
pub mod format;
pub mod invocations;
pub mod reduction;
pub mod rows;
pub mod soundness;
pub mod threads;
pub mod validity;

pub use crate::laws::format::one_module;
