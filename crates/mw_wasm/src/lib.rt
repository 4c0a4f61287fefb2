//! WebAssembly 1.0, integer instructions only, as definitions: what a module is, which bytes spell it, when it is valid
//! and how it reduces. There is no decoder, validator or interpreter here: those are proved against what stands here.
#![tactic(auto)]

pub mod arithmetic;
pub mod instructions;
pub mod laws;
pub mod modules;
pub mod numbers;
pub mod values;

pub use crate::arithmetic::numeric;
pub use crate::instructions::{Instr, Instrs};
pub use crate::modules::{
    Element, Elements, Export, Exported, Exports, Func, FuncType, FuncTypes, Funcs, GlobalVar,
    Globals, Limits, Module, Segment, Segments,
};
pub use crate::numbers::{IntOp, LoadOp, NumOp, StoreOp};
pub use crate::values::{Indices, Octets, Trap, ValType, ValTypes, Value};
