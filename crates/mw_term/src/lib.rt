//! Terms, kernel types, values and programs of the language, and the answers that every crate above speaks of.
//!
//! The Rust types are plain trees. `specs/` has the same as pure data, without the places in memory, and a view from
//! each Rust type to it: the contracts of this project speak of the views.
#![tactic(auto)]

pub mod copy;
pub mod decimal;
pub mod laws;
pub mod limits;
pub mod measure;
pub mod name;
pub mod program;
pub mod refusal;
pub mod term;
pub mod value;

pub use crate::copy::{copied_ground, copied_kernel_type, copied_name, copied_term};
pub use crate::decimal::{is_digit, number_in};
pub use crate::limits::{MOST_CODE_DEPTH, MOST_CODE_NODES, MOST_NESTING, MOST_TYPE_NODES};
pub use crate::measure::{depth, nodes};
pub use crate::name::Name;
pub use crate::program::{Item, ItemKind, Items, Program};
pub use crate::refusal::{Refusal, Stop};
pub use crate::term::{Base, Ground, KType, Primitive as Prim, Term};
pub use crate::value::{BaseValue, GroundValue, Limit, TrapKind};
