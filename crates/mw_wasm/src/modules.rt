// Modules.

use crate::instructions::Instrs;
use crate::values::{Indices, Octets, ValType, ValTypes};
use mw_list::Sequence;
use std::alloc::Global;

/// A function's type.
#[derive(Debug, Drop)]
pub struct FuncType {
    pub params: ValTypes,
    pub results: ValTypes,
}

/// A function: the index of its type, the types of its locals beyond the parameters, and its body.
#[derive(Debug, Drop)]
pub struct Func {
    pub kind: u32,
    pub locals: ValTypes,
    pub body: Instrs,
}

/// The limits of a table in elements, or of a memory in pages of 65,536 bytes.
#[derive(Clone, Copy, Debug, PartialEq, Eq)]
pub struct Limits {
    pub min: u32,
    pub max: Option<u32>,
}

/// A global: its type, whether it can be written, and the expression that it begins with.
#[derive(Debug, Drop)]
pub struct GlobalVar {
    pub kind: ValType,
    pub variable: bool,
    pub init: Instrs,
}

/// What an export gives, by its index.
#[derive(Clone, Copy, Debug, PartialEq, Eq)]
pub enum Exported {
    Func(u32),
    Table(u32),
    Memory(u32),
    Global(u32),
}

/// An export: its name's bytes, and what it gives.
#[derive(Debug, Drop)]
pub struct Export {
    pub name: Octets,
    pub what: Exported,
}

/// An element segment of the table: where it begins, and the functions that it writes.
#[derive(Debug, Drop)]
pub struct Element {
    pub offset: Instrs,
    pub funcs: Indices,
}

/// A data segment of the memory: where it begins, and the bytes that it writes.
#[derive(Debug, Drop)]
pub struct Segment {
    pub offset: Instrs,
    pub bytes: Octets,
}

/// Function types in order, which contracts see as a list.
pub type FuncTypes = Sequence<FuncType>;

/// Functions in order, which contracts see as a list.
pub type Funcs = Sequence<Func>;

/// Globals in order, which contracts see as a list.
pub type Globals = Sequence<GlobalVar>;

/// Exports in order, which contracts see as a list.
pub type Exports = Sequence<Export>;

/// Element segments in order, which contracts see as a list.
pub type Elements = Sequence<Element>;

/// Data segments in order, which contracts see as a list.
pub type Segments = Sequence<Segment>;

/// A module of the integer profile: no imports, no start function, at most one table and one memory.
#[derive(Debug, Drop)]
pub struct Module {
    pub types: FuncTypes,
    pub funcs: Funcs,
    pub table: Option<Limits>,
    pub memory: Option<Limits>,
    pub globals: Globals,
    pub exports: Exports,
    pub elements: Elements,
    pub segments: Segments,
}
