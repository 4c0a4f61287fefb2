// Instructions.

ghost use Rattle.std.specs.Prelude.{◌≡◌, ◌<◌, [], ◌∷◌, ◌++◌, length, OnOk, OnErr, slice_get, Some};

use crate::numbers::{LoadOp, NumOp, StoreOp};
use crate::values::{Indices, ValType};
use std::alloc::{AllocError, Global};

/// An instruction. Blocks hold their bodies; a missing second list of `If` is the empty one.
#[derive(Debug, Drop)]
#[cycle(instr)]
pub enum Instr {
    Unreachable,
    Nop,
    Block(Option<ValType>, Instrs),
    Loop(Option<ValType>, Instrs),
    If(Option<ValType>, Instrs, Instrs),
    Br(u32),
    BrIf(u32),
    /// The labels of a table, and the one for an operand past its end.
    BrTable(Indices, u32),
    Return,
    Call(u32),
    /// An indirect call at the type of this index.
    CallIndirect(u32),
    Drop,
    Select,
    LocalGet(u32),
    LocalSet(u32),
    LocalTee(u32),
    GlobalGet(u32),
    GlobalSet(u32),
    /// The operation, the exponent of the alignment, and the offset.
    Load(LoadOp, u32, u32),
    /// The operation, the exponent of the alignment, and the offset.
    Store(StoreOp, u32, u32),
    MemorySize,
    MemoryGrow,
    ConstI32(u32),
    ConstI64(u64),
    Num(NumOp),
}

/// Instructions in order. Contracts see the list `inner.items`.
#[derive(Debug, Drop)]
#[cycle(instr)]
pub struct Instrs {
    inner: Vec<Instr>,
}

impl Instrs {
    /// No instructions.
    pub fn new(alloc: Global) -> Instrs
        ensures { result.inner.items ≡ [] }
    {
        Instrs {
            inner: Vec::new(alloc),
        }
    }

    /// The number of instructions.
    pub fn len(&self) -> usize
        ensures { result ≡ length self.now.inner.items }
    {
        self.inner.len()
    }

    /// The instruction at a place below the length.
    pub fn get(&self, at: usize) -> &Instr
        requires { at < length self.now.inner.items }
        ensures { slice_get self.now.inner.items at ≡ Some result.now }
    {
        &self.inner[at]
    }

    /// All instructions.
    pub fn as_slice(&self) -> &[Instr]
        ensures { result.now ≡ self.now.inner.items }
    {
        self.inner.as_slice()
    }

    /// Adds one instruction at the end; a refusal of memory changes nothing.
    pub fn push(&mut self, instruction: Instr) -> Result<(), AllocError>
        ensures ok { OnOk result (self.new.inner.items ≡ self.old.inner.items ++ instruction ∷ []) }
        ensures err { OnErr result (self.new.inner.items ≡ self.old.inner.items) }
    {
        self.inner.push(instruction)?;
        Ok(())
    }
}
