// Instructions that hold lists.

ghost use Rattle.std.specs.Prelude.{◌≡◌};
ghost use Rattle.mw_wasm.specs.Syntax.{block, cond, loop};
ghost use Rattle.mw_wasm.specs.Views.{code_of, instruction_of};

use mw_wasm::{Instr, Instrs, ValType};

/// A block.
pub fn block_instr(kind: Option<ValType>, body: Instrs) -> Instr
    ensures { instruction_of result ≡ block kind (code_of body) }
{
    Instr::Block(kind, body)
}

/// A loop.
pub fn loop_instr(kind: Option<ValType>, body: Instrs) -> Instr
    ensures { instruction_of result ≡ loop kind (code_of body) }
{
    Instr::Loop(kind, body)
}

/// An `if` with both its lists.
pub fn if_instr(kind: Option<ValType>, first: Instrs, second: Instrs) -> Instr
    ensures { instruction_of result ≡ cond kind (code_of first) (code_of second) }
{
    Instr::If(kind, first, second)
}
