// Lists inside instructions, which wait for their end.

ghost use Rattle.std.specs.Prelude.{◌≡◌, ◌∷◌, [], IfSome, IfNone, IfOk};
ghost use Rattle.mw_wasm.specs.Validity.{results_of};
ghost use Rattle.mw_validate.specs.Turns.{Turned, Enters, context_in};

use crate::context::Surroundings;
use crate::operands::{OperandList, closes, no_operands, pushes};
use mw_wasm::{Instr, Instrs, ValType};
use std::alloc::{AllocError, Global};
use std::mem;

/// What a list is to the instruction that holds it.
#[derive(Clone, Copy)]
pub enum Kind<'m> {
    /// A block's body, or the last list of an if.
    Block,
    /// A loop's body.
    Loop,
    /// The first list of an if: the second.
    First(&'m Instrs),
}

/// What waits for a list's end: the instruction's result, the operands below it, and the code behind it.
#[derive(Drop)]
pub struct Frame<'m> {
    pub kind: Kind<'m>,
    pub result: Option<ValType>,
    pub below: OperandList,
    pub code: &'m [Instr],
}

/// The lists that wait, the innermost last; the operands of the code in hand, and that code; and how many instructions
/// were looked at so far, at most 2^32 - 1.
#[derive(Drop)]
pub struct Checking<'m> {
    pub frames: Vec<Frame<'m>>,
    pub list: OperandList,
    pub code: &'m [Instr],
    pub seen: u32,
}

/// What a turn comes to.
#[derive(Clone, Copy)]
pub enum Turn {
    /// More is to be checked.
    On,
    /// The body passes.
    Passed,
    /// A test failed.
    Failed,
}

/// The first instruction, and the code behind it.
pub fn next_instruction<'m>(code: &'m [Instr]) -> Option<(&'m Instr, &'m [Instr])>
    ensures some { IfSome result (λ x. code.now ≡ x.0.now ∷ x.1.now) }
    ensures none { IfNone result (code.now ≡ []) }
{
    match code {
        [] => None,
        [i, rest @ ..] => Some((i, rest)),
    }
}

/// No operand, or one.
pub fn types_of(t: Option<ValType>) -> &'static [ValType]
    ensures { result.now ≡ results_of t }
{
    match t {
        None => &[],
        Some(ValType::I32) => &[ValType::I32],
        Some(ValType::I64) => &[ValType::I64],
    }
}

/// A list is entered, behind whose instruction this code stands.
#[tactic(auto, using(crate::proofs::CheckTurns::frame_on_top))]
pub fn enter<'m>(
    alloc: Global,
    state: &mut Checking<'m>,
    kind: Kind<'m>,
    t: Option<ValType>,
    body: &'m Instrs,
    rest: &'m [Instr],
) -> Result<(), AllocError>
    ensures { IfOk result (λ _. Enters kind.entry t rest.now body.now state.old state.new) }
{
    let below = mem::replace(&mut state.list, no_operands(alloc));
    state.frames.push(Frame {
        kind,
        result: t,
        below,
        code: rest,
    })?;
    state.code = body.as_slice();
    Ok(())
}

/// The code in hand has ended.
#[tactic(auto, using(crate::proofs::CheckTurns::turn_laws))]
pub fn leave<'m>(
    alloc: Global,
    within: &Surroundings<'m>,
    state: &mut Checking<'m>,
) -> Result<Turn, AllocError>
    requires { state.old.code.now ≡ [] }
    ensures { IfOk result (λ u. Turned (context_in within.now) u state.old state.new) }
{
    match state.frames.pop() {
        None => {
            if closes(&mut state.list, within.results) {
                Ok(Turn::Passed)
            } else {
                Ok(Turn::Failed)
            }
        }
        Some(frame) => {
            if !closes(&mut state.list, types_of(frame.result)) {
                return Ok(Turn::Failed);
            }
            match frame.kind {
                Kind::First(second) => {
                    state.frames.push(Frame {
                        kind: Kind::Block,
                        result: frame.result,
                        below: frame.below,
                        code: frame.code,
                    })?;
                    state.list = no_operands(alloc);
                    state.code = second.as_slice();
                }
                Kind::Block => {
                    state.list = frame.below;
                    pushes(&mut state.list, types_of(frame.result))?;
                    state.code = frame.code;
                }
                Kind::Loop => {
                    state.list = frame.below;
                    pushes(&mut state.list, types_of(frame.result))?;
                    state.code = frame.code;
                }
            }
            Ok(Turn::On)
        }
    }
}
