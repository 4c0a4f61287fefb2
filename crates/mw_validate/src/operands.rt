// The operands above a label's height. Each label has a list of its own, so that nothing below its height is popped.

ghost use Rattle.std.specs.Prelude.{◌≡◌, ◌≤◌, [], true, false, length, IfSome, IfNone, IfOk, None, Some};
ghost use Rattle.mw_wasm.specs.Validity.{results_of};
ghost use Rattle.mw_validate.specs.Checks.{closes as closes_here, pop as pop_here, pop_any as pop_any_here};
ghost use Rattle.mw_validate.specs.Checks.{pops as pops_here, push as push_here, pushes as pushes_here};
ghost use Rattle.mw_validate.specs.Checks.{joined as joined_here, opened, operands, may_be};
ghost use Rattle.mw_validate.specs.Lists.{operand_of, operands_of, Leaves};

use mw_wasm::ValType;
use std::alloc::{AllocError, Global};

/// The types of the operands above a label's height, none where it is unknown, and whether the label is dead.
#[derive(Drop)]
pub struct OperandList {
    pub items: Vec<Option<ValType>>,
    pub dead: bool,
}

/// No operands, above a label that is opened.
pub fn no_operands(alloc: Global) -> OperandList
    ensures { operands_of result ≡ opened }
{
    OperandList {
        items: Vec::new(alloc),
        dead: false,
    }
}

/// The last operand.
#[tactic(auto, using(crate::proofs::OperandLists::last_popped, crate::proofs::OperandLists::none_left, crate::proofs::OperandLists::unknown_left))]
pub fn pop_any(list: &mut OperandList) -> Option<Option<ValType>>
    ensures some { IfSome result
        (λ o. pop_any_here (operands_of list.old) ≡ Some (operand_of o, operands_of list.new)) }
    ensures none { IfNone result (pop_any_here (operands_of list.old) ≡ None) }
{
    match list.items.pop() {
        Some(o) => Some(o),
        None => { if list.dead { Some(None) } else { None } }
    }
}

fn may_be_one(t: ValType, operand: Option<ValType>) -> bool
    ensures { result ≡ may_be t (operand_of operand) }
{
    match operand {
        None => true,
        Some(u) => match t {
            ValType::I32 => match u {
                ValType::I32 => true,
                ValType::I64 => false,
            },
            ValType::I64 => match u {
                ValType::I32 => false,
                ValType::I64 => true,
            },
        },
    }
}

/// The last operand, which must be one of this type or unknown.
#[tactic(auto, using(crate::proofs::OperandLists::popped, crate::proofs::OperandLists::other_type, crate::proofs::OperandLists::no_operand))]
pub fn pop(list: &mut OperandList, t: ValType) -> bool
    ensures { Leaves result (pop_here t (operands_of list.old)) list.new }
{
    match pop_any(list) {
        None => false,
        Some(o) => may_be_one(t, o),
    }
}

/// The last operands, which must be of these types or unknown. At the height of a dead label all that are left are
/// unknown, so that nothing more is popped.
#[tactic(auto, using(crate::proofs::OperandLists::pop_laws))]
pub fn pops(list: &mut OperandList, types: &[ValType]) -> bool
    ensures { Leaves result (pops_here types.now (operands_of list.old)) list.new }
{
    let mut left = types.len();
    while left > 0 {
        if list.dead && list.items.is_empty() {
            return true;
        }
        left -= 1;
        if !pop(list, types[left]) {
            return false;
        }
    }
    true
}

/// An operand on top.
#[tactic(auto, using(crate::proofs::OperandLists::pushed))]
pub fn push(list: &mut OperandList, operand: Option<ValType>) -> Result<(), AllocError>
    ensures { IfOk result
        (λ _. operands_of list.new ≡ push_here (operand_of operand) (operands_of list.old)) }
{
    list.items.push(operand)?;
    Ok(())
}

/// Operands of these types, the last one on top.
#[tactic(auto, using(crate::proofs::OperandLists::pushes_one, crate::proofs::OperandLists::pushes_all))]
pub fn pushes(list: &mut OperandList, types: &[ValType]) -> Result<(), AllocError>
    ensures { IfOk result
        (λ _. operands_of list.new ≡ pushes_here types.now (operands_of list.old)) }
{
    for i in 0..types.len() {
        push(list, Some(types[i]))?;
    }
    Ok(())
}

/// One type that both operands may be: none where there is none.
pub fn join(a: Option<ValType>, b: Option<ValType>) -> Option<Option<ValType>>
    ensures some { IfSome result
        (λ t. joined_here (operand_of a) (operand_of b) ≡ Some (operand_of t)) }
    ensures none { IfNone result (joined_here (operand_of a) (operand_of b) ≡ None) }
{
    match a {
        None => Some(b),
        Some(t) => { if may_be_one(t, b) { Some(a) } else { None } }
    }
}

/// Whether a list that ends here gives these types, and leaves none else.
#[tactic(auto, using(crate::proofs::OperandLists::closed, crate::proofs::OperandLists::too_many, crate::proofs::OperandLists::not_popped))]
pub fn closes(list: &mut OperandList, types: &[ValType]) -> bool
    ensures { result ≡ closes_here types.now (Some (operands_of list.old)) }
{
    if !pops(list, types) {
        return false;
    }
    list.items.is_empty()
}
