// Which segments fit.

ghost use Rattle.std.specs.Prelude.{◌≡◌, ◌*◌, length, position, IfSome, IfNone};
ghost use Rattle.std.specs.List.{AllByRecursion};
ghost use Rattle.mw_wasm.specs.declared.values.ValType.TheVariants.{I32};
ghost use Rattle.mw_wasm.specs.Instances.{first_table, first_memory};
ghost use Rattle.mw_wasm.specs.Views.{code_of};
ghost use Rattle.mw_wasm.specs.Validity.{IsConstantOf};
ghost use Rattle.mw_validate.specs.Kept.{IsKept};
ghost use Rattle.mw_exec.specs.Instancing.{Refuses};
ghost use Rattle.mw_exec.specs.Fitting.{offset_number, ends_in, element_test, segment_test, AllFit, HasElementOffset};
ghost use Rattle.mw_exec.specs.Fitting.{HasSegmentOffset};

use crate::ended::InstanceFault;
use mw_wasm::{Element, Instr, Instrs, Module, Segment};

/// The bytes of a page of memory.
const PAGE: u64 = 65_536;

/// The first segment of a valid module that doesn't fit, elements first.
#[tactic(auto, using(crate::proofs::Beginnings::fault_laws))]
pub fn first_fault(wasm: &Module) -> Option<InstanceFault>
    requires kept { IsKept wasm.now }
    ensures some { IfSome result (λ fault. Refuses fault wasm.now) }
    ensures none { IfNone result (AllFit wasm.now) }
{
    let size = table_size(wasm);
    if let Some(at) = first_unfit_element(wasm.elements.as_slice(), size) {
        return Some(InstanceFault::Element(at as u32));
    }
    let bytes = memory_size(wasm);
    let at = first_unfit_segment(wasm.segments.as_slice(), bytes)?;
    Some(InstanceFault::Segment(at as u32))
}

/// The elements of a module's table.
fn table_size(wasm: &Module) -> u64
    ensures { result ≡ length (first_table wasm.now.table) }
{
    match wasm.table {
        None => 0,
        Some(limits) => limits.min as u64,
    }
}

/// The bytes of a module's memory.
pub fn memory_size(wasm: &Module) -> u64
    ensures { result ≡ (first_memory wasm.now.memory).pages * 65536 }
{
    match wasm.memory {
        None => 0,
        Some(limits) => limits.min as u64 * PAGE,
    }
}

/// The value of a constant expression of type i32.
#[tactic(auto, using(crate::proofs::Offsets::only_constants))]
pub fn offset_of(code: &Instrs) -> u32
    requires { IsConstantOf I32 (code_of code.now) }
    ensures { result ≡ offset_number (code_of code.now) }
{
    match code.get(0) {
        Instr::ConstI32(n) => *n,
        _ => unreachable!(),
    }
}

/// Whether so many items from an offset on end inside of a size.
fn fits(offset: u32, count: usize, size: u64) -> bool
    ensures { result ≡ ends_in offset count size }
{
    count as u64 <= size && offset as u64 <= size - count as u64
}

/// The first element segment that doesn't fit a table of a size.
#[tactic(auto, using(crate::proofs::Beginnings::unfit_laws))]
pub fn first_unfit_element(elements: &[Element], size: u64) -> Option<usize>
    requires { AllByRecursion HasElementOffset elements.now }
    ensures { result ≡ position (element_test size) elements.now }
{
    let mut at = 0;
    while at < elements.len() {
        let element = &elements[at];
        if !fits(offset_of(&element.offset), element.funcs.len(), size) {
            return Some(at);
        }
        at += 1;
    }
    None
}

/// The first data segment that doesn't fit a memory of a size in bytes.
#[tactic(auto, using(crate::proofs::Beginnings::unfit_laws))]
pub fn first_unfit_segment(segments: &[Segment], size: u64) -> Option<usize>
    requires { AllByRecursion HasSegmentOffset segments.now }
    ensures { result ≡ position (segment_test size) segments.now }
{
    let mut at = 0;
    while at < segments.len() {
        let segment = &segments[at];
        if !fits(offset_of(&segment.offset), segment.bytes.len(), size) {
            return Some(at);
        }
        at += 1;
    }
    None
}
