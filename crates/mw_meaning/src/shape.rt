// The shape of a module that a run at a kernel type needs.

ghost use Rattle.std.specs.Prelude.{◌≡◌, ℕ, ◌+◌, ◌*◌, ◌<◌, ◌↔◌, [], ◌∷◌, length, map, replicate, nat_eq, nat_le, codes};
ghost use Rattle.std.specs.Prelude.{Option, IsTrue, MatchBool, MatchOption, is_ok};
ghost use Rattle.std.specs.Option.{option_or};
ghost use Rattle.std.specs.List.{list_all};
ghost use Rattle.std.specs.Cmp.Lexicographic.{pointwise};
ghost use Rattle.mw_term.specs.Terms.{ground_of, kernel_type_of};
ghost use Rattle.mw_wasm.specs.declared.values.ValType.TheVariants.{I64};
ghost use Rattle.mw_wasm.specs.declared.modules.FuncType.{FuncType};
ghost use Rattle.mw_wasm.specs.Instances.{exported_among, function_or, instantiated};
ghost use Rattle.mw_wasm.specs.Instances.{first_table, first_memory, offset_of};
ghost use Rattle.mw_wasm.specs.Views.{code_of, export_of, module_of};
ghost use Rattle.mw_meaning.specs.Shapes.{leaf_count, init_type, call_type, Exports, HasCall, HasShape};
ghost use Rattle.mw_meaning.specs.Fitting.{element_ends_in, segment_ends_in};

use mw_term::{Ground, KType};
use mw_wasm::{Element, Export, Exported, FuncType, Instr, Instrs, Module, Segment, ValType};

/// The bytes of a page of memory.
const PAGE: u64 = 65_536;

/// Whether a module has the shape that a run at a kernel type needs: the exports `init`, without parameters, and for a
/// function type `call`, whose parameters are an i64 for the function and one for each leaf of an argument, with one
/// i64 as the result of each; a memory; and segments that fit. The module need not be valid. Takes no memory.
pub fn has_shape(wasm: &Module, kind: &KType) -> bool
    ensures { let shaped = HasShape (module_of wasm.now) (kernel_type_of kind.now) in
        MatchBool result shaped (shaped → ⊥) }
{
    exports_init(wasm) && has_call(wasm, kind) && wasm.memory.is_some() && segments_fit(wasm)
}

/// Whether `init` is exported, as a function of its type.
fn exports_init(wasm: &Module) -> bool
    ensures { let exports = Exports (module_of wasm.now) (codes "init") init_type in
        MatchBool result exports (exports → ⊥) }
{
    match exported_type(wasm, b"init") {
        Some(kind) => is_init_type(kind),
        None => false,
    }
}

/// Whether `call` is exported, as a function of its type for an argument.
fn exports_call(wasm: &Module, argument: &Ground) -> bool
    ensures { let exports =
        Exports (module_of wasm.now) (codes "call") (call_type (ground_of argument.now)) in
        MatchBool result exports (exports → ⊥) }
{
    match exported_type(wasm, b"call") {
        Some(kind) => is_call_type(kind, argument),
        None => false,
    }
}

/// Whether the module has the `call` that the kernel type needs, if any.
fn has_call(wasm: &Module, kind: &KType) -> bool
    ensures { let has = HasCall (module_of wasm.now) (kernel_type_of kind.now) in
        MatchBool result has (has → ⊥) }
{
    match kind {
        KType::Ground(_) => true,
        KType::Fun(argument, _) => exports_call(wasm, argument),
    }
}

/// Whether this is the type of `init`.
fn is_init_type(kind: &FuncType) -> bool
    ensures { IsTrue result ↔ (kind.now ≡ init_type) }
{
    kind.params.len() == 0 && gives_word(kind)
}

/// Whether this is the type of `call` for an argument.
fn is_call_type(kind: &FuncType, argument: &Ground) -> bool
    ensures { IsTrue result ↔ (kind.now ≡ call_type (ground_of argument.now)) }
{
    gives_word(kind)
        && are_words(kind.params.as_slice())
        && matches!(past_leaves(kind.params.len(), argument), Some(1))
}

/// Whether the results are one i64.
fn gives_word(kind: &FuncType) -> bool
    ensures { IsTrue result ↔ (kind.now.results ≡ I64 ∷ []) }
{
    kind.results.len() == 1 && are_words(kind.results.as_slice())
}

/// Whether all types are i64.
fn are_words(types: &[ValType]) -> bool
    ensures { IsTrue result ↔ (types.now ≡ replicate (length types.now) I64) }
{
    for kind in types {
        match kind {
            ValType::I64 => {}
            ValType::I32 => return false,
        }
    }
    true
}

/// How many are left of a count without one for each leaf of a type, or `None` where it has more leaves.
fn past_leaves(count: usize, kind: &Ground) -> Option<usize>
    ensures { let leaves = leaf_count (ground_of kind.now) in
        MatchOption result (count < leaves) (λ left. count ≡ leaves + left) }
{
    match kind {
        Ground::Base(_) => count.checked_sub(1),
        Ground::Pair(first, second) => match past_leaves(count, first) {
            Some(left) => past_leaves(left, second),
            None => None,
        },
    }
}

/// The type of the first function that is exported under a name, where function and type are there.
fn exported_type<'a>(wasm: &'a Module, name: &[u8]) -> Option<&'a FuncType>
    ensures { let none = (t : FuncType) → Exports (module_of wasm.now) name.now t → ⊥ in
        MatchOption result none (λ t. Exports (module_of wasm.now) name.now t.now) }
{
    let index = function_index(wasm.exports.as_slice(), name)?;
    let function = wasm.funcs.as_slice().get(index as usize)?;
    wasm.types.as_slice().get(function.kind as usize)
}

/// The index of the first function that is exported under a name.
fn function_index(exports: &[Export], name: &[u8]) -> Option<u32>
    ensures { result ≡ exported_among name.now (map export_of exports.now) }
{
    for export in exports {
        if let Some(index) = function_under(export, name) {
            return Some(index);
        }
    }
    None
}

/// The index of the function that an export gives, where this is its name.
fn function_under(export: &Export, name: &[u8]) -> Option<u32>
    ensures { (other : Option ℕ) → let named = pointwise nat_eq export.now.name name.now in
        function_or named export.now.what other ≡ option_or result other }
{
    match export.what {
        Exported::Func(index) => {
            if export.name.as_slice() == name {
                Some(index)
            } else {
                None
            }
        }
        Exported::Table(_) | Exported::Memory(_) | Exported::Global(_) => None,
    }
}

/// Whether all segments of a module fit, so that it has an instance.
fn segments_fit(wasm: &Module) -> bool
    ensures { result ≡ is_ok (instantiated (module_of wasm.now)) }
{
    let elements = wasm.elements.as_slice();
    let segments = wasm.segments.as_slice();
    all_elements_fit(elements, table_size(wasm)) && all_segments_fit(segments, memory_size(wasm))
}

/// Whether all element segments fit a table of so many elements.
fn all_elements_fit(elements: &[Element], size: u64) -> bool
    ensures { result ≡ list_all (element_ends_in size) elements.now }
{
    elements.iter().all(|element| ends_in(offset(&element.offset), element.funcs.len(), size))
}

/// Whether all data segments fit a memory of so many bytes.
fn all_segments_fit(segments: &[Segment], size: u64) -> bool
    ensures { result ≡ list_all (segment_ends_in size) segments.now }
{
    segments.iter().all(|segment| ends_in(offset(&segment.offset), segment.bytes.len(), size))
}

/// The elements of a module's table.
fn table_size(wasm: &Module) -> u64
    ensures { result ≡ length (first_table wasm.now.table) }
{
    match wasm.table {
        None => 0,
        Some(limits) => limits.min as u64,
    }
}

/// The bytes of a module's memory.
fn memory_size(wasm: &Module) -> u64
    ensures { result ≡ (first_memory wasm.now.memory).pages * 65536 }
{
    match wasm.memory {
        None => 0,
        Some(limits) => limits.min as u64 * PAGE,
    }
}

/// The bits of an expression that is one constant, and 0 for any other expression.
#[tactic(auto, using(crate::proofs::Shapes::offset_laws))]
fn offset(code: &Instrs) -> u64
    ensures { result ≡ offset_of (code_of code.now) }
{
    if code.len() != 1 {
        return 0;
    }
    match code.get(0) {
        Instr::ConstI32(bits) => *bits as u64,
        Instr::ConstI64(bits) => *bits,
        _ => 0,
    }
}

/// Whether so many items from an offset on end inside of a size.
fn ends_in(offset: u64, count: usize, size: u64) -> bool
    ensures { result ≡ nat_le (offset + count) size }
{
    count as u64 <= size && offset <= size - count as u64
}
