// What code in a function may speak of.

ghost use Rattle.std.specs.Prelude.{◌≡◌, slice_get, IfSome, IfNone, Some, None};
ghost use Rattle.mw_validate.specs.Frames.{label_of};
ghost use Rattle.mw_validate.specs.Turns.{waiting_of, context_in, labels_at};
ghost use Rattle.mw_validate.specs.Looking.{type_of_function};

use crate::frames::{Frame, Kind, types_of};
use mw_wasm::{FuncType, Module, ValType};

/// The module, and of the function its parameters, its further locals and its results.
#[derive(Clone, Copy)]
pub struct Surroundings<'m> {
    pub wasm: &'m Module,
    pub params: &'m [ValType],
    pub locals: &'m [ValType],
    pub results: &'m [ValType],
}

/// The type of a parameter or, behind the parameters, of a further local.
#[tactic(auto, using(crate::proofs::Labels::first_list, crate::proofs::Labels::second_list, crate::proofs::Labels::past_both))]
pub fn local(within: &Surroundings<'_>, x: u32) -> Option<ValType>
    ensures { result ≡ slice_get (context_in within.now).locals x }
{
    let x = x as usize;
    let first = within.params.len();
    if x < first {
        Some(within.params[x])
    } else if x - first < within.locals.len() {
        Some(within.locals[x - first])
    } else {
        None
    }
}

/// The type of a global, and whether it can be written.
pub fn global(within: &Surroundings<'_>, x: u32) -> Option<(ValType, bool)>
    ensures { result ≡ slice_get (context_in within.now).globals x }
{
    let globals = within.wasm.globals.as_slice();
    if (x as usize) < globals.len() {
        let found = &globals[x as usize];
        Some((found.kind, found.variable))
    } else {
        None
    }
}

/// The type of this index.
pub fn type_at<'m>(within: &Surroundings<'m>, k: u32) -> Option<&'m FuncType>
    ensures some { IfSome result (λ t. slice_get (context_in within.now).types k ≡ Some t.now) }
    ensures none { IfNone result (slice_get (context_in within.now).types k ≡ None) }
{
    let types = within.wasm.types.as_slice();
    if (k as usize) < types.len() {
        Some(&types[k as usize])
    } else {
        None
    }
}

/// The index of a function's type.
pub fn kind_of(within: &Surroundings<'_>, f: u32) -> Option<u32>
    ensures { result ≡ slice_get (context_in within.now).funcs f }
{
    let funcs = within.wasm.funcs.as_slice();
    if (f as usize) < funcs.len() {
        Some(funcs[f as usize].kind)
    } else {
        None
    }
}

/// A function's type.
pub fn type_of<'m>(within: &Surroundings<'m>, f: u32) -> Option<&'m FuncType>
    ensures some { IfSome result (λ t. type_of_function (context_in within.now) f ≡ Some t.now) }
    ensures none { IfNone result (type_of_function (context_in within.now) f ≡ None) }
{
    match kind_of(within, f) {
        None => None,
        Some(k) => type_at(within, k),
    }
}

/// The types that a branch to the label of a list takes.
fn label_of_frame(frame: &Frame<'_>) -> &'static [ValType]
    ensures { result.now ≡ label_of (waiting_of frame.now) }
{
    match frame.kind {
        Kind::Loop => &[],
        Kind::Block => types_of(frame.result),
        Kind::First(_) => types_of(frame.result),
    }
}

/// The types that a branch to a label takes.
#[tactic(auto, using(crate::proofs::Labels::inner_label, crate::proofs::Labels::last_label, crate::proofs::Labels::no_label))]
pub fn label<'m>(within: &Surroundings<'m>, frames: &[Frame<'m>], l: u32) -> Option<&'m [ValType]>
    ensures some { IfSome result
        (λ ts. slice_get (labels_at within.now frames.now) l ≡ Some ts.now) }
    ensures none { IfNone result (slice_get (labels_at within.now frames.now) l ≡ None) }
{
    let depth = frames.len();
    let l = l as usize;
    if l < depth {
        Some(label_of_frame(&frames[depth - 1 - l]))
    } else if l == depth {
        Some(within.results)
    } else {
        None
    }
}
