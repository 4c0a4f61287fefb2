// Functions.

ghost use Rattle.std.specs.Prelude.{IfOk};
ghost use Rattle.mw_wasm.specs.Views.{module_of, function_of};
ghost use Rattle.mw_validate.specs.Checks.{PassesBody};
ghost use Rattle.mw_validate.specs.Deciding.{NoneWhere, FirstFailing};

use crate::context::Surroundings;
use crate::turn::first_failing;
use mw_wasm::{Func, Module};
use std::alloc::{AllocError, Global};

/// None where a function's type is there and its body gives the type's results; else the index of an instruction.
#[tactic(auto, using(crate::proofs::Outcomes::placed))]
fn failing_instruction(
    alloc: Global,
    wasm: &Module,
    function: &Func,
) -> Result<Option<u32>, AllocError>
    ensures { IfOk result
        (λ at. NoneWhere at (PassesBody (module_of wasm.now) (function_of function.now))) }
{
    let types = wasm.types.as_slice();
    if function.kind as usize >= types.len() {
        return Ok(Some(0));
    }
    let t = &types[function.kind as usize];
    let within = Surroundings {
        wasm,
        params: t.params.as_slice(),
        locals: function.locals.as_slice(),
        results: t.results.as_slice(),
    };
    first_failing(alloc, &within, &function.body)
}

/// The first function that doesn't pass, and the index of an instruction in it.
#[tactic(auto, using(crate::proofs::AllElements::element_laws))]
pub fn first_failing_function(
    alloc: Global,
    wasm: &Module,
    functions: &[Func],
) -> Result<Option<(usize, u32)>, AllocError>
    ensures { IfOk result
        (λ at. FirstFailing (λ f. PassesBody (module_of wasm.now) (function_of f)) functions.now at) }
{
    for i in 0..functions.len() {
        match failing_instruction(alloc, wasm, &functions[i]) {
            Err(e) => return Err(e),
            Ok(None) => {}
            Ok(Some(instr)) => return Ok(Some((i, instr))),
        }
    }
    Ok(None)
}
