// Invocations.

ghost use Rattle.std.specs.Prelude.{◌≡◌, ◌≤◌, ◌∷◌, ◌++◌, [], Some, List, length, map, IfOk, slice_get};
ghost use Rattle.mw_wasm.specs.NumericTypes.{type_of_value};
ghost use Rattle.mw_wasm.specs.Instances.{invoked};
ghost use Rattle.mw_wasm.specs.Validity.{IsValid};
ghost use Rattle.mw_wasm.specs.Views.{module_of};
ghost use Rattle.mw_wasm.specs.StateTypes.{StoreIsTyped};
ghost use Rattle.mw_exec.specs.Lists.{above};
ghost use Rattle.mw_exec.specs.Views.{store_of, IsHeld};
ghost use Rattle.mw_exec.specs.Invoking.{CanRun, IsBeginning, IsInvocation};
ghost use Rattle.mw_exec.specs.Instancing.{EndsAs};

use crate::calls::{gives_one, push_locals};
use crate::ended::Ended;
use crate::held::Contents;
use crate::machine::run;
use crate::operands::pop;
use crate::state::{Kind, State, Turn, Waiting};
use mw_wasm::{Func, FuncType, Module, Value};
use std::alloc::{AllocError, Global};

/// The last operand.
pub fn last_operand(stack: &mut Vec<Value>, height: usize) -> Option<Value>
    ensures { result ≡ slice_get (above height stack.old.items) 0 }
{
    if height <= stack.len() {
        pop(stack, height)
    } else {
        None
    }
}

/// The state in which an invocation begins: the body in its frame, with the arguments and then zeros as its locals.
pub fn begin<'m>(
    alloc: Global,
    function: &'m Func,
    kind: &'m FuncType,
    args: &[Value],
    fuel: u64,
) -> Result<State<'m>, AllocError>
    requires { length kind.now.results ≤ 1 }
    ensures { IfOk result (λ s. IsBeginning function.now kind.now args.now fuel s) }
{
    let body = function.body.as_slice();
    let mut locals = Vec::new(alloc);
    push_locals(&mut locals, args, function.locals.as_slice())?;
    let mut waiting = Vec::new(alloc);
    waiting.push(Waiting {
        kind: Kind::Frame(gives_one(kind), 0),
        code: body,
        at: body.len(),
        height: 0,
    })?;
    Ok(State {
        stack: Vec::new(alloc),
        height: 0,
        locals,
        base: 0,
        code: body,
        at: 0,
        waiting,
        fuel,
    })
}

/// The same of the function of an index, with arguments of its types.
#[tactic(auto, using(crate::proofs::InvokeRules::few_results, crate::proofs::CallRules::all_at))]
fn begin_at<'m>(
    alloc: Global,
    wasm: &'m Module,
    f: u32,
    args: &[Value],
    fuel: u64,
) -> Result<State<'m>, AllocError>
    requires valid { IsValid (module_of wasm.now) }
    requires can { CanRun wasm.now f args.now }
    ensures { IfOk result (λ s. IsInvocation wasm.now f args.now fuel s) }
{
    let function = wasm.funcs.get(f as usize);
    let kind = wasm.types.get(function.kind as usize);
    begin(alloc, function, kind, args, fuel)
}

/// The invocation of a function of a valid module with arguments of its types.
#[tactic(auto, using(crate::proofs::InvokeRules::invoke_laws))]
pub fn invoke_function(
    alloc: Global,
    wasm: &Module,
    held: &mut Contents,
    f: u32,
    args: &[Value],
    fuel: u64,
) -> Result<Ended, AllocError>
    requires valid { IsValid (module_of wasm.now) }
    requires held { IsHeld held.old }
    requires typed { StoreIsTyped (module_of wasm.now) (store_of held.old) }
    requires can { CanRun wasm.now f args.now }
    ensures ends { IfOk result
        (λ end. EndsAs end (store_of held.new) (invoked (module_of wasm.now) (store_of held.old) f args.now fuel)) }
    ensures held { IsHeld held.new }
    ensures typed { StoreIsTyped (module_of wasm.now) (store_of held.new) }
{
    let mut state = begin_at(alloc, wasm, f, args, fuel)?;
    match run(wasm, &mut state, held)? {
        Turn::Done => {
            let height = state.height;
            Ok(Ended::Ended(last_operand(&mut state.stack, height), state.fuel))
        }
        Turn::Trap(trap) => Ok(Ended::Trapped(trap)),
        Turn::Spent => Ok(Ended::Spent),
        Turn::Lost => unreachable!(),
        Turn::On => unreachable!(),
    }
}
