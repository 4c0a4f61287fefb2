// The function `call`, which applies a kept function to an argument given by its leaves.

ghost use Rattle.std.specs.Prelude.{◌≡◌, ◌+◌, ◌<◌, ◌≤◌, IfOk};
ghost use Rattle.mw_term.specs.Terms.{ground_of};
ghost use Rattle.mw_term.specs.Limits.{ground_nodes};
ghost use Rattle.mw_meaning.specs.Shapes.{leaf_count};
ghost use Rattle.mw_wasm.specs.Views.{code_of, function_of};
ghost use Rattle.mw_gen.specs.Generate.{argument_of, call_function as call_with, call_of};
ghost use Rattle.mw_gen.specs.Listing.{Appends, code_list};

use crate::parts::{put_application, put_pair};
use mw_term::Ground;
use mw_wasm::{Func, Instr, Instrs, ValType, ValTypes};
use std::alloc::{AllocError, Global};

/// How many leaves a ground type has.
pub fn leaves(kind: &Ground) -> u32
    requires { ground_nodes (ground_of kind.now) ≤ 10000 }
    ensures count { result ≡ leaf_count (ground_of kind.now) }
    ensures few { result ≤ ground_nodes (ground_of kind.now) }
{
    match kind {
        Ground::Base(_) => 1,
        Ground::Pair(first, second) => leaves(first) + leaves(second),
    }
}

/// Appends the code that makes an argument of its leaves, which stand in the locals from `first` on. It gives the local
/// after them.
fn put_argument(out: &mut Instrs, kind: &Ground, first: u32, spare: u32) -> Result<u32, AllocError>
    requires nodes { first + ground_nodes (ground_of kind.now) ≤ 20000 }
    requires spare { spare < 1000000000 }
    ensures code { IfOk result
        (λ _. Appends out.old out.new (code_list (argument_of (ground_of kind.now) first) 0 spare)) }
    ensures next { IfOk result (λ next. next ≡ first + leaf_count (ground_of kind.now)) }
    ensures few { IfOk result (λ next. next ≤ first + ground_nodes (ground_of kind.now)) }
{
    match kind {
        Ground::Base(_) => {
            out.push(Instr::LocalGet(first))?;
            Ok(first + 1)
        }
        Ground::Pair(left, right) => {
            let middle = put_argument(out, left, first, spare)?;
            let next = put_argument(out, right, middle, spare)?;
            put_pair(out, spare)?;
            Ok(next)
        }
    }
}

/// Appends the application of the closure in local 0 to the argument whose leaves follow it.
fn put_call(out: &mut Instrs, kind: &Ground, spare: u32) -> Result<(), AllocError>
    requires nodes { ground_nodes (ground_of kind.now) ≤ 10000 }
    requires spare { spare < 1000000000 }
    ensures { IfOk result
        (λ _. Appends out.old out.new (code_list (call_of (ground_of kind.now)) 0 spare)) }
{
    out.push(Instr::LocalGet(0))?;
    let _next = put_argument(out, kind, 1, spare)?;
    put_application(out, spare)
}

/// The body of `call`: it keeps the heap's end in a local, and gives it back after the application.
fn call_body(alloc: Global, kind: &Ground) -> Result<Instrs, AllocError>
    requires { ground_nodes (ground_of kind.now) ≤ 10000 }
    ensures { IfOk result (λ r. code_of r ≡ (call_with (ground_of kind.now)).body) }
{
    let count = leaves(kind);
    let mut body = Instrs::new(alloc);
    body.push(Instr::GlobalGet(0))?;
    body.push(Instr::LocalSet(count + 3))?;
    put_call(&mut body, kind, count + 1)?;
    body.push(Instr::LocalGet(count + 3))?;
    body.push(Instr::GlobalSet(0))?;
    Ok(body)
}

/// The function `call` for arguments of a ground type.
pub fn call_function(alloc: Global, kind: &Ground) -> Result<Func, AllocError>
    requires { ground_nodes (ground_of kind.now) ≤ 10000 }
    ensures { IfOk result (λ r. function_of r ≡ call_with (ground_of kind.now)) }
{
    let mut locals = ValTypes::new(alloc);
    locals.push(ValType::I64)?;
    locals.push(ValType::I64)?;
    locals.push(ValType::I32)?;
    Ok(Func {
        kind: 2,
        locals,
        body: call_body(alloc, kind)?,
    })
}
