// Runs and calls, by tables.

ghost use Rattle.std.specs.Prelude.{◌≡◌, IfOk, IfSome};
ghost use Rattle.mw_term.specs.declared.term.Base.TheVariants.{Int};
ghost use Rattle.mw_term.specs.Terms.{base as base_type};

use crate::kernel::modules::{Init, built};
use mw_kernel::{Began, RunFault, Running};
use mw_machine::Ran;
use mw_term::{Base, BaseValue, Ground, GroundValue, KType, copied_ground};
use std::alloc::{AllocError, Global};
use std::process::Abort;

/// Pairs of pairs of a base type, so many deep.
fn pairs(alloc: Global, base: Base, depth: u32) -> Result<Ground, AllocError> {
    let mut ground = Ground::Base(base);
    for _ in 0..depth {
        let copy = copied_ground(alloc, &ground)?;
        ground = Ground::Pair(Box::new(alloc, ground)?, Box::new(alloc, copy)?);
    }
    Ok(ground)
}

/// A run at a ground type, as text.
fn started(alloc: Global, init: Init, ground: Ground, fuel: u64) -> Result<String, AllocError> {
    let wasm = built(alloc, init)?;
    let kind = KType::Ground(ground);
    match Running::start(alloc, &wasm, &kind, fuel) {
        Ok(Began::Value(value, left)) => format!(in alloc; "{value:?} {left}"),
        Ok(Began::Function(_, _)) => format!(in alloc; "Function"),
        Ok(Began::Trap(trap)) => format!(in alloc; "{trap:?}"),
        Ok(Began::Bound(limit)) => format!(in alloc; "{limit:?}"),
        Err(fault) => format!(in alloc; "{fault:?}"),
    }
}

/// The function of a run at functions of integers, with the units left.
fn kept(alloc: Global, init: Init, fuel: u64) -> Result<Option<(Running, u64)>, AllocError>
    ensures { IfOk result (λ o. IfSome o (λ kept. kept.0.argument ≡ base_type Int)) }
{
    let wasm = built(alloc, init)?;
    let kind = KType::Fun(Ground::Base(Base::Int), Ground::Base(Base::Int));
    match Running::start(alloc, &wasm, &kind, fuel) {
        Ok(Began::Function(running, left)) => Ok(Some((running, left))),
        _ => Ok(None),
    }
}

/// A call with an integer, as text.
fn called(alloc: Global, running: &mut Running, n: i64, fuel: u64) -> Result<String, AllocError>
    requires { running.old.argument ≡ base_type Int }
    ensures { running.new.argument ≡ running.old.argument }
{
    let argument = GroundValue::Base(BaseValue::Int(n));
    match running.call(alloc, &argument, fuel) {
        Ok(ran) => format!(in alloc; "{ran:?}"),
        Err(fault) => format!(in alloc; "{fault:?}"),
    }
}

const EIGHT: &str =
    "Pair(Pair(Pair(Base(Int(32)), Base(Int(32))), Pair(Base(Int(32)), Base(Int(32)))), \
    Pair(Pair(Base(Int(32)), Base(Int(32))), Pair(Base(Int(32)), Base(Int(32))))) 0";

/// What `init` gives, the base type of pairs and how deep they are, the units of fuel, and how the run begins.
const STARTS: &[(Init, Base, u32, u64, &str)] = &[
    (Init::Word(7), Base::Int, 0, 5, "Base(Int(7)) 5"),
    (Init::Word(2), Base::Int, 0, 0, "Base(Int(2)) 0"),
    (Init::Word(2), Base::Bool, 0, 0, "Bad"),
    (Init::Word(1), Base::Bool, 0, 0, "Base(Bool(true)) 0"),
    (Init::Word(0), Base::Bool, 0, 0, "Base(Bool(false)) 0"),
    (
        Init::Word(18_446_744_073_709_551_615),
        Base::Int,
        0,
        0,
        "Base(Int(-1)) 0",
    ),
    (
        Init::Word(16),
        Base::Int,
        1,
        0,
        "Pair(Base(Int(1)), Base(Int(2))) 0",
    ),
    (
        Init::Word(65_520),
        Base::Int,
        1,
        0,
        "Pair(Base(Int(3)), Base(Int(0))) 0",
    ),
    (Init::Word(65_521), Base::Int, 1, 0, "Bad"),
    (
        Init::Word(18_446_744_073_709_551_615),
        Base::Int,
        1,
        0,
        "Bad",
    ),
    (Init::Word(16), Base::Bool, 1, 0, "Bad"),
    // A pair whose parts are the pair itself.
    (Init::Word(32), Base::Int, 3, 0, EIGHT),
    (Init::Unreachable, Base::Int, 0, 1, "Bad"),
    (Init::Divide, Base::Int, 0, 1, "Divide"),
    (Init::Overflow, Base::Int, 0, 1, "Overflow"),
    (Init::Store, Base::Int, 0, 1, "Heap"),
];

/// How a run at pairs begins, as text.
fn started_at(
    alloc: Global,
    init: Init,
    base: Base,
    depth: u32,
    fuel: u64,
) -> Result<String, AllocError> {
    let ground = pairs(alloc, base, depth)?;
    started(alloc, init, ground, fuel)
}

#[test]
fn starts(rt: HostRuntime) -> Result<(), AllocError> {
    for &(init, base, depth, fuel, text) in STARTS {
        let found = started_at(rt.alloc(), init, base, depth, fuel)?;
        assert_eq!(rt; found.as_str(), text, "{init:?}");
    }
    Ok(())
}

/// Arguments, the units of fuel of their calls, and what is answered. The function's word is 40, and each call adds it
/// and its argument to what the one before left.
const CALLS: &[(i64, u64, &str)] = &[
    (2, 1, "Value(Base(Int(42)), 0)"),
    (5, 9, "Value(Base(Int(87)), 8)"),
    (-127, 1, "Value(Base(Int(0)), 0)"),
    (1, 0, "Bound(Fuel)"),
    // After the units were spent, the next call begins with a new instance.
    (3, 1, "Value(Base(Int(43)), 0)"),
];

fn assert_calls<R: Abort + AllocGlobal>(rt: &R, running: &mut Running) -> Result<(), AllocError>
    requires { running.old.argument ≡ base_type Int }
{
    for &(n, fuel, text) in CALLS {
        let found = called(rt.alloc(), running, n, fuel)?;
        assert_eq!(rt; found.as_str(), text, "{n}");
    }
    Ok(())
}

#[test]
fn calls(rt: HostRuntime) -> Result<(), AllocError> {
    let Some((mut running, left)) = kept(rt.alloc(), Init::Word(40), 3)? else {
        assert!(rt; false, "a function is kept");
        return Ok(());
    };
    assert_eq!(rt; left, 3);
    assert_calls(&rt, &mut running)
}
