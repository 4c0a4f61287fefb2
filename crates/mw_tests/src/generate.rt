// Generated modules whose bytes are known.

ghost use Rattle.std.specs.Prelude.{◌≡◌, ◌≤◌, [], IfOk};
ghost use Rattle.mw_ir.specs.declared.place.Place.TheVariants.{Slot};
ghost use Rattle.mw_ir.specs.Ir.{bind, closure, get};
ghost use Rattle.mw_ir.specs.Ranges.{IsConverted};
ghost use Rattle.mw_ir.specs.Views.{ir_of};
ghost use Rattle.mw_term.specs.Limits.{kernel_nodes};
ghost use Rattle.mw_term.specs.Terms.{kernel_type_of};
ghost use Rattle.mw_gen.specs.Examples.{down_code, next_step};
ghost use Rattle.mw_gen.specs.Generated.{functions_in, outer_in};

use mw_encode::encode;
use mw_gen::{Part, generate, generate_part};
use mw_ir::{Converted, Ir, IrFunc, IrFuncs, Place, Places};
use mw_term::{Base, Ground, KType, Prim};
use std::alloc::{AllocError, Global};
use std::process::Abort;

/// `7`, converted.
fn seven(alloc: Global) -> Converted
    ensures { IsConverted (functions_in result) (outer_in result) }
{
    Converted {
        funcs: IrFuncs::new(alloc),
        body: IrFunc {
            free: 0,
            slots: 0,
            body: Ir::Int(7),
        },
    }
}

/// The bytes of 7 at `int`.
fn bytes_of_seven(alloc: Global) -> Result<Vec<u8>, AllocError> {
    let converted = seven(alloc);
    let module = generate(alloc, &converted, &KType::Ground(Ground::Base(Base::Int)))?;
    encode(alloc, &module)
}

const SEVEN: &[u8] = &[
    0x00, 0x61, 0x73, 0x6d, 0x01, 0x00, 0x00, 0x00, 0x01, 0x0b, 0x02, 0x60, 0x02, 0x7e, 0x7e, 0x01,
    0x7e, 0x60, 0x00, 0x01, 0x7e, 0x03, 0x02, 0x01, 0x01, 0x04, 0x05, 0x01, 0x70, 0x01, 0x00, 0x00,
    0x05, 0x04, 0x01, 0x01, 0x40, 0x40, 0x06, 0x06, 0x01, 0x7f, 0x01, 0x41, 0x00, 0x0b, 0x07, 0x08,
    0x01, 0x04, 0x69, 0x6e, 0x69, 0x74, 0x00, 0x00, 0x0a, 0x06, 0x01, 0x04, 0x00, 0x42, 0x07, 0x0b,
];

/// `f (n - 1)` in a recursive function `f` of `n`.
fn next_call(alloc: Global) -> Result<Ir, AllocError>
    ensures { IfOk result (λ code. ir_of code ≡ next_step) }
{
    let argument = Box::new(alloc, Ir::Get(Place::Argument))?;
    let less = Ir::Prim(Prim::Sub, argument, Box::new(alloc, Ir::Int(1))?);
    let own = Box::new(alloc, Ir::Get(Place::Own))?;
    Ok(Ir::App(own, Box::new(alloc, less)?))
}

/// `if n = 0 then 0 else f (n - 1)`.
fn down_body(alloc: Global) -> Result<Ir, AllocError>
    ensures { IfOk result (λ code. ir_of code ≡ down_code) }
{
    let argument = Box::new(alloc, Ir::Get(Place::Argument))?;
    let test = Ir::Prim(Prim::Eq, argument, Box::new(alloc, Ir::Int(0))?);
    let then = Box::new(alloc, Ir::Int(0))?;
    let otherwise = Box::new(alloc, next_call(alloc)?)?;
    Ok(Ir::If(Box::new(alloc, test)?, then, otherwise))
}

/// The closure of function 0 in a let, and its name.
fn closure_let(alloc: Global) -> Result<Ir, AllocError>
    ensures { IfOk result (λ code. ir_of code ≡ bind 0 (closure 0 []) (get (Slot 0))) }
{
    let closure = Box::new(alloc, Ir::Closure(0, Places::new(alloc)))?;
    Ok(Ir::Let(0, closure, Box::new(alloc, Ir::Get(Place::Slot(0)))?))
}

/// `let rec f n = if n = 0 then 0 else f (n - 1) in f`, converted.
fn down(alloc: Global) -> Result<Converted, AllocError>
    ensures { IfOk result (λ converted. IsConverted (functions_in converted) (outer_in converted)) }
{
    let mut funcs = IrFuncs::new(alloc);
    funcs.push(IrFunc {
        free: 0,
        slots: 0,
        body: down_body(alloc)?,
    })?;
    let body = IrFunc {
        free: 0,
        slots: 1,
        body: closure_let(alloc)?,
    };
    Ok(Converted { funcs, body })
}

/// Its bytes at `int -> int`.
fn bytes_of_down(alloc: Global) -> Result<Vec<u8>, AllocError> {
    let converted = down(alloc)?;
    let kind = KType::Fun(Ground::Base(Base::Int), Ground::Base(Base::Int));
    let module = generate(alloc, &converted, &kind)?;
    encode(alloc, &module)
}

/// The function's body is a loop, into which the self tail call branches.
const DOWN: &[u8] = &[
    0x00, 0x61, 0x73, 0x6d, 0x01, 0x00, 0x00, 0x00, 0x01, 0x11, 0x03, 0x60, 0x02, 0x7e, 0x7e, 0x01,
    0x7e, 0x60, 0x00, 0x01, 0x7e, 0x60, 0x02, 0x7e, 0x7e, 0x01, 0x7e, 0x03, 0x04, 0x03, 0x00, 0x01,
    0x02, 0x04, 0x05, 0x01, 0x70, 0x01, 0x01, 0x01, 0x05, 0x04, 0x01, 0x01, 0x40, 0x40, 0x06, 0x06,
    0x01, 0x7f, 0x01, 0x41, 0x00, 0x0b, 0x07, 0x0f, 0x02, 0x04, 0x69, 0x6e, 0x69, 0x74, 0x00, 0x01,
    0x04, 0x63, 0x61, 0x6c, 0x6c, 0x00, 0x02, 0x09, 0x07, 0x01, 0x00, 0x41, 0x00, 0x0b, 0x01, 0x00,
    0x0a, 0x59, 0x03, 0x1b, 0x00, 0x03, 0x7e, 0x20, 0x01, 0x42, 0x00, 0x51, 0xad, 0xa7, 0x04, 0x7e,
    0x42, 0x00, 0x05, 0x20, 0x01, 0x42, 0x01, 0x7d, 0x21, 0x01, 0x0c, 0x01, 0x0b, 0x0b, 0x0b, 0x19,
    0x01, 0x01, 0x7e, 0x23, 0x00, 0x42, 0x00, 0x37, 0x03, 0x00, 0x23, 0x00, 0xad, 0x23, 0x00, 0x41,
    0x08, 0x6a, 0x24, 0x00, 0x21, 0x00, 0x20, 0x00, 0x0b, 0x21, 0x02, 0x02, 0x7e, 0x01, 0x7f, 0x23,
    0x00, 0x21, 0x04, 0x20, 0x00, 0x20, 0x01, 0x21, 0x03, 0x22, 0x02, 0x20, 0x03, 0x20, 0x02, 0xa7,
    0x28, 0x02, 0x00, 0x11, 0x00, 0x00, 0x20, 0x04, 0x24, 0x00, 0x0b,
];

#[test]
fn module_of_down(rt: HostRuntime) -> Result<(), AllocError> {
    let bytes = bytes_of_down(rt.alloc())?;
    assert_eq!(rt; bytes.as_slice(), DOWN);
    Ok(())
}

#[test]
fn module_of_seven(rt: HostRuntime) -> Result<(), AllocError> {
    let bytes = bytes_of_seven(rt.alloc())?;
    assert_eq!(rt; bytes.as_slice(), SEVEN);
    Ok(())
}

/// `fun x -> fun y -> x`, converted.
fn first_of_two(alloc: Global) -> Result<Converted, AllocError>
    ensures { IfOk result (λ converted. IsConverted (functions_in converted) (outer_in converted)) }
{
    let mut places = Places::new(alloc);
    places.push(Place::Argument)?;
    let mut funcs = IrFuncs::new(alloc);
    funcs.push(IrFunc {
        free: 0,
        slots: 0,
        body: Ir::Closure(1, places),
    })?;
    funcs.push(IrFunc {
        free: 1,
        slots: 0,
        body: Ir::Get(Place::Free(0)),
    })?;
    let body = IrFunc {
        free: 0,
        slots: 0,
        body: Ir::Closure(0, Places::new(alloc)),
    };
    Ok(Converted { funcs, body })
}

/// A part as it is printed for debugging.
fn printed_part(
    alloc: Global,
    converted: &Converted,
    kind: &KType,
    base: u32,
) -> Result<String, AllocError>
    requires converted { IsConverted (functions_in converted.now) (outer_in converted.now) }
    requires nodes { kernel_nodes (kernel_type_of kind.now) ≤ 10000 }
    requires base { base ≤ 100000 }
{
    let Part { funcs, init, call } = generate_part(alloc, converted, kind, base)?;
    format!(in alloc; "{funcs:?}\n{init:?}\n{call:?}")
}

/// No functions, `init` alone.
const PART_OF_SEVEN: &str = "Sequence { items: [] }\n\
    Func { kind: 1, locals: Sequence { items: [] }, \
    body: Instrs { inner: [ConstI32(0), GlobalSet(0), ConstI64(7)] } }\n\
    None";

/// The first function makes a closure of the second, which has the next number.
const PART_OF_FIRST: &str = "Sequence { items: [\
    Func { kind: 0, locals: Sequence { items: [] }, body: Instrs { inner: [\
    GlobalGet(0), ConstI64(100000), Store(I64, 3, 0), GlobalGet(0), LocalGet(1), Store(I64, 3, 8), \
    GlobalGet(0), Num(ExtendU), GlobalGet(0), ConstI32(16), Num(I32(Add)), GlobalSet(0)] } }, \
    Func { kind: 0, locals: Sequence { items: [] }, body: Instrs { inner: [\
    LocalGet(0), Num(Wrap), Load(I64, 3, 8)] } }] }\n\
    Func { kind: 1, locals: Sequence { items: [] }, body: Instrs { inner: [ConstI32(0), GlobalSet(0), \
    GlobalGet(0), ConstI64(99999), Store(I64, 3, 0), \
    GlobalGet(0), Num(ExtendU), GlobalGet(0), ConstI32(8), Num(I32(Add)), GlobalSet(0)] } }\n\
    Some(Func { kind: 2, locals: Sequence { items: [I64, I64, I32] }, body: Instrs { inner: [\
    GlobalGet(0), LocalSet(4), LocalGet(0), LocalGet(1), LocalSet(3), LocalTee(2), LocalGet(3), LocalGet(2), \
    Num(Wrap), Load(I32, 2, 0), CallIndirect(0), LocalGet(4), GlobalSet(0)] } })";

/// The function's loop has no number in it, and `init` has the function's.
const PART_OF_DOWN: &str = "Sequence { items: [\
    Func { kind: 0, locals: Sequence { items: [] }, body: Instrs { inner: [Loop(Some(I64), Instrs { inner: [\
    LocalGet(1), ConstI64(0), Num(I64(Eq)), Num(ExtendU), Num(Wrap), If(Some(I64), \
    Instrs { inner: [ConstI64(0)] }, \
    Instrs { inner: [LocalGet(1), ConstI64(1), Num(I64(Sub)), LocalSet(1), Br(1)] })] })] } }] }\n\
    Func { kind: 1, locals: Sequence { items: [I64] }, body: Instrs { inner: [ConstI32(0), GlobalSet(0), \
    GlobalGet(0), ConstI64(2), Store(I64, 3, 0), GlobalGet(0), Num(ExtendU), GlobalGet(0), ConstI32(8), \
    Num(I32(Add)), GlobalSet(0), LocalSet(0), LocalGet(0)] } }\n\
    None";

fn part_of_seven(alloc: Global) -> Result<String, AllocError> {
    let converted = seven(alloc);
    printed_part(
        alloc,
        &converted,
        &KType::Ground(Ground::Base(Base::Int)),
        3,
    )
}

fn part_of_first(alloc: Global) -> Result<String, AllocError> {
    let converted = first_of_two(alloc)?;
    let kind = KType::Fun(Ground::Base(Base::Int), Ground::Base(Base::Int));
    printed_part(alloc, &converted, &kind, 99_999)
}

fn part_of_down(alloc: Global) -> Result<String, AllocError> {
    let converted = down(alloc)?;
    printed_part(
        alloc,
        &converted,
        &KType::Ground(Ground::Base(Base::Int)),
        2,
    )
}

fn assert_text(rt: &impl Abort, found: String, wanted: &str) {
    assert_eq!(rt; found.as_str(), wanted);
}

#[test]
fn parts_behind_other_functions(rt: HostRuntime) -> Result<(), AllocError> {
    assert_text(&rt, part_of_seven(rt.alloc())?, PART_OF_SEVEN);
    assert_text(&rt, part_of_first(rt.alloc())?, PART_OF_FIRST);
    assert_text(&rt, part_of_down(rt.alloc())?, PART_OF_DOWN);
    Ok(())
}
