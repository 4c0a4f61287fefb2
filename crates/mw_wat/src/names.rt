// The names of types and operations.

ghost use Rattle.std.specs.Prelude.{◌≡◌};
ghost use Rattle.mw_wat.specs.Names.{load_name, operation_name, store_name, type_name};

use mw_wasm::{IntOp, LoadOp, StoreOp, ValType};

/// The name of a type.
pub fn name_of_type(kind: ValType) -> &'static [u8]
    ensures { result.now ≡ type_name kind }
{
    match kind {
        ValType::I32 => b"i32",
        ValType::I64 => b"i64",
    }
}

/// The name of an operation on integers, without its type.
pub fn name_of_operation(op: IntOp) -> &'static [u8]
    ensures { result.now ≡ operation_name op }
{
    match op {
        IntOp::Eqz => b"eqz",
        IntOp::Eq => b"eq",
        IntOp::Ne => b"ne",
        IntOp::LtS => b"lt_s",
        IntOp::LtU => b"lt_u",
        IntOp::GtS => b"gt_s",
        IntOp::GtU => b"gt_u",
        IntOp::LeS => b"le_s",
        IntOp::LeU => b"le_u",
        IntOp::GeS => b"ge_s",
        IntOp::GeU => b"ge_u",
        IntOp::Clz => b"clz",
        IntOp::Ctz => b"ctz",
        IntOp::Popcnt => b"popcnt",
        IntOp::Add => b"add",
        IntOp::Sub => b"sub",
        IntOp::Mul => b"mul",
        IntOp::DivS => b"div_s",
        IntOp::DivU => b"div_u",
        IntOp::RemS => b"rem_s",
        IntOp::RemU => b"rem_u",
        IntOp::And => b"and",
        IntOp::Or => b"or",
        IntOp::Xor => b"xor",
        IntOp::Shl => b"shl",
        IntOp::ShrS => b"shr_s",
        IntOp::ShrU => b"shr_u",
        IntOp::Rotl => b"rotl",
        IntOp::Rotr => b"rotr",
    }
}

/// The name of a load.
pub fn name_of_load(op: LoadOp) -> &'static [u8]
    ensures { result.now ≡ load_name op }
{
    match op {
        LoadOp::I32 => b"i32.load",
        LoadOp::I64 => b"i64.load",
        LoadOp::I32S8 => b"i32.load8_s",
        LoadOp::I32U8 => b"i32.load8_u",
        LoadOp::I32S16 => b"i32.load16_s",
        LoadOp::I32U16 => b"i32.load16_u",
        LoadOp::I64S8 => b"i64.load8_s",
        LoadOp::I64U8 => b"i64.load8_u",
        LoadOp::I64S16 => b"i64.load16_s",
        LoadOp::I64U16 => b"i64.load16_u",
        LoadOp::I64S32 => b"i64.load32_s",
        LoadOp::I64U32 => b"i64.load32_u",
    }
}

/// The name of a store.
pub fn name_of_store(op: StoreOp) -> &'static [u8]
    ensures { result.now ≡ store_name op }
{
    match op {
        StoreOp::I32 => b"i32.store",
        StoreOp::I64 => b"i64.store",
        StoreOp::I32To8 => b"i32.store8",
        StoreOp::I32To16 => b"i32.store16",
        StoreOp::I64To8 => b"i64.store8",
        StoreOp::I64To16 => b"i64.store16",
        StoreOp::I64To32 => b"i64.store32",
    }
}
