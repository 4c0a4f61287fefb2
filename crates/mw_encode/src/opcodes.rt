// The opcodes of loads, stores and numeric instructions.

ghost use Rattle.std.specs.Prelude.{◌≡◌, ◌+◌, ◌<◌};
ghost use Rattle.mw_wasm.specs.BinaryInstructions.{int_opcode, load_opcode, opcode_of_number, store_opcode};

use mw_wasm::{IntOp, LoadOp, NumOp, StoreOp};

/// The opcode of a load.
pub fn opcode_of_load(op: LoadOp) -> u8
    ensures { result ≡ load_opcode op }
{
    match op {
        LoadOp::I32 => 0x28,
        LoadOp::I64 => 0x29,
        LoadOp::I32S8 => 0x2c,
        LoadOp::I32U8 => 0x2d,
        LoadOp::I32S16 => 0x2e,
        LoadOp::I32U16 => 0x2f,
        LoadOp::I64S8 => 0x30,
        LoadOp::I64U8 => 0x31,
        LoadOp::I64S16 => 0x32,
        LoadOp::I64U16 => 0x33,
        LoadOp::I64S32 => 0x34,
        LoadOp::I64U32 => 0x35,
    }
}

/// The opcode of a store.
pub fn opcode_of_store(op: StoreOp) -> u8
    ensures { result ≡ store_opcode op }
{
    match op {
        StoreOp::I32 => 0x36,
        StoreOp::I64 => 0x37,
        StoreOp::I32To8 => 0x3a,
        StoreOp::I32To16 => 0x3b,
        StoreOp::I64To8 => 0x3c,
        StoreOp::I64To16 => 0x3d,
        StoreOp::I64To32 => 0x3e,
    }
}

/// The opcode of a numeric instruction.
pub fn opcode_of_numeric(op: NumOp) -> u8
    ensures { result ≡ opcode_of_number op }
{
    match op {
        NumOp::I32(op) => opcode_at(0x45, 0x67, op),
        NumOp::I64(op) => opcode_at(0x50, 0x79, op),
        NumOp::Wrap => 0xa7,
        NumOp::ExtendS => 0xac,
        NumOp::ExtendU => 0xad,
    }
}

/// The opcode of one width's operation, from those of its first test and of its first other operation.
fn opcode_at(tests: u8, others: u8, op: IntOp) -> u8
    requires room_for_tests { tests < 240 }
    requires room_for_others { others < 230 }
    ensures { result ≡ int_opcode tests others op }
{
    match op {
        IntOp::Eqz => tests,
        IntOp::Eq => tests + 1,
        IntOp::Ne => tests + 2,
        IntOp::LtS => tests + 3,
        IntOp::LtU => tests + 4,
        IntOp::GtS => tests + 5,
        IntOp::GtU => tests + 6,
        IntOp::LeS => tests + 7,
        IntOp::LeU => tests + 8,
        IntOp::GeS => tests + 9,
        IntOp::GeU => tests + 10,
        IntOp::Clz => others,
        IntOp::Ctz => others + 1,
        IntOp::Popcnt => others + 2,
        IntOp::Add => others + 3,
        IntOp::Sub => others + 4,
        IntOp::Mul => others + 5,
        IntOp::DivS => others + 6,
        IntOp::DivU => others + 7,
        IntOp::RemS => others + 8,
        IntOp::RemU => others + 9,
        IntOp::And => others + 10,
        IntOp::Or => others + 11,
        IntOp::Xor => others + 12,
        IntOp::Shl => others + 13,
        IntOp::ShrS => others + 14,
        IntOp::ShrU => others + 15,
        IntOp::Rotl => others + 16,
        IntOp::Rotr => others + 17,
    }
}
