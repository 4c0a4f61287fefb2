// Each operation at edge values, with results worked out from the standard (Execution, Numerics).

use crate::arithmetic::numeric;
use crate::numbers::{IntOp, NumOp};
use crate::values::{Trap, Value};

const LEAST_32: u32 = 0x8000_0000;

const GREATEST_32: u32 = 0x7fff_ffff;

const ALL_ONES_32: u32 = 0xffff_ffff;

const LEAST_64: u64 = 0x8000_0000_0000_0000;

const GREATEST_64: u64 = 0x7fff_ffff_ffff_ffff;

const ALL_ONES_64: u64 = 0xffff_ffff_ffff_ffff;

// The operation, its operands and its result. An operation of one operand has 0 as its second one.
static NUMBERS_32: [(IntOp, u32, u32, u32); 155] = [
    (IntOp::Eqz, 0, 0, 1),
    (IntOp::Eqz, 1, 0, 0),
    (IntOp::Eqz, LEAST_32, 0, 0),
    (IntOp::Eqz, ALL_ONES_32, 0, 0),
    (IntOp::Eq, 0, 0, 1),
    (IntOp::Eq, ALL_ONES_32, ALL_ONES_32, 1),
    (IntOp::Eq, LEAST_32, GREATEST_32, 0),
    (IntOp::Eq, 0, LEAST_32, 0),
    (IntOp::Ne, 0, 0, 0),
    (IntOp::Ne, ALL_ONES_32, ALL_ONES_32, 0),
    (IntOp::Ne, LEAST_32, GREATEST_32, 1),
    (IntOp::Ne, 0, LEAST_32, 1),
    (IntOp::LtS, LEAST_32, GREATEST_32, 1),
    (IntOp::LtS, GREATEST_32, LEAST_32, 0),
    (IntOp::LtS, ALL_ONES_32, 0, 1),
    (IntOp::LtS, 0, ALL_ONES_32, 0),
    (IntOp::LtS, LEAST_32, LEAST_32, 0),
    (IntOp::LtU, LEAST_32, GREATEST_32, 0),
    (IntOp::LtU, GREATEST_32, LEAST_32, 1),
    (IntOp::LtU, ALL_ONES_32, 0, 0),
    (IntOp::LtU, 0, ALL_ONES_32, 1),
    (IntOp::LtU, LEAST_32, LEAST_32, 0),
    (IntOp::GtS, LEAST_32, GREATEST_32, 0),
    (IntOp::GtS, GREATEST_32, LEAST_32, 1),
    (IntOp::GtS, ALL_ONES_32, 0, 0),
    (IntOp::GtS, 0, ALL_ONES_32, 1),
    (IntOp::GtS, LEAST_32, LEAST_32, 0),
    (IntOp::GtU, LEAST_32, GREATEST_32, 1),
    (IntOp::GtU, GREATEST_32, LEAST_32, 0),
    (IntOp::GtU, ALL_ONES_32, 0, 1),
    (IntOp::GtU, 0, ALL_ONES_32, 0),
    (IntOp::GtU, LEAST_32, LEAST_32, 0),
    (IntOp::LeS, LEAST_32, GREATEST_32, 1),
    (IntOp::LeS, GREATEST_32, LEAST_32, 0),
    (IntOp::LeS, ALL_ONES_32, 0, 1),
    (IntOp::LeS, 0, ALL_ONES_32, 0),
    (IntOp::LeS, LEAST_32, LEAST_32, 1),
    (IntOp::LeU, LEAST_32, GREATEST_32, 0),
    (IntOp::LeU, GREATEST_32, LEAST_32, 1),
    (IntOp::LeU, ALL_ONES_32, 0, 0),
    (IntOp::LeU, 0, ALL_ONES_32, 1),
    (IntOp::LeU, LEAST_32, LEAST_32, 1),
    (IntOp::GeS, LEAST_32, GREATEST_32, 0),
    (IntOp::GeS, GREATEST_32, LEAST_32, 1),
    (IntOp::GeS, ALL_ONES_32, 0, 0),
    (IntOp::GeS, 0, ALL_ONES_32, 1),
    (IntOp::GeS, LEAST_32, LEAST_32, 1),
    (IntOp::GeU, LEAST_32, GREATEST_32, 1),
    (IntOp::GeU, GREATEST_32, LEAST_32, 0),
    (IntOp::GeU, ALL_ONES_32, 0, 1),
    (IntOp::GeU, 0, ALL_ONES_32, 0),
    (IntOp::GeU, LEAST_32, LEAST_32, 1),
    (IntOp::Clz, 0, 0, 32),
    (IntOp::Clz, 1, 0, 31),
    (IntOp::Clz, LEAST_32, 0, 0),
    (IntOp::Clz, GREATEST_32, 0, 1),
    (IntOp::Clz, ALL_ONES_32, 0, 0),
    (IntOp::Clz, 0x0000_8000, 0, 16),
    (IntOp::Ctz, 0, 0, 32),
    (IntOp::Ctz, 1, 0, 0),
    (IntOp::Ctz, LEAST_32, 0, 31),
    (IntOp::Ctz, GREATEST_32, 0, 0),
    (IntOp::Ctz, ALL_ONES_32, 0, 0),
    (IntOp::Ctz, 0x0001_0000, 0, 16),
    (IntOp::Popcnt, 0, 0, 0),
    (IntOp::Popcnt, 1, 0, 1),
    (IntOp::Popcnt, LEAST_32, 0, 1),
    (IntOp::Popcnt, GREATEST_32, 0, 31),
    (IntOp::Popcnt, ALL_ONES_32, 0, 32),
    (IntOp::Popcnt, 0xaaaa_5555, 0, 16),
    (IntOp::Add, 0, 0, 0),
    (IntOp::Add, ALL_ONES_32, 1, 0),
    (IntOp::Add, GREATEST_32, 1, LEAST_32),
    (IntOp::Add, LEAST_32, LEAST_32, 0),
    (IntOp::Add, ALL_ONES_32, ALL_ONES_32, 0xffff_fffe),
    (IntOp::Sub, 0, 1, ALL_ONES_32),
    (IntOp::Sub, LEAST_32, 1, GREATEST_32),
    (IntOp::Sub, 0, LEAST_32, LEAST_32),
    (IntOp::Sub, GREATEST_32, ALL_ONES_32, LEAST_32),
    (IntOp::Sub, ALL_ONES_32, ALL_ONES_32, 0),
    (IntOp::Mul, ALL_ONES_32, ALL_ONES_32, 1),
    (IntOp::Mul, LEAST_32, 3, LEAST_32),
    (IntOp::Mul, GREATEST_32, 2, 0xffff_fffe),
    (IntOp::Mul, 0x0001_0000, 0x0001_0000, 0),
    (IntOp::Mul, 0x0123_4567, 0x89ab_cdef, 0xc94e_4629),
    (IntOp::DivS, 7, 0xffff_fffd, 0xffff_fffe),
    (IntOp::DivS, 0xffff_fff9, 3, 0xffff_fffe),
    (IntOp::DivS, 0xffff_fff9, 0xffff_fffd, 2),
    (IntOp::DivS, LEAST_32, 1, LEAST_32),
    (IntOp::DivS, LEAST_32, 2, 0xc000_0000),
    (IntOp::DivS, LEAST_32, LEAST_32, 1),
    (IntOp::DivS, GREATEST_32, ALL_ONES_32, 0x8000_0001),
    (IntOp::DivS, GREATEST_32, LEAST_32, 0),
    (IntOp::DivS, ALL_ONES_32, 2, 0),
    (IntOp::DivS, 0, ALL_ONES_32, 0),
    (IntOp::DivU, 7, 2, 3),
    (IntOp::DivU, 0xffff_fff9, 3, 0x5555_5553),
    (IntOp::DivU, LEAST_32, ALL_ONES_32, 0),
    (IntOp::DivU, ALL_ONES_32, LEAST_32, 1),
    (IntOp::DivU, ALL_ONES_32, 1, ALL_ONES_32),
    (IntOp::DivU, 0, ALL_ONES_32, 0),
    (IntOp::RemS, 7, 0xffff_fffd, 1),
    (IntOp::RemS, 0xffff_fff9, 3, ALL_ONES_32),
    (IntOp::RemS, 0xffff_fff9, 0xffff_fffd, ALL_ONES_32),
    (IntOp::RemS, LEAST_32, ALL_ONES_32, 0),
    (IntOp::RemS, ALL_ONES_32, LEAST_32, ALL_ONES_32),
    (IntOp::RemS, GREATEST_32, LEAST_32, GREATEST_32),
    (IntOp::RemS, LEAST_32, 2, 0),
    (IntOp::RemS, LEAST_32, 1, 0),
    (IntOp::RemU, 7, 4, 3),
    (IntOp::RemU, 0xffff_fffa, 3, 1),
    (IntOp::RemU, LEAST_32, ALL_ONES_32, LEAST_32),
    (IntOp::RemU, ALL_ONES_32, LEAST_32, GREATEST_32),
    (IntOp::RemU, ALL_ONES_32, 1, 0),
    (IntOp::And, 0xff00_ff00, 0x0ff0_0ff0, 0x0f00_0f00),
    (IntOp::And, ALL_ONES_32, LEAST_32, LEAST_32),
    (IntOp::And, 0, ALL_ONES_32, 0),
    (IntOp::And, ALL_ONES_32, ALL_ONES_32, ALL_ONES_32),
    (IntOp::Or, 0xff00_ff00, 0x0ff0_0ff0, 0xfff0_fff0),
    (IntOp::Or, ALL_ONES_32, LEAST_32, ALL_ONES_32),
    (IntOp::Or, 0, ALL_ONES_32, ALL_ONES_32),
    (IntOp::Or, 0, 0, 0),
    (IntOp::Xor, 0xff00_ff00, 0x0ff0_0ff0, 0xf0f0_f0f0),
    (IntOp::Xor, ALL_ONES_32, LEAST_32, GREATEST_32),
    (IntOp::Xor, 0, ALL_ONES_32, ALL_ONES_32),
    (IntOp::Xor, ALL_ONES_32, ALL_ONES_32, 0),
    (IntOp::Shl, 1, 31, LEAST_32),
    (IntOp::Shl, 1, 32, 1),
    (IntOp::Shl, 1, 33, 2),
    (IntOp::Shl, ALL_ONES_32, 0, ALL_ONES_32),
    (IntOp::Shl, ALL_ONES_32, ALL_ONES_32, LEAST_32),
    (IntOp::Shl, LEAST_32, 1, 0),
    (IntOp::ShrS, LEAST_32, 31, ALL_ONES_32),
    (IntOp::ShrS, LEAST_32, 32, LEAST_32),
    (IntOp::ShrS, LEAST_32, 33, 0xc000_0000),
    (IntOp::ShrS, ALL_ONES_32, ALL_ONES_32, ALL_ONES_32),
    (IntOp::ShrS, GREATEST_32, 1, 0x3fff_ffff),
    (IntOp::ShrS, GREATEST_32, 31, 0),
    (IntOp::ShrU, LEAST_32, 31, 1),
    (IntOp::ShrU, LEAST_32, 32, LEAST_32),
    (IntOp::ShrU, LEAST_32, 33, 0x4000_0000),
    (IntOp::ShrU, ALL_ONES_32, ALL_ONES_32, 1),
    (IntOp::ShrU, ALL_ONES_32, 1, GREATEST_32),
    (IntOp::Rotl, LEAST_32, 1, 1),
    (IntOp::Rotl, 1, 31, LEAST_32),
    (IntOp::Rotl, 1, 32, 1),
    (IntOp::Rotl, 1, 33, 2),
    (IntOp::Rotl, 0x1234_5678, 8, 0x3456_7812),
    (IntOp::Rotl, LEAST_32, ALL_ONES_32, 0x4000_0000),
    (IntOp::Rotr, 1, 1, LEAST_32),
    (IntOp::Rotr, LEAST_32, 31, 1),
    (IntOp::Rotr, LEAST_32, 32, LEAST_32),
    (IntOp::Rotr, LEAST_32, 33, 0x4000_0000),
    (IntOp::Rotr, 0x1234_5678, 8, 0x7812_3456),
    (IntOp::Rotr, 1, ALL_ONES_32, 2),
];

// Tests and comparisons of 64 bits, which give an i32.
static TRUTHS_64: [(IntOp, u64, u64, u32); 52] = [
    (IntOp::Eqz, 0, 0, 1),
    (IntOp::Eqz, 1, 0, 0),
    (IntOp::Eqz, LEAST_64, 0, 0),
    (IntOp::Eqz, ALL_ONES_64, 0, 0),
    (IntOp::Eq, 0, 0, 1),
    (IntOp::Eq, ALL_ONES_64, ALL_ONES_64, 1),
    (IntOp::Eq, LEAST_64, GREATEST_64, 0),
    (IntOp::Eq, 0, LEAST_64, 0),
    (IntOp::Ne, 0, 0, 0),
    (IntOp::Ne, ALL_ONES_64, ALL_ONES_64, 0),
    (IntOp::Ne, LEAST_64, GREATEST_64, 1),
    (IntOp::Ne, 0, LEAST_64, 1),
    (IntOp::LtS, LEAST_64, GREATEST_64, 1),
    (IntOp::LtS, GREATEST_64, LEAST_64, 0),
    (IntOp::LtS, ALL_ONES_64, 0, 1),
    (IntOp::LtS, 0, ALL_ONES_64, 0),
    (IntOp::LtS, LEAST_64, LEAST_64, 0),
    (IntOp::LtU, LEAST_64, GREATEST_64, 0),
    (IntOp::LtU, GREATEST_64, LEAST_64, 1),
    (IntOp::LtU, ALL_ONES_64, 0, 0),
    (IntOp::LtU, 0, ALL_ONES_64, 1),
    (IntOp::LtU, LEAST_64, LEAST_64, 0),
    (IntOp::GtS, LEAST_64, GREATEST_64, 0),
    (IntOp::GtS, GREATEST_64, LEAST_64, 1),
    (IntOp::GtS, ALL_ONES_64, 0, 0),
    (IntOp::GtS, 0, ALL_ONES_64, 1),
    (IntOp::GtS, LEAST_64, LEAST_64, 0),
    (IntOp::GtU, LEAST_64, GREATEST_64, 1),
    (IntOp::GtU, GREATEST_64, LEAST_64, 0),
    (IntOp::GtU, ALL_ONES_64, 0, 1),
    (IntOp::GtU, 0, ALL_ONES_64, 0),
    (IntOp::GtU, LEAST_64, LEAST_64, 0),
    (IntOp::LeS, LEAST_64, GREATEST_64, 1),
    (IntOp::LeS, GREATEST_64, LEAST_64, 0),
    (IntOp::LeS, ALL_ONES_64, 0, 1),
    (IntOp::LeS, 0, ALL_ONES_64, 0),
    (IntOp::LeS, LEAST_64, LEAST_64, 1),
    (IntOp::LeU, LEAST_64, GREATEST_64, 0),
    (IntOp::LeU, GREATEST_64, LEAST_64, 1),
    (IntOp::LeU, ALL_ONES_64, 0, 0),
    (IntOp::LeU, 0, ALL_ONES_64, 1),
    (IntOp::LeU, LEAST_64, LEAST_64, 1),
    (IntOp::GeS, LEAST_64, GREATEST_64, 0),
    (IntOp::GeS, GREATEST_64, LEAST_64, 1),
    (IntOp::GeS, ALL_ONES_64, 0, 0),
    (IntOp::GeS, 0, ALL_ONES_64, 1),
    (IntOp::GeS, LEAST_64, LEAST_64, 1),
    (IntOp::GeU, LEAST_64, GREATEST_64, 1),
    (IntOp::GeU, GREATEST_64, LEAST_64, 0),
    (IntOp::GeU, ALL_ONES_64, 0, 1),
    (IntOp::GeU, 0, ALL_ONES_64, 0),
    (IntOp::GeU, LEAST_64, LEAST_64, 1),
];

static NUMBERS_64: [(IntOp, u64, u64, u64); 107] = [
    (IntOp::Clz, 0, 0, 64),
    (IntOp::Clz, 1, 0, 63),
    (IntOp::Clz, LEAST_64, 0, 0),
    (IntOp::Clz, GREATEST_64, 0, 1),
    (IntOp::Clz, ALL_ONES_64, 0, 0),
    (IntOp::Clz, 0x8000_0000, 0, 32),
    (IntOp::Ctz, 0, 0, 64),
    (IntOp::Ctz, 1, 0, 0),
    (IntOp::Ctz, LEAST_64, 0, 63),
    (IntOp::Ctz, GREATEST_64, 0, 0),
    (IntOp::Ctz, ALL_ONES_64, 0, 0),
    (IntOp::Ctz, 0x1_0000_0000, 0, 32),
    (IntOp::Popcnt, 0, 0, 0),
    (IntOp::Popcnt, 1, 0, 1),
    (IntOp::Popcnt, LEAST_64, 0, 1),
    (IntOp::Popcnt, GREATEST_64, 0, 63),
    (IntOp::Popcnt, ALL_ONES_64, 0, 64),
    (IntOp::Popcnt, 0xaaaa_aaaa_5555_5555, 0, 32),
    (IntOp::Add, 0, 0, 0),
    (IntOp::Add, ALL_ONES_64, 1, 0),
    (IntOp::Add, GREATEST_64, 1, LEAST_64),
    (IntOp::Add, LEAST_64, LEAST_64, 0),
    (IntOp::Add, ALL_ONES_64, ALL_ONES_64, 0xffff_ffff_ffff_fffe),
    (IntOp::Add, 0xffff_ffff, 1, 0x1_0000_0000),
    (IntOp::Sub, 0, 1, ALL_ONES_64),
    (IntOp::Sub, LEAST_64, 1, GREATEST_64),
    (IntOp::Sub, 0, LEAST_64, LEAST_64),
    (IntOp::Sub, GREATEST_64, ALL_ONES_64, LEAST_64),
    (IntOp::Sub, ALL_ONES_64, ALL_ONES_64, 0),
    (IntOp::Mul, ALL_ONES_64, ALL_ONES_64, 1),
    (IntOp::Mul, LEAST_64, 3, LEAST_64),
    (IntOp::Mul, GREATEST_64, 2, 0xffff_ffff_ffff_fffe),
    (IntOp::Mul, 0x1_0000_0000, 0x1_0000_0000, 0),
    (IntOp::Mul, 0xffff_ffff, 0xffff_ffff, 0xffff_fffe_0000_0001),
    (IntOp::DivS, 7, 0xffff_ffff_ffff_fffd, 0xffff_ffff_ffff_fffe),
    (IntOp::DivS, 0xffff_ffff_ffff_fff9, 3, 0xffff_ffff_ffff_fffe),
    (IntOp::DivS, 0xffff_ffff_ffff_fff9, 0xffff_ffff_ffff_fffd, 2),
    (IntOp::DivS, LEAST_64, 1, LEAST_64),
    (IntOp::DivS, LEAST_64, 2, 0xc000_0000_0000_0000),
    (IntOp::DivS, LEAST_64, LEAST_64, 1),
    (IntOp::DivS, GREATEST_64, ALL_ONES_64, 0x8000_0000_0000_0001),
    (IntOp::DivS, GREATEST_64, LEAST_64, 0),
    (IntOp::DivS, ALL_ONES_64, 2, 0),
    (IntOp::DivS, 0, ALL_ONES_64, 0),
    (IntOp::DivU, 7, 2, 3),
    (IntOp::DivU, 0xffff_ffff_ffff_fff9, 2, 0x7fff_ffff_ffff_fffc),
    (IntOp::DivU, LEAST_64, ALL_ONES_64, 0),
    (IntOp::DivU, ALL_ONES_64, LEAST_64, 1),
    (IntOp::DivU, ALL_ONES_64, 1, ALL_ONES_64),
    (IntOp::DivU, 0, ALL_ONES_64, 0),
    (IntOp::RemS, 7, 0xffff_ffff_ffff_fffd, 1),
    (IntOp::RemS, 0xffff_ffff_ffff_fff9, 3, ALL_ONES_64),
    (
        IntOp::RemS,
        0xffff_ffff_ffff_fff9,
        0xffff_ffff_ffff_fffd,
        ALL_ONES_64,
    ),
    (IntOp::RemS, LEAST_64, ALL_ONES_64, 0),
    (IntOp::RemS, ALL_ONES_64, LEAST_64, ALL_ONES_64),
    (IntOp::RemS, GREATEST_64, LEAST_64, GREATEST_64),
    (IntOp::RemS, LEAST_64, 2, 0),
    (IntOp::RemS, LEAST_64, 1, 0),
    (IntOp::RemU, 7, 4, 3),
    (IntOp::RemU, 0xffff_ffff_ffff_fff9, 2, 1),
    (IntOp::RemU, LEAST_64, ALL_ONES_64, LEAST_64),
    (IntOp::RemU, ALL_ONES_64, LEAST_64, GREATEST_64),
    (IntOp::RemU, ALL_ONES_64, 1, 0),
    (
        IntOp::And,
        0xff00_ff00_ff00_ff00,
        0x0ff0_0ff0_0ff0_0ff0,
        0x0f00_0f00_0f00_0f00,
    ),
    (IntOp::And, ALL_ONES_64, LEAST_64, LEAST_64),
    (IntOp::And, 0, ALL_ONES_64, 0),
    (IntOp::And, ALL_ONES_64, ALL_ONES_64, ALL_ONES_64),
    (
        IntOp::Or,
        0xff00_ff00_ff00_ff00,
        0x0ff0_0ff0_0ff0_0ff0,
        0xfff0_fff0_fff0_fff0,
    ),
    (IntOp::Or, ALL_ONES_64, LEAST_64, ALL_ONES_64),
    (IntOp::Or, 0, ALL_ONES_64, ALL_ONES_64),
    (IntOp::Or, 0, 0, 0),
    (
        IntOp::Xor,
        0xff00_ff00_ff00_ff00,
        0x0ff0_0ff0_0ff0_0ff0,
        0xf0f0_f0f0_f0f0_f0f0,
    ),
    (IntOp::Xor, ALL_ONES_64, LEAST_64, GREATEST_64),
    (IntOp::Xor, 0, ALL_ONES_64, ALL_ONES_64),
    (IntOp::Xor, ALL_ONES_64, ALL_ONES_64, 0),
    (IntOp::Shl, 1, 63, LEAST_64),
    (IntOp::Shl, 1, 64, 1),
    (IntOp::Shl, 1, 65, 2),
    (IntOp::Shl, 1, 32, 0x1_0000_0000),
    (IntOp::Shl, ALL_ONES_64, 0, ALL_ONES_64),
    (IntOp::Shl, ALL_ONES_64, ALL_ONES_64, LEAST_64),
    (IntOp::Shl, LEAST_64, 1, 0),
    (IntOp::ShrS, LEAST_64, 63, ALL_ONES_64),
    (IntOp::ShrS, LEAST_64, 64, LEAST_64),
    (IntOp::ShrS, LEAST_64, 65, 0xc000_0000_0000_0000),
    (IntOp::ShrS, LEAST_64, 32, 0xffff_ffff_8000_0000),
    (IntOp::ShrS, ALL_ONES_64, ALL_ONES_64, ALL_ONES_64),
    (IntOp::ShrS, GREATEST_64, 1, 0x3fff_ffff_ffff_ffff),
    (IntOp::ShrS, GREATEST_64, 63, 0),
    (IntOp::ShrU, LEAST_64, 63, 1),
    (IntOp::ShrU, LEAST_64, 64, LEAST_64),
    (IntOp::ShrU, LEAST_64, 65, 0x4000_0000_0000_0000),
    (IntOp::ShrU, LEAST_64, 32, 0x8000_0000),
    (IntOp::ShrU, ALL_ONES_64, ALL_ONES_64, 1),
    (IntOp::ShrU, ALL_ONES_64, 1, GREATEST_64),
    (IntOp::Rotl, LEAST_64, 1, 1),
    (IntOp::Rotl, 1, 63, LEAST_64),
    (IntOp::Rotl, 1, 64, 1),
    (IntOp::Rotl, 1, 65, 2),
    (IntOp::Rotl, 0x0123_4567_89ab_cdef, 8, 0x2345_6789_abcd_ef01),
    (IntOp::Rotl, LEAST_64, ALL_ONES_64, 0x4000_0000_0000_0000),
    (IntOp::Rotr, 1, 1, LEAST_64),
    (IntOp::Rotr, LEAST_64, 63, 1),
    (IntOp::Rotr, LEAST_64, 64, LEAST_64),
    (IntOp::Rotr, LEAST_64, 65, 0x4000_0000_0000_0000),
    (IntOp::Rotr, 0x0123_4567_89ab_cdef, 8, 0xef01_2345_6789_abcd),
    (IntOp::Rotr, 1, ALL_ONES_64, 2),
];

static TRAPS_32: [(IntOp, u32, u32, Trap); 10] = [
    (IntOp::DivS, 0, 0, Trap::Divide),
    (IntOp::DivS, 1, 0, Trap::Divide),
    (IntOp::DivS, LEAST_32, 0, Trap::Divide),
    (IntOp::DivS, LEAST_32, ALL_ONES_32, Trap::Overflow),
    (IntOp::DivU, 0, 0, Trap::Divide),
    (IntOp::DivU, ALL_ONES_32, 0, Trap::Divide),
    (IntOp::RemS, 0, 0, Trap::Divide),
    (IntOp::RemS, LEAST_32, 0, Trap::Divide),
    (IntOp::RemU, 0, 0, Trap::Divide),
    (IntOp::RemU, ALL_ONES_32, 0, Trap::Divide),
];

static TRAPS_64: [(IntOp, u64, u64, Trap); 10] = [
    (IntOp::DivS, 0, 0, Trap::Divide),
    (IntOp::DivS, 1, 0, Trap::Divide),
    (IntOp::DivS, LEAST_64, 0, Trap::Divide),
    (IntOp::DivS, LEAST_64, ALL_ONES_64, Trap::Overflow),
    (IntOp::DivU, 0, 0, Trap::Divide),
    (IntOp::DivU, ALL_ONES_64, 0, Trap::Divide),
    (IntOp::RemS, 0, 0, Trap::Divide),
    (IntOp::RemS, LEAST_64, 0, Trap::Divide),
    (IntOp::RemU, 0, 0, Trap::Divide),
    (IntOp::RemU, ALL_ONES_64, 0, Trap::Divide),
];

#[test]
#[tactic(auto, using(crate::proofs::NumericOperands::operands_fit_i32))]
fn edge_values_of_32_bits(rt: HostRuntime) {
    for &(op, a, b, want) in NUMBERS_32.iter() {
        let got = numeric(NumOp::I32(op), Value::I32(a), Value::I32(b));
        assert_eq!(rt; got, Ok(Value::I32(want)), "{op:?} {a} {b}");
    }
    for &(op, a, b, trap) in TRAPS_32.iter() {
        let got = numeric(NumOp::I32(op), Value::I32(a), Value::I32(b));
        assert_eq!(rt; got, Err(trap), "{op:?} {a} {b}");
    }
}

#[test]
#[tactic(auto, using(crate::proofs::NumericOperands::operands_fit_i64))]
fn edge_values_of_64_bits(rt: HostRuntime) {
    for &(op, a, b, want) in TRUTHS_64.iter() {
        let got = numeric(NumOp::I64(op), Value::I64(a), Value::I64(b));
        assert_eq!(rt; got, Ok(Value::I32(want)), "{op:?} {a} {b}");
    }
    for &(op, a, b, want) in NUMBERS_64.iter() {
        let got = numeric(NumOp::I64(op), Value::I64(a), Value::I64(b));
        assert_eq!(rt; got, Ok(Value::I64(want)), "{op:?} {a} {b}");
    }
    for &(op, a, b, trap) in TRAPS_64.iter() {
        let got = numeric(NumOp::I64(op), Value::I64(a), Value::I64(b));
        assert_eq!(rt; got, Err(trap), "{op:?} {a} {b}");
    }
}

#[test]
fn conversions_and_unread_operands(rt: HostRuntime) {
    let zero = Value::I32(0);
    for &(a, want) in &[
        (0x1_0000_0000, 0),
        (ALL_ONES_64, ALL_ONES_32),
        (0x1234_5678_9abc_def0, 0x9abc_def0),
    ] {
        assert_eq!(rt;
            numeric(NumOp::Wrap, Value::I64(a), zero),
            Ok(Value::I32(want)),
            "{a}"
        );
    }
    for &(a, signed) in &[
        (0, 0),
        (1, 1),
        (GREATEST_32, 0x7fff_ffff),
        (LEAST_32, 0xffff_ffff_8000_0000),
        (ALL_ONES_32, ALL_ONES_64),
    ] {
        assert_eq!(rt;
            numeric(NumOp::ExtendS, Value::I32(a), zero),
            Ok(Value::I64(signed)),
            "{a}"
        );
        assert_eq!(rt;
            numeric(NumOp::ExtendU, Value::I32(a), zero),
            Ok(Value::I64(a as u64)),
            "{a}"
        );
    }
    // the second operand may be of any kind where the operation has one
    assert_eq!(rt;
        numeric(
            NumOp::I32(IntOp::Clz),
            Value::I32(1),
            Value::I64(ALL_ONES_64)
        ),
        Ok(Value::I32(31))
    );
    assert_eq!(rt;
        numeric(NumOp::I64(IntOp::Eqz), Value::I64(0), Value::I32(5)),
        Ok(Value::I32(1))
    );
}
