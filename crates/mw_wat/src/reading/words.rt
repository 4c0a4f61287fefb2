// The words of instructions.

ghost use Rattle.std.specs.Prelude.{◌≡◌, ◌++◌, drop};
ghost use Rattle.std.specs.Map.{lookup};
ghost use Rattle.std.specs.Str.{bytes_eq};
ghost use Rattle.mw_wat.specs.Instructions.{alone_words, load_words, meaning, store_words};
ghost use Rattle.mw_wat.specs.Words.{
  conversions,
  load_names,
  meant_by,
  number_names,
  operation_names,
  store_names,
  typed_names,
};

use crate::reading::numbers::behind;
use mw_wasm::{IntOp, LoadOp, NumOp, StoreOp};

/// What begins a list inside an instruction.
#[derive(Clone, Copy, Debug)]
pub enum Opener {
    Block,
    Loop,
    If,
}

/// A word before an index.
#[derive(Clone, Copy, Debug)]
pub enum Indexed {
    Br,
    BrIf,
    Call,
    LocalGet,
    LocalSet,
    LocalTee,
    GlobalGet,
    GlobalSet,
}

/// A word of an instruction that holds no list, and an operation where the word has one.
#[derive(Clone, Copy, Debug)]
pub enum Name {
    Unreachable,
    Nop,
    Return,
    Drop,
    Select,
    MemorySize,
    MemoryGrow,
    Indexed(Indexed),
    ConstI32,
    ConstI64,
    BrTable,
    CallIndirect,
    Num(NumOp),
    Load(LoadOp),
    Store(StoreOp),
}

/// What a word means among instructions.
#[derive(Clone, Copy, Debug)]
pub enum Word {
    /// It ends a list inside an instruction.
    End,
    /// It ends the first list of an `if`, and the second begins.
    Else,
    /// A list begins.
    Opens(Opener),
    /// An instruction that holds no list.
    Alone(Name),
}

/// Whether the word is this one.
pub fn is(word: &[u8], other: &[u8]) -> bool
    ensures { result ≡ bytes_eq word.now other.now }
{
    word == other
}

/// A test or a comparison, or another operation, by its name without its type.
fn operation_of(word: &[u8]) -> Option<IntOp>
    ensures { result ≡ lookup (bytes_eq word.now) operation_names }
{
    if is(word, b"eqz") {
        Some(IntOp::Eqz)
    } else if is(word, b"eq") {
        Some(IntOp::Eq)
    } else if is(word, b"ne") {
        Some(IntOp::Ne)
    } else if is(word, b"lt_s") {
        Some(IntOp::LtS)
    } else if is(word, b"lt_u") {
        Some(IntOp::LtU)
    } else if is(word, b"gt_s") {
        Some(IntOp::GtS)
    } else if is(word, b"gt_u") {
        Some(IntOp::GtU)
    } else if is(word, b"le_s") {
        Some(IntOp::LeS)
    } else if is(word, b"le_u") {
        Some(IntOp::LeU)
    } else if is(word, b"ge_s") {
        Some(IntOp::GeS)
    } else if is(word, b"ge_u") {
        Some(IntOp::GeU)
    } else {
        arithmetic_of(word)
    }
}

/// An operation that is no test and no comparison, by its name without its type.
fn arithmetic_of(word: &[u8]) -> Option<IntOp>
    ensures { result ≡ lookup (bytes_eq word.now) (drop 11 operation_names) }
{
    if is(word, b"clz") {
        Some(IntOp::Clz)
    } else if is(word, b"ctz") {
        Some(IntOp::Ctz)
    } else if is(word, b"popcnt") {
        Some(IntOp::Popcnt)
    } else if is(word, b"add") {
        Some(IntOp::Add)
    } else if is(word, b"sub") {
        Some(IntOp::Sub)
    } else if is(word, b"mul") {
        Some(IntOp::Mul)
    } else if is(word, b"div_s") {
        Some(IntOp::DivS)
    } else if is(word, b"div_u") {
        Some(IntOp::DivU)
    } else if is(word, b"rem_s") {
        Some(IntOp::RemS)
    } else if is(word, b"rem_u") {
        Some(IntOp::RemU)
    } else {
        bitwise_of(word)
    }
}

/// An operation on bits, by its name without its type.
fn bitwise_of(word: &[u8]) -> Option<IntOp>
    ensures { result ≡ lookup (bytes_eq word.now) (drop 21 operation_names) }
{
    if is(word, b"and") {
        Some(IntOp::And)
    } else if is(word, b"or") {
        Some(IntOp::Or)
    } else if is(word, b"xor") {
        Some(IntOp::Xor)
    } else if is(word, b"shl") {
        Some(IntOp::Shl)
    } else if is(word, b"shr_s") {
        Some(IntOp::ShrS)
    } else if is(word, b"shr_u") {
        Some(IntOp::ShrU)
    } else if is(word, b"rotl") {
        Some(IntOp::Rotl)
    } else if is(word, b"rotr") {
        Some(IntOp::Rotr)
    } else {
        None
    }
}

/// A conversion, by its name.
fn conversion_of(word: &[u8]) -> Option<NumOp>
    ensures { result ≡ lookup (bytes_eq word.now) conversions }
{
    if is(word, b"i32.wrap_i64") {
        Some(NumOp::Wrap)
    } else if is(word, b"i64.extend_i32_s") {
        Some(NumOp::ExtendS)
    } else if is(word, b"i64.extend_i32_u") {
        Some(NumOp::ExtendU)
    } else {
        None
    }
}

/// A load, by its name.
fn load_of(word: &[u8]) -> Option<LoadOp>
    ensures { result ≡ lookup (bytes_eq word.now) load_names }
{
    if is(word, b"i32.load") {
        Some(LoadOp::I32)
    } else if is(word, b"i64.load") {
        Some(LoadOp::I64)
    } else if is(word, b"i32.load8_s") {
        Some(LoadOp::I32S8)
    } else if is(word, b"i32.load8_u") {
        Some(LoadOp::I32U8)
    } else if is(word, b"i32.load16_s") {
        Some(LoadOp::I32S16)
    } else if is(word, b"i32.load16_u") {
        Some(LoadOp::I32U16)
    } else if is(word, b"i64.load8_s") {
        Some(LoadOp::I64S8)
    } else if is(word, b"i64.load8_u") {
        Some(LoadOp::I64U8)
    } else if is(word, b"i64.load16_s") {
        Some(LoadOp::I64S16)
    } else if is(word, b"i64.load16_u") {
        Some(LoadOp::I64U16)
    } else if is(word, b"i64.load32_s") {
        Some(LoadOp::I64S32)
    } else if is(word, b"i64.load32_u") {
        Some(LoadOp::I64U32)
    } else {
        None
    }
}

/// A store, by its name.
fn store_of(word: &[u8]) -> Option<StoreOp>
    ensures { result ≡ lookup (bytes_eq word.now) store_names }
{
    if is(word, b"i32.store") {
        Some(StoreOp::I32)
    } else if is(word, b"i64.store") {
        Some(StoreOp::I64)
    } else if is(word, b"i32.store8") {
        Some(StoreOp::I32To8)
    } else if is(word, b"i32.store16") {
        Some(StoreOp::I32To16)
    } else if is(word, b"i64.store8") {
        Some(StoreOp::I64To8)
    } else if is(word, b"i64.store16") {
        Some(StoreOp::I64To16)
    } else if is(word, b"i64.store32") {
        Some(StoreOp::I64To32)
    } else {
        None
    }
}

/// An operation by its name, with this front before it.
#[tactic(auto, using(crate::proofs::WordTables::typed_laws))]
fn typed_of(word: &[u8], front: &[u8]) -> Option<IntOp>
    ensures { result ≡ lookup (bytes_eq word.now) (typed_names front.now) }
{
    match behind(word, front) {
        Some(name) => operation_of(name),
        None => None,
    }
}

/// The operation of a numeric instruction, by its name.
#[tactic(auto, using(crate::proofs::WordTables::number_laws))]
fn number_of(word: &[u8]) -> Option<NumOp>
    ensures { result ≡ lookup (bytes_eq word.now) number_names }
{
    match typed_of(word, b"i32.") {
        Some(op) => Some(NumOp::I32(op)),
        None => match typed_of(word, b"i64.") {
            Some(op) => Some(NumOp::I64(op)),
            None => conversion_of(word),
        },
    }
}

/// A word of control.
fn control_of(word: &[u8]) -> Option<Word>
    ensures { meant_by result ≡ lookup (bytes_eq word.now) alone_words }
{
    if is(word, b"unreachable") {
        Some(Word::Alone(Name::Unreachable))
    } else if is(word, b"nop") {
        Some(Word::Alone(Name::Nop))
    } else if is(word, b"return") {
        Some(Word::Alone(Name::Return))
    } else if is(word, b"drop") {
        Some(Word::Alone(Name::Drop))
    } else if is(word, b"select") {
        Some(Word::Alone(Name::Select))
    } else if is(word, b"memory.size") {
        Some(Word::Alone(Name::MemorySize))
    } else if is(word, b"memory.grow") {
        Some(Word::Alone(Name::MemoryGrow))
    } else {
        indexed_of(word)
    }
}

/// A word before an index.
fn indexed_of(word: &[u8]) -> Option<Word>
    ensures { meant_by result ≡ lookup (bytes_eq word.now) (drop 7 alone_words) }
{
    if is(word, b"br") {
        Some(Word::Alone(Name::Indexed(Indexed::Br)))
    } else if is(word, b"br_if") {
        Some(Word::Alone(Name::Indexed(Indexed::BrIf)))
    } else if is(word, b"call") {
        Some(Word::Alone(Name::Indexed(Indexed::Call)))
    } else if is(word, b"local.get") {
        Some(Word::Alone(Name::Indexed(Indexed::LocalGet)))
    } else if is(word, b"local.set") {
        Some(Word::Alone(Name::Indexed(Indexed::LocalSet)))
    } else if is(word, b"local.tee") {
        Some(Word::Alone(Name::Indexed(Indexed::LocalTee)))
    } else if is(word, b"global.get") {
        Some(Word::Alone(Name::Indexed(Indexed::GlobalGet)))
    } else if is(word, b"global.set") {
        Some(Word::Alone(Name::Indexed(Indexed::GlobalSet)))
    } else {
        other_of(word)
    }
}

/// Any other word of control.
fn other_of(word: &[u8]) -> Option<Word>
    ensures { meant_by result ≡ lookup (bytes_eq word.now) (drop 15 alone_words) }
{
    if is(word, b"i32.const") {
        Some(Word::Alone(Name::ConstI32))
    } else if is(word, b"i64.const") {
        Some(Word::Alone(Name::ConstI64))
    } else if is(word, b"br_table") {
        Some(Word::Alone(Name::BrTable))
    } else if is(word, b"call_indirect") {
        Some(Word::Alone(Name::CallIndirect))
    } else if is(word, b"block") {
        Some(Word::Opens(Opener::Block))
    } else if is(word, b"loop") {
        Some(Word::Opens(Opener::Loop))
    } else if is(word, b"if") {
        Some(Word::Opens(Opener::If))
    } else if is(word, b"else") {
        Some(Word::Else)
    } else if is(word, b"end") {
        Some(Word::End)
    } else {
        None
    }
}

/// A load or a store.
#[tactic(auto, using(crate::proofs::WordTables::memory_laws))]
fn memory_of(word: &[u8]) -> Option<Word>
    ensures { meant_by result ≡ lookup (bytes_eq word.now) (load_words ++ store_words) }
{
    match load_of(word) {
        Some(op) => Some(Word::Alone(Name::Load(op))),
        None => match store_of(word) {
            Some(op) => Some(Word::Alone(Name::Store(op))),
            None => None,
        },
    }
}

/// What a word means among instructions.
#[tactic(auto, using(crate::proofs::WordTables::word_laws))]
pub fn word_of(word: &[u8]) -> Option<Word>
    ensures { meant_by result ≡ meaning word.now }
{
    match control_of(word) {
        Some(found) => Some(found),
        None => match number_of(word) {
            Some(op) => Some(Word::Alone(Name::Num(op))),
            None => memory_of(word),
        },
    }
}
