// The lines of the output.

ghost use Rattle.std.specs.Prelude.{◌≡◌, ◌++◌, codes, map, IfOk};
ghost use Rattle.std.specs.String.{string_bytes};
ghost use Rattle.hex.specs.Hex.{encode_lower};
ghost use Rattle.mw_term.specs.Terms.{ground_of, kernel_type_of, ground_value_of, base_value_of};
ghost use Rattle.mw_term.specs.declared.program.Item.{Item as PureItem};
ghost use Rattle.mw_console.specs.Texts.{answered, trapped, bounded, base_text, ground_text, left_text, kind_text};
ghost use Rattle.mw_console.specs.Texts.{kernel_text, kernel_line, digits_line, limit_words, trap_words, ending_line};
ghost use Rattle.mw_console.specs.Texts.{total_line, totals_text, migrated_text, name_at, in_line, at_line, named_line};
ghost use Rattle.mw_console.specs.Texts.{refusal_line, typing_line, value_text};

use mw_term::{Base, BaseValue, Ground, GroundValue, Item, KType, Limit, Refusal, TrapKind};
use std::alloc::{AllocError, Global};

/// The line of a refusal at a place of the source.
fn put_place_line(
    alloc: Global,
    text: &mut Vec<u8>,
    words: &[u8],
    at: u32,
) -> Result<(), AllocError>
    ensures { IfOk result (λ _. text.new.items ≡ text.old.items ++ at_line words.now at) }
{
    put(text, b"refused ")?;
    put(text, words)?;
    put(text, b" at ")?;
    let place = format!(in alloc; "{at}")?;
    put(text, place.as_bytes())?;
    put(text, b"\n")
}

/// The name of the item at an index, or `main` for their number.
fn name_of(items: &[Item], index: u32) -> &[u8]
    ensures { result.now ≡ name_at (map (λ (i : PureItem). i.name) items.now) index }
{
    match items.get(index as usize) {
        Some(item) => item.name.as_slice(),
        None => b"main",
    }
}

/// A line that ends with an item's name.
fn put_in(text: &mut Vec<u8>, first: &[u8], words: &[u8], name: &[u8]) -> Result<(), AllocError>
    ensures { IfOk result
        (λ _. text.new.items ≡ text.old.items ++ named_line first.now words.now name.now) }
{
    put(text, first)?;
    put(text, words)?;
    put(text, b" in ")?;
    put(text, name)?;
    put(text, b"\n")
}

/// The line of a refusal in an item.
fn put_item_line(text: &mut Vec<u8>, words: &[u8], name: &[u8]) -> Result<(), AllocError>
    ensures { IfOk result (λ _. text.new.items ≡ text.old.items ++ in_line words.now name.now) }
{
    put_in(text, b"refused ", words, name)
}

/// The line of a refusal, where a program was read with its items.
pub fn put_refusal(
    alloc: Global,
    text: &mut Vec<u8>,
    refusal: Refusal,
    items: &[Item],
) -> Result<(), AllocError>
    ensures { IfOk result
        (λ _. text.new.items ≡ text.old.items ++ refusal_line (map (λ (i : PureItem). i.name) items.now) refusal) }
{
    match refusal {
        Refusal::IllTyped(item) => put_item_line(text, b"12 type", name_of(items, item)),
        Refusal::TypeTooBig(item) => put_item_line(text, b"13 type too big", name_of(items, item)),
        Refusal::TooLarge => put(text, b"refused 1 too large\n"),
        Refusal::TooMany => put(text, b"refused 7 too many items\n"),
        Refusal::Char(at) => put_place_line(alloc, text, b"2 character", at),
        Refusal::Number(at) => put_place_line(alloc, text, b"3 number", at),
        Refusal::Name(at) => put_place_line(alloc, text, b"4 name", at),
        Refusal::Syntax(at) => put_place_line(alloc, text, b"5 syntax", at),
        Refusal::TooDeep(at) => put_place_line(alloc, text, b"6 too deep", at),
        Refusal::Unbound(at) => put_place_line(alloc, text, b"8 unbound", at),
        Refusal::Twice(at) => put_place_line(alloc, text, b"9 bound twice", at),
        Refusal::NotValue(at) => put_place_line(alloc, text, b"10 not a value", at),
        Refusal::Level(at) => put_place_line(alloc, text, b"11 level", at),
        Refusal::NotClosed(at) => put_place_line(alloc, text, b"14 not closed", at),
    }
}

/// More text.
fn put(text: &mut Vec<u8>, more: &[u8]) -> Result<(), AllocError>
    ensures { IfOk result (λ _. text.new.items ≡ text.old.items ++ more.now) }
{
    text.extend_from_slice(more)?;
    Ok(())
}

/// The three lines of a kernel: its name and type, its key and its module's bytes, both in hexadecimal digits.
pub fn put_kernel(
    text: &mut Vec<u8>,
    name: &[u8],
    kind: &KType,
    key: &[u8],
    bytes: &[u8],
) -> Result<(), AllocError>
    ensures { IfOk result
        (λ _. text.new.items ≡ text.old.items ++ kernel_text name.now (kernel_type_of kind.now)
        key.now bytes.now) }
{
    put_name(text, name, kind)?;
    put_digits(text, b"key ", key)?;
    put_module(text, bytes)
}

/// The line of a module's bytes, in hexadecimal digits.
pub fn put_module(text: &mut Vec<u8>, bytes: &[u8]) -> Result<(), AllocError>
    ensures { IfOk result
        (λ _. text.new.items ≡ text.old.items ++ digits_line (codes "module ") bytes.now) }
{
    put_digits(text, b"module ", bytes)
}

/// The line of a kernel's name and type.
fn put_name(text: &mut Vec<u8>, name: &[u8], kind: &KType) -> Result<(), AllocError>
    ensures { IfOk result
        (λ _. text.new.items ≡ text.old.items ++ kernel_line name.now (kernel_type_of kind.now)) }
{
    put(text, b"kernel ")?;
    put(text, name)?;
    put(text, b" : ")?;
    put_kind(text, kind)?;
    put(text, b"\n")
}

/// The line of a word and of bytes in hexadecimal digits, which are written where they stand.
fn put_digits(text: &mut Vec<u8>, word: &[u8], bytes: &[u8]) -> Result<(), AllocError>
    ensures { IfOk result (λ _. text.new.items ≡ text.old.items ++ digits_line word.now bytes.now) }
{
    put(text, word)?;
    put_hex(text, bytes)?;
    put(text, b"\n")
}

/// Bytes in hexadecimal digits.
fn put_hex(text: &mut Vec<u8>, bytes: &[u8]) -> Result<(), AllocError>
    ensures { IfOk result (λ _. text.new.items ≡ text.old.items ++ encode_lower bytes.now) }
{
    let start = text.len();
    let end = start.saturating_add(bytes.len().saturating_mul(2));
    text.resize(end, 0)?;
    match hex::encode_to_slice(bytes, &mut text[start..]) {
        Ok(()) => Ok(()),
        Err(_) => unreachable!(),
    }
}

/// A kernel type.
fn put_kind(text: &mut Vec<u8>, kind: &KType) -> Result<(), AllocError>
    ensures { IfOk result
        (λ _. text.new.items ≡ text.old.items ++ kind_text (kernel_type_of kind.now)) }
{
    match kind {
        KType::Ground(ground) => put_ground(text, ground),
        KType::Fun(argument, result) => {
            put_ground(text, argument)?;
            put(text, b" -> ")?;
            put_ground(text, result)
        }
    }
}

/// A ground type.
#[cycle(ground)]
fn put_ground(text: &mut Vec<u8>, ground: &Ground) -> Result<(), AllocError>
    ensures { IfOk result
        (λ _. text.new.items ≡ text.old.items ++ ground_text (ground_of ground.now)) }
{
    match ground {
        Ground::Base(base) => put(text, base_word(*base)),
        Ground::Pair(left, right) => {
            put_left(text, left)?;
            put(text, b" * ")?;
            put_ground(text, right)
        }
    }
}

/// The left part of a pair, in parentheses where it is a pair itself.
#[cycle(ground)]
fn put_left(text: &mut Vec<u8>, ground: &Ground) -> Result<(), AllocError>
    ensures { IfOk result
        (λ _. text.new.items ≡ text.old.items ++ left_text (ground_of ground.now)) }
{
    match ground {
        Ground::Base(base) => put(text, base_word(*base)),
        Ground::Pair(first, second) => {
            put(text, b"(")?;
            put_left(text, first)?;
            put(text, b" * ")?;
            put_ground(text, second)?;
            put(text, b")")
        }
    }
}

/// The word of a base type.
fn base_word(base: Base) -> &'static [u8]
    ensures { result.now ≡ base_text base }
{
    match base {
        Base::Int => b"int",
        Base::Bool => b"bool",
    }
}

/// The line of an answer.
pub fn put_answer(alloc: Global, text: &mut Vec<u8>, value: &GroundValue) -> Result<(), AllocError>
    ensures { IfOk result
        (λ _. text.new.items ≡ text.old.items ++ ending_line (answered (ground_value_of value.now))) }
{
    put(text, b"answer ")?;
    put_value(alloc, text, value)?;
    put(text, b"\n")
}

/// A value: a number, a truth value, or a pair of values.
fn put_value(alloc: Global, text: &mut Vec<u8>, value: &GroundValue) -> Result<(), AllocError>
    ensures { IfOk result
        (λ _. text.new.items ≡ text.old.items ++ value_text (ground_value_of value.now)) }
{
    match value {
        GroundValue::Base(value) => put_base(alloc, text, *value),
        GroundValue::Pair(left, right) => {
            put(text, b"(")?;
            put_value(alloc, text, left)?;
            put(text, b", ")?;
            put_value(alloc, text, right)?;
            put(text, b")")
        }
    }
}

/// A number or a truth value.
fn put_base(alloc: Global, text: &mut Vec<u8>, value: BaseValue) -> Result<(), AllocError>
    ensures { IfOk result
        (λ _. text.new.items ≡ text.old.items ++ value_text (base_value_of value)) }
{
    match value {
        BaseValue::Int(number) => {
            let digits = format!(in alloc; "{number}")?;
            put(text, digits.as_bytes())
        }
        BaseValue::Bool(true) => put(text, b"true"),
        BaseValue::Bool(false) => put(text, b"false"),
    }
}

/// The line of a bound that the item of this name, or main, met.
pub fn put_bound(text: &mut Vec<u8>, limit: Limit, name: &[u8]) -> Result<(), AllocError>
    ensures { IfOk result
        (λ _. text.new.items ≡ text.old.items ++ ending_line (bounded limit name.now)) }
{
    put_in(text, b"bound ", limit_word(limit), name)
}

/// The line of a trap of the item of this name, or of main.
pub fn put_trap(text: &mut Vec<u8>, trap: TrapKind, name: &[u8]) -> Result<(), AllocError>
    ensures { IfOk result
        (λ _. text.new.items ≡ text.old.items ++ ending_line (trapped trap name.now)) }
{
    put_in(text, b"trap ", trap_word(trap), name)
}

/// The word of a trap.
fn trap_word(trap: TrapKind) -> &'static [u8]
    ensures { result.now ≡ trap_words trap }
{
    match trap {
        TrapKind::Divide => b"divide",
        TrapKind::Overflow => b"overflow",
    }
}

/// The two lines of a sample: its kernels that gave code, and the bytes of their modules.
pub fn put_totals(
    alloc: Global,
    text: &mut Vec<u8>,
    kernels: u64,
    bytes: u64,
) -> Result<(), AllocError>
    ensures { IfOk result (λ _. text.new.items ≡ text.old.items ++ totals_text kernels bytes) }
{
    put_total(alloc, text, b"kernels ", kernels)?;
    put_total(alloc, text, b"modules ", bytes)
}

/// The two lines of a migration: how many texts of the old version there are, and how many records are
/// added for them.
pub fn put_migrated(
    alloc: Global,
    text: &mut Vec<u8>,
    old: u32,
    added: u32,
) -> Result<(), AllocError>
    ensures { IfOk result (λ _. text.new.items ≡ text.old.items ++ migrated_text old added) }
{
    put_total(alloc, text, b"old ", u64::from(old))?;
    put_total(alloc, text, b"added ", u64::from(added))
}

/// The line that says whether a certificate is one of a source.
pub fn put_typing(text: &mut Vec<u8>, typed: bool) -> Result<(), AllocError>
    ensures { IfOk result (λ _. text.new.items ≡ text.old.items ++ typing_line typed) }
{
    if typed {
        put(text, b"typed\n")
    } else {
        put(text, b"not typed\n")
    }
}

/// The line of a word and a number.
fn put_total(alloc: Global, text: &mut Vec<u8>, word: &[u8], number: u64) -> Result<(), AllocError>
    ensures { IfOk result (λ _. text.new.items ≡ text.old.items ++ total_line word.now number) }
{
    let digits = format!(in alloc; "{number}\n")?;
    put(text, word)?;
    put(text, digits.as_bytes())
}

/// The words of a limit.
fn limit_word(limit: Limit) -> &'static [u8]
    ensures { result.now ≡ limit_words limit }
{
    match limit {
        Limit::Fuel => b"fuel",
        Limit::KernelSize => b"kernel size",
        Limit::Heap => b"heap",
    }
}
