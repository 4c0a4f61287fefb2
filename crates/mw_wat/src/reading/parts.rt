// What the fields of a module say, behind their words.

ghost use Rattle.std.specs.Prelude.{◌≡◌, ◌&&◌, codes, nat_le};
ghost use Rattle.mw_wasm.specs.declared.modules.FuncType.{FuncType as PureType};
ghost use Rattle.mw_wasm.specs.Syntax.{
  DataSegment,
  ElementSegment,
  Exporting,
  Function,
  Global as PureGlobal,
};
ghost use Rattle.mw_wasm.specs.Views.{code_of, element_of, export_of, function_of, global_of, segment_of};
ghost use Rattle.mw_wat.specs.Reading.{got, one_of};
ghost use Rattle.mw_wat.specs.Modules.{
  are_printable as are_printable_here,
  as_kind as as_kind_here,
  as_name,
  as_string,
  data_segment as segment_here,
  element as element_here,
  export as export_here,
  function as function_here,
  function_type as function_type_here,
  global as global_here,
  limits as limits_here,
  memory as memory_here,
  offset as offset_here,
  table as table_here,
};
ghost use Rattle.mw_wat.specs.Cursors.{Gives, tokens_at, token_of};
ghost use Rattle.mw_wat.specs.Exports.{exporting};
ghost use Rattle.mw_wat.specs.Parts.{global_type as global_type_here, maximum as maximum_here, single};
ghost use Rattle.mw_wat.specs.Steps.{option_of};

use crate::reading::code::expression;
use crate::reading::cursor::{Cursor, Fault, Read};
use crate::reading::fields::{TextField, next_field};
use crate::reading::instructions::all_indices;
use crate::reading::lexer::{Token, next_token, string_content};
use crate::reading::numbers::as_number;
use crate::reading::singles::{
    at_most, closing, if_opened, if_word, index, opening, this, value_type,
};
use crate::reading::types::{function_type, locals};
use crate::reading::words::is;
use mw_wasm::{
    Element, Export, Exported, Func, FuncType, GlobalVar, Instrs, Limits, Octets, Segment, ValType,
};
use std::alloc::Global;

/// What an export gives, without its index.
#[derive(Clone, Copy, Debug)]
pub enum Kind {
    Func,
    Table,
    Memory,
    Global,
}

/// A function, behind its word.
fn function(alloc: Global, cursor: Cursor) -> Read<Func>
    ensures { Gives (λ x. got (function_of x.0) (tokens_at x.1)) result
        (function_here (tokens_at cursor.entry)) }
{
    let (_, rest) = opening(cursor)?;
    let (_, rest) = this(rest, b"type")?;
    let (kind, rest) = index(rest)?;
    let (_, rest) = closing(rest)?;
    let (locals, rest) = locals(alloc, rest)?;
    let (body, rest) = expression(alloc, rest)?;
    Ok((Func { kind, locals, body }, rest))
}

/// Limits, whose minimum is at most this.
fn limits(cursor: Cursor, most: u32) -> Read<Limits>
    ensures { Gives (λ x. got x.0 (tokens_at x.1)) result
        (limits_here most (tokens_at cursor.entry)) }
{
    let (min, rest) = at_most(cursor, most)?;
    let (max, rest) = maximum(rest)?;
    Ok((Limits { min, max }, rest))
}

/// The maximum of limits, where a number comes next.
#[tactic(auto, using(crate::proofs::PartReaders::maximum_laws))]
fn maximum(cursor: Cursor) -> Read<Option<u32>>
    ensures { Gives (λ x. got x.0 (tokens_at x.1)) result (maximum_here (tokens_at cursor.entry)) }
{
    let (token, rest) = next_token(cursor)?;
    match as_number(token, u32::MAX) {
        Some(max) => Ok((Some(max), rest)),
        None => Ok((None, cursor)),
    }
}

/// A table, behind its word.
fn table(cursor: Cursor) -> Read<Limits>
    ensures { Gives (λ x. got x.0 (tokens_at x.1)) result (table_here (tokens_at cursor.entry)) }
{
    let (bounds, rest) = limits(cursor, 100_000)?;
    let (_, rest) = this(rest, b"funcref")?;
    let (_, rest) = closing(rest)?;
    Ok((bounds, rest))
}

/// A memory, behind its word.
fn memory(cursor: Cursor) -> Read<Limits>
    ensures { Gives (λ x. got x.0 (tokens_at x.1)) result (memory_here (tokens_at cursor.entry)) }
{
    let (bounds, rest) = limits(cursor, 1_024)?;
    let (_, rest) = closing(rest)?;
    Ok((bounds, rest))
}

/// The table, where its field comes next, and whether another field is opened behind it.
pub fn tables(cursor: Cursor, opened: bool) -> Read<(Option<Limits>, bool)>
    ensures { Gives (λ x. got x.0 (tokens_at x.1)) result
        (single (codes "table") table_here opened (tokens_at cursor.entry)) }
{
    if !opened {
        return Ok(((None, false), cursor));
    }
    let (found, rest) = if_word(cursor, b"table")?;
    if !found {
        return Ok(((None, true), rest));
    }
    let (bounds, rest) = table(rest)?;
    let (more, rest) = next_field(rest)?;
    Ok(((Some(bounds), more), rest))
}

/// The memory, where its field comes next, and whether another field is opened behind it.
pub fn memories(cursor: Cursor, opened: bool) -> Read<(Option<Limits>, bool)>
    ensures { Gives (λ x. got x.0 (tokens_at x.1)) result
        (single (codes "memory") memory_here opened (tokens_at cursor.entry)) }
{
    if !opened {
        return Ok(((None, false), cursor));
    }
    let (found, rest) = if_word(cursor, b"memory")?;
    if !found {
        return Ok(((None, true), rest));
    }
    let (bounds, rest) = memory(rest)?;
    let (more, rest) = next_field(rest)?;
    Ok(((Some(bounds), more), rest))
}

/// The type of a global, and whether it is a variable.
#[tactic(auto, using(crate::proofs::CursorReaders::choice_laws))]
fn global_type(cursor: Cursor) -> Read<(ValType, bool)>
    ensures { Gives (λ x. got x.0 (tokens_at x.1)) result
        (global_type_here (tokens_at cursor.entry)) }
{
    let (opened, rest) = if_opened(cursor)?;
    if opened {
        let (_, rest) = this(rest, b"mut")?;
        let (kind, rest) = value_type(rest)?;
        let (_, rest) = closing(rest)?;
        return Ok(((kind, true), rest));
    }
    let (kind, rest) = value_type(rest)?;
    Ok(((kind, false), rest))
}

/// A global, behind its word.
fn global(alloc: Global, cursor: Cursor) -> Read<GlobalVar>
    ensures { Gives (λ x. got (global_of x.0) (tokens_at x.1)) result
        (global_here (tokens_at cursor.entry)) }
{
    let ((kind, variable), rest) = global_type(cursor)?;
    let (init, rest) = expression(alloc, rest)?;
    Ok((
        GlobalVar {
            kind,
            variable,
            init,
        },
        rest,
    ))
}

fn is_printable(byte: u8) -> bool
    ensures { result ≡ (nat_le 0x20 byte && nat_le byte 0x7E) }
{
    byte >= 0x20 && byte <= 0x7e
}

/// Whether all bytes are printable.
#[tactic(auto, using(crate::proofs::PartReaders::printable_laws))]
fn are_printable(bytes: &[u8]) -> bool
    ensures { result ≡ are_printable_here bytes.now }
{
    for (n, byte) in bytes.iter().enumerate() {
        if !is_printable(*byte) {
            return false;
        }
    }
    true
}

/// A string's bytes.
#[tactic(auto, using(crate::proofs::CursorReaders::single_laws))]
fn string(alloc: Global, cursor: Cursor) -> Read<Octets>
    ensures { Gives (λ x. got x.0 (tokens_at x.1)) result
        (one_of as_string (tokens_at cursor.entry)) }
{
    let (token, rest) = next_token(cursor)?;
    match token {
        Token::Quoted(inside) => {
            let bytes = string_content(alloc, inside)?;
            Ok((bytes, rest))
        }
        Token::Left | Token::Right | Token::Word(_) => Err(Fault::Bad(cursor)),
    }
}

/// A name: a string of printable bytes.
#[tactic(auto, using(crate::proofs::PartReaders::name_laws))]
fn name(alloc: Global, cursor: Cursor) -> Read<Octets>
    ensures { Gives (λ x. got x.0 (tokens_at x.1)) result
        (one_of as_name (tokens_at cursor.entry)) }
{
    let (bytes, rest) = string(alloc, cursor)?;
    if are_printable(bytes.as_slice()) {
        Ok((bytes, rest))
    } else {
        Err(Fault::Bad(cursor))
    }
}

/// What a token says that is exported.
fn as_kind(token: Token) -> Option<Kind>
    ensures { option_of exporting result ≡ as_kind_here (token_of token.entry) }
{
    match token {
        Token::Word(word) => {
            if is(word, b"func") {
                Some(Kind::Func)
            } else if is(word, b"table") {
                Some(Kind::Table)
            } else if is(word, b"memory") {
                Some(Kind::Memory)
            } else if is(word, b"global") {
                Some(Kind::Global)
            } else {
                None
            }
        }
        Token::Left | Token::Right | Token::Quoted(_) => None,
    }
}

/// What is exported, without its index.
#[tactic(auto, using(crate::proofs::CursorReaders::single_laws))]
fn exported_kind(cursor: Cursor) -> Read<Kind>
    ensures { Gives (λ x. got (exporting x.0) (tokens_at x.1)) result
        (one_of as_kind_here (tokens_at cursor.entry)) }
{
    let (token, rest) = next_token(cursor)?;
    match as_kind(token) {
        Some(kind) => Ok((kind, rest)),
        None => Err(Fault::Bad(cursor)),
    }
}

/// What this kind and index export.
fn exported(kind: Kind, index: u32) -> Exported
    ensures { result ≡ exporting kind index }
{
    match kind {
        Kind::Func => Exported::Func(index),
        Kind::Table => Exported::Table(index),
        Kind::Memory => Exported::Memory(index),
        Kind::Global => Exported::Global(index),
    }
}

/// An export, behind its word.
fn export(alloc: Global, cursor: Cursor) -> Read<Export>
    ensures { Gives (λ x. got (export_of x.0) (tokens_at x.1)) result
        (export_here (tokens_at cursor.entry)) }
{
    let (name, rest) = name(alloc, cursor)?;
    let (_, rest) = opening(rest)?;
    let (kind, rest) = exported_kind(rest)?;
    let (index, rest) = index(rest)?;
    let (_, rest) = closing(rest)?;
    let (_, rest) = closing(rest)?;
    let what = exported(kind, index);
    Ok((Export { name, what }, rest))
}

/// Where a segment begins.
fn offset(alloc: Global, cursor: Cursor) -> Read<Instrs>
    ensures { Gives (λ x. got (code_of x.0) (tokens_at x.1)) result
        (offset_here (tokens_at cursor.entry)) }
{
    let (_, rest) = opening(cursor)?;
    let (_, rest) = this(rest, b"offset")?;
    let (code, rest) = expression(alloc, rest)?;
    Ok((code, rest))
}

/// An element segment, behind its word.
fn element(alloc: Global, cursor: Cursor) -> Read<Element>
    ensures { Gives (λ x. got (element_of x.0) (tokens_at x.1)) result
        (element_here (tokens_at cursor.entry)) }
{
    let (offset, rest) = offset(alloc, cursor)?;
    let (funcs, rest) = all_indices(alloc, rest)?;
    let (_, rest) = closing(rest)?;
    Ok((Element { offset, funcs }, rest))
}

/// A data segment, behind its word.
fn segment(alloc: Global, cursor: Cursor) -> Read<Segment>
    ensures { Gives (λ x. got (segment_of x.0) (tokens_at x.1)) result
        (segment_here (tokens_at cursor.entry)) }
{
    let (offset, rest) = offset(alloc, cursor)?;
    let (bytes, rest) = string(alloc, rest)?;
    let (_, rest) = closing(rest)?;
    Ok((Segment { offset, bytes }, rest))
}

impl TextField for FuncType {
    ghost Seen = { PureType };

    ghost seen = { λ kind. kind };

    ghost reader = { function_type_here };

    fn read(alloc: Global, cursor: Cursor) -> Read<Self> {
        function_type(alloc, cursor)
    }
}

impl TextField for Func {
    ghost Seen = { Function };

    ghost seen = { function_of };

    ghost reader = { function_here };

    fn read(alloc: Global, cursor: Cursor) -> Read<Self> {
        function(alloc, cursor)
    }
}

impl TextField for GlobalVar {
    ghost Seen = { PureGlobal };

    ghost seen = { global_of };

    ghost reader = { global_here };

    fn read(alloc: Global, cursor: Cursor) -> Read<Self> {
        global(alloc, cursor)
    }
}

impl TextField for Export {
    ghost Seen = { Exporting };

    ghost seen = { export_of };

    ghost reader = { export_here };

    fn read(alloc: Global, cursor: Cursor) -> Read<Self> {
        export(alloc, cursor)
    }
}

impl TextField for Element {
    ghost Seen = { ElementSegment };

    ghost seen = { element_of };

    ghost reader = { element_here };

    fn read(alloc: Global, cursor: Cursor) -> Read<Self> {
        element(alloc, cursor)
    }
}

impl TextField for Segment {
    ghost Seen = { DataSegment };

    ghost seen = { segment_of };

    ghost reader = { segment_here };

    fn read(alloc: Global, cursor: Cursor) -> Read<Self> {
        segment(alloc, cursor)
    }
}
