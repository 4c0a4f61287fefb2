// Whole modules.

ghost use Rattle.std.specs.Prelude.{◌≡◌, codes};
ghost use Rattle.mw_wasm.specs.Views.{module_of};
ghost use Rattle.mw_wat.specs.Reading.{got};
ghost use Rattle.mw_wat.specs.Modules.{
  fields as fields_here,
  function_type,
  no_more as no_more_here,
  whole_module,
};
ghost use Rattle.mw_wat.specs.Chain.{module_chain};
ghost use Rattle.mw_wat.specs.Cursors.{Gives, tokens_at};
ghost use Rattle.mw_wat.specs.Parts.{listed_fields};

use crate::reading::cursor::{Cursor, Fault, Read};
use crate::reading::fields::{fields, next_field};
use crate::reading::parts::{memories, tables};
use crate::reading::singles::{opening, this};
use mw_wasm::{Element, Export, Func, FuncType, FuncTypes, GlobalVar, Module, Segment};
use std::alloc::Global;

/// The types, where one is opened, and whether another field is opened behind them.
#[tactic(auto, using(crate::proofs::Chains::same_items))]
fn types(alloc: Global, cursor: Cursor, opened: bool) -> Read<(FuncTypes, bool)>
    ensures { Gives (λ x. got (listed_fields x.0.0 x.0.1) (tokens_at x.1)) result
        (fields_here (codes "type") function_type opened (tokens_at cursor.entry)) }
{
    let ((list, more), rest) = fields::<FuncType>(alloc, b"type", cursor, opened)?;
    Ok(((list, more), rest))
}

/// Nothing, where no further field is opened.
fn no_more(cursor: Cursor, opened: bool) -> Read<()>
    ensures { Gives (λ x. got tt (tokens_at x.1)) result
        (no_more_here opened (tokens_at cursor.entry)) }
{
    if opened {
        return Err(Fault::Bad(cursor));
    }
    Ok(((), cursor))
}

/// A module, field by field.
fn chain(alloc: Global, cursor: Cursor) -> Read<Module>
    ensures { Gives (λ x. got (module_of x.0) (tokens_at x.1)) result
        (module_chain (tokens_at cursor.entry)) }
{
    let (_, rest) = opening(cursor)?;
    let (_, rest) = this(rest, b"module")?;
    let (opened, rest) = next_field(rest)?;
    let ((types, opened), rest) = types(alloc, rest, opened)?;
    let ((funcs, opened), rest) = fields::<Func>(alloc, b"func", rest, opened)?;
    let ((table, opened), rest) = tables(rest, opened)?;
    let ((memory, opened), rest) = memories(rest, opened)?;
    let ((globals, opened), rest) = fields::<GlobalVar>(alloc, b"global", rest, opened)?;
    let ((exports, opened), rest) = fields::<Export>(alloc, b"export", rest, opened)?;
    let ((elements, opened), rest) = fields::<Element>(alloc, b"elem", rest, opened)?;
    let ((segments, opened), rest) = fields::<Segment>(alloc, b"data", rest, opened)?;
    let (_, rest) = no_more(rest, opened)?;
    Ok((
        Module {
            types,
            funcs,
            table,
            memory,
            globals,
            exports,
            elements,
            segments,
        },
        rest,
    ))
}

/// A module.
pub fn whole(alloc: Global, cursor: Cursor) -> Read<Module>
    ensures { Gives (λ x. got (module_of x.0) (tokens_at x.1)) result
        (whole_module (tokens_at cursor.entry)) }
{
    chain(alloc, cursor)
}
