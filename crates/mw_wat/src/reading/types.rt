// Types of values and of functions.

ghost use Rattle.std.specs.Prelude.{◌≡◌, [], ◌∷◌, IfOk};
ghost use Rattle.mw_wat.specs.Reading.{
  all_of,
  as_type as as_type_here,
  got,
  some_of,
  types_and_close as types_and_close_here,
};
ghost use Rattle.mw_wat.specs.Instructions.{block_type as block_type_here, result as result_here};
ghost use Rattle.mw_wat.specs.Modules.{
  function_type as function_type_here,
  params_then as params_then_here,
  results as results_here,
  with_params as with_params_here,
};
ghost use Rattle.mw_wat.specs.Cursors.{Gives, joined, tokens_at};
ghost use Rattle.mw_wat.specs.Parts.{locals as locals_here, signature as signature_here};

use crate::reading::cursor::{Cursor, Read};
use crate::reading::lexer::next_token;
use crate::reading::singles::{as_type, closing, if_opened, if_word, opening, this, value_type};
use mw_wasm::{FuncType, ValType, ValTypes};
use std::alloc::{AllocError, Global};

/// These types and all that follow.
#[tactic(auto, using(crate::proofs::CursorLoops::all_laws))]
fn all_types(types: ValTypes, cursor: Cursor) -> Read<ValTypes>
    ensures { Gives (λ x. got x.0 (tokens_at x.1)) result
        (joined types (all_of as_type_here (tokens_at cursor.entry))) }
{
    let mut list = types;
    let mut left = cursor;
    loop {
        match next_token(left) {
            Err(e) => return Err(e),
            Ok((token, rest)) => match as_type(token) {
                None => return Ok((list, left)),
                Some(kind) => {
                    list.push(kind)?;
                    left = rest;
                }
            },
        }
    }
}

/// These types and at most so many that follow.
#[tactic(auto, using(crate::proofs::CursorLoops::some_laws))]
fn some_types(types: ValTypes, cursor: Cursor, most: u32) -> Read<ValTypes>
    ensures { Gives (λ x. got x.0 (tokens_at x.1)) result
        (joined types (some_of most as_type_here (tokens_at cursor.entry))) }
{
    let mut list = types;
    let mut left = cursor;
    for n in 0..most {
        match next_token(left) {
            Err(e) => return Err(e),
            Ok((token, rest)) => match as_type(token) {
                None => return Ok((list, left)),
                Some(kind) => {
                    list.push(kind)?;
                    left = rest;
                }
            },
        }
    }
    Ok((list, left))
}

/// A list of one type.
fn one_type(alloc: Global, kind: ValType) -> Result<ValTypes, AllocError>
    ensures { IfOk result (λ list. list ≡ kind ∷ []) }
{
    let mut types = ValTypes::new(alloc);
    types.push(kind)?;
    Ok(types)
}

/// Types, at least one, and `)`.
#[tactic(auto, using(crate::proofs::CursorLoops::types_closed))]
fn types_and_close(alloc: Global, cursor: Cursor) -> Read<ValTypes>
    ensures { Gives (λ x. got x.0 (tokens_at x.1)) result
        (types_and_close_here (all_of as_type_here) (tokens_at cursor.entry)) }
{
    let (first, rest) = value_type(cursor)?;
    let (types, rest) = all_types(one_type(alloc, first)?, rest)?;
    let (_, rest) = closing(rest)?;
    Ok((types, rest))
}

/// Types, at least one and at most so many beside it, and `)`.
#[tactic(auto, using(crate::proofs::CursorLoops::types_closed))]
fn some_types_and_close(alloc: Global, cursor: Cursor, most: u32) -> Read<ValTypes>
    ensures { Gives (λ x. got x.0 (tokens_at x.1)) result
        (types_and_close_here (some_of most as_type_here) (tokens_at cursor.entry)) }
{
    let (first, rest) = value_type(cursor)?;
    let (types, rest) = some_types(one_type(alloc, first)?, rest, most)?;
    let (_, rest) = closing(rest)?;
    Ok((types, rest))
}

/// The further locals of a function, where there are any.
#[tactic(auto, using(crate::proofs::CursorReaders::choice_laws))]
pub fn locals(alloc: Global, cursor: Cursor) -> Read<ValTypes>
    ensures { Gives (λ x. got x.0 (tokens_at x.1)) result (locals_here (tokens_at cursor.entry)) }
{
    let (opened, rest) = if_opened(cursor)?;
    if opened {
        let (_, rest) = this(rest, b"local")?;
        return some_types_and_close(alloc, rest, 49_999);
    }
    Ok((ValTypes::new(alloc), rest))
}

/// A result, behind its `(`.
fn result_type(cursor: Cursor) -> Read<ValType>
    ensures { Gives (λ x. got x.0 (tokens_at x.1)) result (result_here (tokens_at cursor.entry)) }
{
    let (_, rest) = this(cursor, b"result")?;
    let (kind, rest) = value_type(rest)?;
    let (_, rest) = closing(rest)?;
    Ok((kind, rest))
}

/// The type of a block.
#[tactic(auto, using(crate::proofs::CursorReaders::choice_laws))]
pub fn block_type(cursor: Cursor) -> Read<Option<ValType>>
    ensures { Gives (λ x. got x.0 (tokens_at x.1)) result
        (block_type_here (tokens_at cursor.entry)) }
{
    let (opened, rest) = if_opened(cursor)?;
    if !opened {
        return Ok((None, rest));
    }
    let (kind, rest) = result_type(rest)?;
    Ok((Some(kind), rest))
}

/// The result of a function's type, behind its `(`.
fn results(alloc: Global, cursor: Cursor) -> Read<ValTypes>
    ensures { Gives (λ x. got x.0 (tokens_at x.1)) result (results_here (tokens_at cursor.entry)) }
{
    let (kind, rest) = result_type(cursor)?;
    Ok((one_type(alloc, kind)?, rest))
}

/// What stands behind the parameters of a function's type.
#[tactic(auto, using(crate::proofs::CursorReaders::choice_laws))]
fn params_then(alloc: Global, params: ValTypes, cursor: Cursor) -> Read<FuncType>
    ensures { Gives (λ x. got x.0 (tokens_at x.1)) result
        (params_then_here params (tokens_at cursor.entry)) }
{
    let (opened, rest) = if_opened(cursor)?;
    if opened {
        let (results, rest) = results(alloc, rest)?;
        let (_, rest) = closing(rest)?;
        return Ok((FuncType { params, results }, rest));
    }
    let (_, rest) = closing(rest)?;
    let results = ValTypes::new(alloc);
    Ok((FuncType { params, results }, rest))
}

/// The parameters and the result, or the result alone, behind the first `(`.
fn with_params(alloc: Global, cursor: Cursor) -> Read<FuncType>
    ensures { Gives (λ x. got x.0 (tokens_at x.1)) result
        (with_params_here (tokens_at cursor.entry)) }
{
    let (found, rest) = if_word(cursor, b"param")?;
    if found {
        let (params, rest) = types_and_close(alloc, rest)?;
        return params_then(alloc, params, rest);
    }
    let (results, rest) = results(alloc, rest)?;
    let (_, rest) = closing(rest)?;
    let params = ValTypes::new(alloc);
    Ok((FuncType { params, results }, rest))
}

/// What stands behind `func`, with its `)`.
#[tactic(auto, using(crate::proofs::CursorReaders::choice_laws))]
fn signature(alloc: Global, cursor: Cursor) -> Read<FuncType>
    ensures { Gives (λ x. got x.0 (tokens_at x.1)) result
        (signature_here (tokens_at cursor.entry)) }
{
    let (opened, rest) = if_opened(cursor)?;
    if opened {
        return with_params(alloc, rest);
    }
    let (_, rest) = closing(rest)?;
    let params = ValTypes::new(alloc);
    let results = ValTypes::new(alloc);
    Ok((FuncType { params, results }, rest))
}

/// The type of a function, behind the word `type`.
pub fn function_type(alloc: Global, cursor: Cursor) -> Read<FuncType>
    ensures { Gives (λ x. got x.0 (tokens_at x.1)) result
        (function_type_here (tokens_at cursor.entry)) }
{
    let (_, rest) = opening(cursor)?;
    let (_, rest) = this(rest, b"func")?;
    let (kind, rest) = signature(alloc, rest)?;
    let (_, rest) = closing(rest)?;
    Ok((kind, rest))
}
