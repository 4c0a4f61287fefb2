// What is told of a program that is refused for its types.

ghost use Rattle.std.specs.Prelude.{length, IfOk, IfSome};
ghost use Rattle.mw_term.specs.Programs.{program_of};
ghost use Rattle.mw_term.specs.Parts.{IsResolved};
ghost use Rattle.mw_term.specs.declared.refusal.Refusal.{Refusal};
ghost use Rattle.mw_infer.specs.Checking.{IsFirstRefusal};
ghost use Rattle.mw_infer.specs.Failing.{IsWhole};
ghost use Rattle.mw_infer.specs.declared.faults.PartFault.TheVariants.{Close as Closes, Equations as Fails};
ghost use Rattle.mw_explain.specs.Placing.{ArePlaced};
ghost use Rattle.mw_explain.specs.Telling.{IsTold, Tells, TellsOrMemory};
ghost use Rattle.mw_explain.specs.declared.telling.Told.TheVariants.{Close, Types};

use crate::binders::{close_at, name_around};
use crate::forms::{Node, Span};
use crate::placing::{all_within, within};
use crate::repairs::repairs;
use crate::spans::{PartSpans, fits, spans};
use mw_infer::{FailingPart, OpenClose, PartFault, first_fault};
use mw_lex::lex;
use mw_term::{ItemKind, Program, Stop, Term};
use mw_types::Ty;
use std::alloc::{AllocError, Global};

/// Two types that should be one. Places that aren't known are left out.
#[derive(Debug, Drop)]
pub struct Unmet {
    /// The index of the item, or of main, which comes after the items.
    pub part: u32,
    /// The node whose equation it is, by its number in the part's pre-order. What the part's place asks is no node's.
    pub node: Option<usize>,
    /// The expression that asks for it: that of the node, and the whole part where it is no node's.
    pub span: Option<Span>,
    pub left: Ty,
    pub right: Ty,
    /// The smallest expressions that, replaced by one of any type, make the part typed.
    pub repairs: Vec<Span>,
}

/// A `close` of code that may use a variable from outside. Places that aren't known are left out.
#[derive(Clone, Copy, Debug)]
pub struct Unclosed {
    /// The index of the item, or of main, which comes after the items.
    pub part: u32,
    /// The offset of the `close`.
    pub at: u32,
    /// The number of binders between the `close` and one that keeps it open: the nearest of those that are named in its
    /// code, or the nearest of all where none of them is.
    pub binder: usize,
    /// The whole `close e`.
    pub span: Option<Span>,
    /// The name of that binder.
    pub name: Option<Span>,
}

/// What is told of a refusal of types.
#[derive(Debug, Drop)]
pub enum Told {
    Types(Unmet),
    Close(Unclosed),
}

/// The term of a part.
fn part_term(program: &Program, part: usize) -> &Term {
    match program.items.as_slice().get(part) {
        None => &program.body,
        Some(item) => match &item.kind {
            ItemKind::Value(term) | ItemKind::Kernel(_, term) => term,
        },
    }
}

/// The nodes of a part as the source has them, or none where they aren't known.
fn part_nodes(
    alloc: Global,
    bytes: &[u8],
    program: &Program,
    part: u32,
) -> Result<PartSpans, AllocError> {
    let unknown = PartSpans {
        nodes: Vec::new(alloc),
    };
    let tokens = match lex(alloc, bytes) {
        Ok(tokens) => tokens,
        Err(Stop::Memory(error)) => return Err(error),
        Err(Stop::Refused(_)) => return Ok(unknown),
    };
    let Some(parts) = spans(alloc, tokens.as_slice())? else {
        return Ok(unknown);
    };
    for (at, found) in parts.into_iter().enumerate() {
        if at == part as usize && fits(part_term(program, at), found.nodes.as_slice()) {
            return Ok(found);
        }
    }
    Ok(unknown)
}

/// The place of a node.
fn place(nodes: &[Node], at: usize) -> Option<Span> {
    Some(nodes.get(at)?.span)
}

/// What is told of equations that fail. What the part's place asks is asked of the whole.
fn tell_unmet(
    alloc: Global,
    failing: &FailingPart,
    nodes: &[Node],
    length: usize,
) -> Result<Told, AllocError>
    requires { IsWhole failing.now }
    ensures tells { IfOk result (Tells (Fails failing.now)) }
    ensures placed { IfOk result (ArePlaced length) }
{
    let node = failing.node();
    let (left, right) = failing.sides(alloc)?;
    let repairs = repairs(alloc, failing, nodes)?;
    let repairs = all_within(alloc, repairs.as_slice(), length)?;
    Ok(Told::Types(Unmet {
        part: failing.part,
        node,
        span: within(place(nodes, node.unwrap_or(0)), length),
        left,
        right,
        repairs,
    }))
}

/// What is told of a `close`.
fn tell_unclosed(close: &OpenClose, nodes: &[Node], length: usize) -> Told
    ensures tells { Tells (Closes close.now) result }
    ensures placed { ArePlaced length result }
{
    let found = close_at(nodes, close.at);
    Told::Close(Unclosed {
        part: close.part,
        at: close.at,
        binder: close.binder,
        span: within(found.and_then(|at| place(nodes, at)), length),
        name: within(
            found.and_then(|at| name_around(nodes, at, close.binder)),
            length,
        ),
    })
}

/// What is told of the types of a program with this source, where it is refused for them.
pub fn tell(alloc: Global, bytes: &[u8], program: &Program) -> Result<Option<Told>, AllocError>
    requires { IsResolved (program_of program.now) }
    ensures told { IfOk result (λ found. IfSome found (IsTold (program_of program.now))) }
    ensures some { (r : Refusal) → IsFirstRefusal (program_of program.now) r
        → TellsOrMemory result }
    ensures placed { IfOk result (λ found. IfSome found (ArePlaced (length bytes.now))) }
{
    match first_fault(alloc, program)? {
        None => Ok(None),
        Some(PartFault::Equations(failing)) => {
            let part = part_nodes(alloc, bytes, program, failing.part)?;
            Ok(Some(tell_unmet(alloc, &failing, part.nodes.as_slice(), bytes.len())?))
        }
        Some(PartFault::Close(close)) => {
            let part = part_nodes(alloc, bytes, program, close.part)?;
            Ok(Some(tell_unclosed(&close, part.nodes.as_slice(), bytes.len())))
        }
    }
}
