// The node that each equation of an item is of, in the order of the equations.

ghost use Rattle.std.specs.Prelude.{◌≡◌, ◌≤◌, ◌<◌, ◌^◌, ◌∷◌, [], IfOk, OnOk, replicate};
ghost use Rattle.mw_term.specs.Terms.{expression_of, size};
ghost use Rattle.mw_infer.specs.Judging.{place_of};
ghost use Rattle.mw_infer.specs.Owners.{AddsOwners, AddsTermOwners, HasNumbers, item_owners, own_count};

use crate::own::Asked;
use mw_term::Term;
use std::alloc::{AllocError, Global};

/// The nodes of the equations so far, and the next node's number. An equation that is no node's has none.
#[derive(Drop)]
pub struct Owners {
    pub next: usize,
    pub nodes: Vec<Option<usize>>,
}

/// How many equations a node has of its own.
fn count_own(term: &Term, is_quoted: bool) -> usize
    ensures count { result ≡ own_count is_quoted (expression_of term.now) }
    ensures low { result ≤ 3 }
{
    match term {
        Term::Var(_) => { if is_quoted { 2 } else { 1 } }
        Term::If(_, _, _) | Term::Prim(_, _, _) => 3,
        Term::Rec(_)
        | Term::Let(_, _)
        | Term::Run(_, _)
        | Term::CloseCode(_, _)
        | Term::OpenCode(_)
        | Term::Lift(_)
        | Term::LiftB(_) => 2,
        _ => 1,
    }
}

/// Counts a node, and adds it once for each of its equations.
fn own(term: &Term, is_quoted: bool, owners: &mut Owners) -> Result<(), AllocError>
    requires { owners.old.next < 2 ^ 63 }
    ensures { OnOk result (AddsOwners owners.old owners.new 1
        (replicate (own_count is_quoted (expression_of term.now)) owners.old.next)) }
{
    let node = owners.next;
    owners.next = node + 1;
    for _ in 0..count_own(term, is_quoted) {
        owners.nodes.push(Some(node))?;
    }
    Ok(())
}

/// The nodes of the equations of a term at level 0 or 1.
fn own_all(term: &Term, is_quoted: bool, owners: &mut Owners) -> Result<(), AllocError>
    requires { HasNumbers owners.old (expression_of term.now) }
    ensures { OnOk result
        (AddsTermOwners owners.old owners.new is_quoted (expression_of term.now)) }
{
    own(term, is_quoted, owners)?;
    match term {
        Term::Int(_) | Term::Bool(_) | Term::Var(_) | Term::Glob(_) => Ok(()),
        Term::Fun(e)
        | Term::Rec(e)
        | Term::Fst(e)
        | Term::Snd(e)
        | Term::Run(_, e)
        | Term::CloseCode(_, e)
        | Term::OpenCode(e)
        | Term::Lift(e)
        | Term::LiftB(e) => own_all(e, is_quoted, owners),
        Term::App(a, b) | Term::Let(a, b) | Term::Pair(a, b) | Term::Prim(_, a, b) => {
            own_all(a, is_quoted, owners)?;
            own_all(b, is_quoted, owners)
        }
        Term::If(c, a, b) => {
            own_all(c, is_quoted, owners)?;
            own_all(a, is_quoted, owners)?;
            own_all(b, is_quoted, owners)
        }
        Term::Bracket(e) => own_all(e, true, owners),
        Term::Escape(e) => own_all(e, false, owners),
    }
}

/// The node of each equation of a part, if it is one's: what the place asks is no node's.
pub fn owners_of(
    alloc: Global,
    asked: &Asked,
    term: &Term,
) -> Result<Vec<Option<usize>>, AllocError>
    requires { size (expression_of term.now) ≤ 2 ^ 63 }
    ensures { IfOk result
        (λ nodes. nodes.items ≡ item_owners (place_of asked.now) (expression_of term.now)) }
{
    let mut owners = Owners {
        next: 0,
        nodes: Vec::new(alloc),
    };
    match asked {
        Asked::Anything => {}
        Asked::Kernel(_) | Asked::Main(_) => owners.nodes.push(None)?,
    }
    own_all(term, false, &mut owners)?;
    Ok(owners.nodes)
}
