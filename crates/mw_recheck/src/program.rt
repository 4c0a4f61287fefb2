// A certificate, followed section by section.

ghost use Rattle.std.specs.Prelude.{◌≡◌, ◌<◌, ◌^◌, [], true, false, length, IfOk};
ghost use Rattle.mw_term.specs.Terms.{expression_of, ground_of, size};
ghost use Rattle.mw_term.specs.Programs.{definition_of, program_of};
ghost use Rattle.mw_lines.specs.Tables.{lines_of, type_at, AreHeld};
ghost use Rattle.mw_recheck.specs.Deciding.{root_at, certified};
ghost use Rattle.mw_recheck.specs.Certificates.{defined_term};
ghost use Rattle.mw_recheck.specs.Answers.{Gives, Follows};
ghost use Rattle.mw_recheck.specs.Roots.{AreRoots, IsHeldRoot, tops_of};
ghost use Rattle.mw_recheck.specs.Following.{definitions_of, seen_as, item_at, main_notes_at, AreSmall};

use crate::kinds::{is_closed_kernel, is_ground};
use crate::names::{Root, Setting};
use crate::scope::{Level, Scope};
use crate::section::{nodes, types};
use crate::stop::Stop;
use crate::text::behind;
use crate::walk::judge;
use mw_lines::TypeLines;
use mw_term::{Item, ItemKind, Program, Term, nodes as size_of};
use std::alloc::Global;

/// The type lines of a term whose section the bytes begin with, the place of its root type, and the bytes after the
/// section.
fn root_of<'b>(
    alloc: Global,
    term: &Term,
    roots: &[Root],
    kernels: bool,
    bytes: &'b [u8],
) -> Result<(TypeLines, usize, &'b [u8]), Stop>
    requires roots { AreRoots roots.now }
    requires small { size (expression_of term.now) < 2 ^ 32 }
    ensures root { Gives (λ x. (type_at x.0 x.1, x.2.now)) result
        (root_at (tops_of kernels roots.now) (expression_of term.now) bytes.now) }
    ensures held { IfOk result (λ x. AreHeld x.0) }
    ensures within { IfOk result (λ x. x.1 < length (lines_of x.0)) }
{
    let (types, rest) = types(alloc, bytes)?;
    let (nodes, rest) = nodes(alloc, size_of(term), rest)?;
    let setting = Setting {
        alloc,
        types: &types,
        roots,
        kernels,
    };
    let (at, _) = judge(term, &setting, &Scope::Empty, Level::Live, nodes.as_slice())?;
    Ok((types, at, rest))
}

/// The term that an item defines.
fn term_of(item: &Item) -> &Term
    ensures { expression_of result.now ≡ defined_term (definition_of item.now.kind) }
{
    match &item.kind {
        ItemKind::Value(term) | ItemKind::Kernel(_, term) => term,
    }
}

/// What an item has whose section the bytes begin with, and the bytes after the section.
fn item_root<'p, 'b>(
    alloc: Global,
    item: &'p Item,
    roots: &[Root],
    bytes: &'b [u8],
) -> Result<(Root<'p>, &'b [u8]), Stop>
    requires roots { AreRoots roots.now }
    requires small { size (defined_term (definition_of item.now.kind)) < 2 ^ 32 }
    ensures root { Gives (λ x. (seen_as x.0, x.1.now)) result
        (item_at (tops_of false roots.now) (definition_of item.now.kind) bytes.now) }
    ensures held { IfOk result (λ x. IsHeldRoot x.0) }
{
    let (types, at, rest) = root_of(alloc, term_of(item), roots, false, bytes)?;
    match &item.kind {
        ItemKind::Value(_) => Ok((Root::Let(types.front(at + 1)), rest)),
        ItemKind::Kernel(kind, _) => {
            if is_closed_kernel(&types, at, kind) {
                Ok((Root::Kernel(kind), rest))
            } else {
                Err(Stop::Wrong)
            }
        }
    }
}

/// What items have with whose sections the bytes begin, and the bytes after these.
fn roots_of<'p, 'b>(
    alloc: Global,
    items: &'p [Item],
    bytes: &'b [u8],
) -> Result<(Vec<Root<'p>>, &'b [u8]), Stop>
    requires small { AreSmall (definitions_of items.now) }
    ensures roots { Gives (λ x. (tops_of true x.0.items, x.1.now)) result
        (main_notes_at [] (definitions_of items.now) bytes.now) }
    ensures held { IfOk result (λ x. AreRoots x.0.items) }
{
    let mut roots = Vec::new(alloc);
    let mut rest = bytes;
    for item in items {
        let (root, more) = item_root(alloc, item, roots.as_slice(), rest)?;
        roots.push(root)?;
        rest = more;
    }
    Ok((roots, rest))
}

/// Nothing, where the bytes certify the program.
pub fn follow(alloc: Global, cert: &[u8], program: &Program) -> Result<(), Stop>
    requires items { AreSmall (program_of program.now).items }
    requires body { size (program_of program.now).body < 2 ^ 32 }
    ensures { Follows result (certified cert.now (program_of program.now)) }
{
    let Some(rest) = behind(b"cert1\n", cert) else {
        return Err(Stop::Wrong);
    };
    let (roots, rest) = roots_of(alloc, program.items.as_slice(), rest)?;
    let (types, at, rest) = root_of(alloc, &program.body, roots.as_slice(), true, rest)?;
    if !is_ground(&types, at, &program.result) {
        return Err(Stop::Wrong);
    }
    if !rest.is_empty() {
        return Err(Stop::Wrong);
    }
    Ok(())
}
