// Erasure of programs.

ghost use Rattle.std.specs.Prelude.{◌≡◌, ◌+◌, ◌++◌, ◌<◌, ◌≤◌, ◌^◌, length, IfOk, [], ◌∷◌};
ghost use Rattle.mw_term.specs.Terms.{expression_of, size};
ghost use Rattle.mw_term.specs.Programs.{definition_of, definition_size, program_of, program_size};
ghost use Rattle.mw_term.specs.Typable.{Typable};
ghost use Rattle.mw_meaning.specs.ErasedPrograms.{kernels_in, lets_of, erased_program, item_names, let_names};
ghost use Rattle.mw_meaning.specs.ErasedPrograms.{HasBoundNames, IsSourceProgram};
ghost use Rattle.mw_meaning.specs.ErasureLaws.{IsWithoutStaging};
ghost use Rattle.mw_meaning.specs.NewNames.{naming_of, new_names, inside_terms, IsNext, HasRoom, HaveRoom, definitions};

use crate::erasing::{NewName, boxed, erased_under};
use mw_term::{Item, ItemKind, Items, Program, Term, copied_ground, copied_name};
use std::alloc::{AllocError, Global};

/// How many lets stood so far, and how many kernels are still to come.
#[derive(Clone, Copy, Debug, PartialEq, Eq)]
struct Count {
    lets: u32,
    behind: u32,
}

/// One kernel more, where the item is one.
fn counted(count: u32, kind: &ItemKind) -> u32
    requires { count + 1 < 2 ^ 32 }
    ensures { result ≡ count + kernels_in (definition_of kind.now ∷ []) }
{
    match kind {
        ItemKind::Value(_) => count,
        ItemKind::Kernel(_, _) => count + 1,
    }
}

/// How many of the items are kernels.
fn kernel_count(items: &[Item]) -> u32
    requires { length items.now < 2 ^ 31 }
    ensures { result ≡ kernels_in (definitions items.now) }
{
    let mut count = 0;
    for item in items {
        count = counted(count, &item.kind);
    }
    count
}

/// What the next item's name becomes, put last.
fn put_name(names: &mut Vec<NewName>, count: Count, kind: &ItemKind) -> Result<Count, AllocError>
    requires { count.lets + 1 < 2 ^ 32 }
    ensures next { IfOk result
        (λ next. IsNext (definition_of kind.now) names.old.items names.new.items count.lets
        count.behind next.lets next.behind) }
    ensures lets { IfOk result (λ next. next.lets ≤ count.lets + 1) }
{
    match kind {
        ItemKind::Value(_) => {
            names.push(NewName::Let(count.lets))?;
            Ok(Count {
                lets: count.lets + 1,
                behind: count.behind,
            })
        }
        ItemKind::Kernel(_, _) => {
            let behind = count.behind.saturating_sub(1);
            names.push(NewName::Kernel(behind))?;
            Ok(Count {
                lets: count.lets,
                behind,
            })
        }
    }
}

/// What the items' names become.
fn names_of(alloc: Global, items: &[Item]) -> Result<Vec<NewName>, AllocError>
    requires { length items.now < 2 ^ 31 }
    ensures { IfOk result (λ names. names.items ≡ new_names (definitions items.now) 0) }
{
    let behind = kernel_count(items);
    let mut count = Count { lets: 0, behind };
    let mut names = Vec::new(alloc);
    for item in items {
        count = put_name(&mut names, count, &item.kind)?;
    }
    Ok(names)
}

/// An item's let put last, where it is one.
fn put_let(
    alloc: Global,
    lets: &mut Items,
    item: &Item,
    names: &[NewName],
) -> Result<(), AllocError>
    requires { HasRoom names.now 0 (definition_size (definition_of item.now.kind)) }
    ensures lets { IfOk result
        (λ _. definitions lets.new ≡ definitions lets.old ++ lets_of (naming_of names.now)
        (definition_of item.now.kind ∷ [])) }
    ensures named { IfOk result
        (λ _. item_names lets.new ≡ item_names lets.old ++ let_names (item.now ∷ [])) }
{
    match &item.kind {
        ItemKind::Kernel(_, _) => Ok(()),
        ItemKind::Value(term) => {
            let name = copied_name(alloc, &item.name)?;
            let kind = ItemKind::Value(erased_under(alloc, term, names, 0)?);
            lets.push(Item { name, kind })
        }
    }
}

/// The lets among the items, erased.
#[tactic(auto, using(crate::proofs::NewNames::item_room))]
fn erased_lets(alloc: Global, items: &[Item], names: &[NewName]) -> Result<Items, AllocError>
    requires { HaveRoom names.now (definitions items.now) }
    ensures lets { IfOk result
        (λ lets. definitions lets ≡ lets_of (naming_of names.now) (definitions items.now)) }
    ensures named { IfOk result (λ lets. item_names lets ≡ let_names items.now) }
{
    let mut lets = Items::new(alloc);
    for item in items {
        put_let(alloc, &mut lets, item, names)?;
    }
    Ok(lets)
}

/// A term inside a let, where the item is a kernel.
fn wrapped(
    alloc: Global,
    item: &Item,
    names: &[NewName],
    inner: Box<Term>,
) -> Result<Box<Term>, AllocError>
    requires { HasRoom names.now 0 (definition_size (definition_of item.now.kind)) }
    ensures { IfOk result
        (λ t. expression_of t.value ≡ inside_terms (naming_of names.now) (definition_of item.now.kind ∷ [])
        (expression_of inner.value)) }
{
    match &item.kind {
        ItemKind::Value(_) => Ok(inner),
        ItemKind::Kernel(_, term) => {
            let definition = boxed(alloc, term, names, 0)?;
            Ok(Box::new(alloc, Term::Let(definition, inner))?)
        }
    }
}

/// A term inside one let for each kernel, from the last to the first.
#[tactic(auto, using(crate::proofs::NewNames::item_room))]
fn inside(
    alloc: Global,
    items: &[Item],
    names: &[NewName],
    body: Box<Term>,
) -> Result<Box<Term>, AllocError>
    requires { HaveRoom names.now (definitions items.now) }
    ensures { IfOk result
        (λ t. expression_of t.value ≡ inside_terms (naming_of names.now) (definitions items.now)
        (expression_of body.value)) }
{
    let mut inner = body;
    let mut rest = items.len();
    while rest > 0 {
        rest -= 1;
        inner = wrapped(alloc, &items[rest], names, inner)?;
    }
    Ok(inner)
}

/// The erased program: the program's lets, erased, each under its name, and main, erased, inside one let for each
/// kernel. It needs fewer than 2^31 nodes, and that each name is an item's, as in a program that was checked. The one
/// error is want of memory.
pub fn erase_program(alloc: Global, program: &Program) -> Result<Program, AllocError>
    requires names { HasBoundNames (program_of program.now) }
    requires nodes { program_size (program_of program.now) < 2 ^ 31 }
    ensures erased { IfOk result (λ p. program_of p ≡ erased_program (program_of program.now)) }
    ensures named { IfOk result (λ p. item_names p.items ≡ let_names program.now.items) }
    ensures typable { IfOk result
        (λ p. IsSourceProgram (program_of program.now) → Typable (program_of program.now)
        → Typable (program_of p)) }
    ensures unstaged { IfOk result (λ p. IsWithoutStaging (program_of p)) }
{
    let items = program.items.as_slice();
    let names = names_of(alloc, items)?;
    let lets = erased_lets(alloc, items, names.as_slice())?;
    let main = boxed(alloc, &program.body, names.as_slice(), 0)?;
    let body = inside(alloc, items, names.as_slice(), main)?;
    let result = copied_ground(alloc, &program.result)?;
    Ok(Program {
        items: lets,
        result,
        body: Box::into_inner(body),
    })
}
