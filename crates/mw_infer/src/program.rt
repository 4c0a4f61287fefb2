// The check of a program, item by item.

ghost use Rattle.std.specs.Prelude.{◌≡◌, ◌∷◌, [], ◌++◌, length, map, IfErr, IfOk, IsSome, IsTrue, OnErr};
ghost use Rattle.mw_term.specs.Programs.{definition_of, program_of};
ghost use Rattle.mw_term.specs.Stops.{IfRefused};
ghost use Rattle.mw_term.specs.Terms.{expression_of, ground_of};
ghost use Rattle.mw_term.specs.Typable.{seen_by_main};
ghost use Rattle.mw_types.specs.Types.{type_of};
ghost use Rattle.mw_types.specs.Expressions.{ground_expression};
ghost use Rattle.mw_infer.specs.Checking.{AreFaultless, ArePrincipal, IsFirstRefusal};
ghost use Rattle.mw_term.specs.Parts.{IsResolved, part_of_item};
ghost use Rattle.mw_term.specs.Parts.{main_place};
ghost use Rattle.mw_infer.specs.Judging.{CanJudge, Judges, place_of};
ghost use Rattle.mw_infer.specs.Nodes.{AreNodesOf};
ghost use Rattle.mw_infer.specs.Progress.{Ends, IsFaultOf, IsFaultOfItem, Steps, listed, revealed_to};
ghost use Rattle.mw_infer.specs.Schemes.{type_of_scheme};
ghost use Rattle.mw_infer.specs.Typings.{facts_of_part};
ghost use Rattle.mw_infer.specs.Views.{top_of, tops_of};
ghost use Rattle.mw_infer.specs.declared.judge.Verdict.TheVariants.{Fine};

use crate::build::{closed, ground_ty, kernel_ty};
use crate::judge::{Judged, Verdict, judge};
use crate::names::TopScheme;
use crate::own::Asked;
use crate::typed::PartNodes;
use mw_term::{Ground, Item, ItemKind, Program, Refusal, Stop, Term};
use mw_types::Ty;
use std::alloc::{AllocError, Global};

/// What main sees of the items, and what is known of the nodes of each part where that was asked for.
#[derive(Drop)]
pub struct Checked<'p> {
    pub names: Vec<TopScheme<'p>>,
    pub parts: Vec<PartNodes>,
}

/// The types of an item, or the refusal of the program for its fault.
fn judged(
    alloc: Global,
    names: &[TopScheme],
    asked: &Asked,
    term: &Term,
    index: u32,
    marks: &mut Vec<usize>,
    with_nodes: bool,
) -> Result<Judged, Stop>
    requires { CanJudge (tops_of names.now) (expression_of term.now) }
    ensures fine { IfOk result
        (λ j. Judges (tops_of names.now) (place_of asked.now) (expression_of term.now)
        (Fine j)) }
    ensures told { IsTrue with_nodes → IfOk result (λ j. IsSome j.nodes) }
    ensures refused { IfErr result
        (IfRefused (IsFaultOf (tops_of names.now) (place_of asked.now) (expression_of term.now)
        index)) }
{
    match judge(alloc, names, asked, term, marks, with_nodes)? {
        Verdict::Fine(known) => Ok(known),
        Verdict::IllTyped => Err(Stop::Refused(Refusal::IllTyped(index))),
        Verdict::TooBig => Err(Stop::Refused(Refusal::TypeTooBig(index))),
        Verdict::NotClosed(at) => Err(Stop::Refused(Refusal::NotClosed(at))),
    }
}

/// An item: what the items after it see of it is added, and what is known of its nodes is given where it is asked for.
pub fn step(
    alloc: Global,
    names: &mut Vec<TopScheme>,
    item: &Item,
    index: u32,
    marks: &mut Vec<usize>,
    with_nodes: bool,
) -> Result<Option<PartNodes>, Stop>
    requires { CanJudge (tops_of names.old.items)
        (part_of_item [] (definition_of item.now.kind)).term }
    ensures ok { IfOk result
        (λ nodes. Steps (tops_of names.old.items) (definition_of item.now.kind) (tops_of names.new.items) nodes) }
    ensures told { IsTrue with_nodes → IfOk result IsSome }
    ensures refused { IfErr result
        (IfRefused (IsFaultOfItem (tops_of names.old.items) (definition_of item.now.kind) index)) }
    ensures kept { OnErr result (names.new.items ≡ names.old.items) }
{
    match &item.kind {
        ItemKind::Value(term) => {
            let found = judged(
                alloc,
                names.as_slice(),
                &Asked::Anything,
                term,
                index,
                marks,
                with_nodes,
            )?;
            let Judged { known, nodes } = found;
            names.push(TopScheme::Let(known))?;
            Ok(nodes)
        }
        ItemKind::Kernel(kind, term) => {
            let found = judged(
                alloc,
                names.as_slice(),
                &Asked::Kernel(kind),
                term,
                index,
                marks,
                with_nodes,
            )?;
            names.push(TopScheme::OutOfScope)?;
            Ok(found.nodes)
        }
    }
}

/// Shows main the kernel items.
pub fn reveal<'p>(names: &mut Vec<TopScheme<'p>>, items: &'p [Item])
    requires { length names.old.items ≡ length items.now }
    ensures { tops_of names.new.items
        ≡ revealed_to (length items.now) (map (λ item. definition_of item.kind) items.now)
        (tops_of names.old.items) }
{
    for at in 0..items.len() {
        if let ItemKind::Kernel(kind, _) = &items[at].kind {
            names[at] = TopScheme::Kernel(kind);
        }
    }
}

/// Main, after whose check nothing is left to do: what is known of its nodes.
fn last(
    alloc: Global,
    names: &[TopScheme],
    ground: &Ground,
    body: &Term,
    index: u32,
    marks: &mut Vec<usize>,
    with_nodes: bool,
) -> Result<Option<PartNodes>, Stop>
    requires { CanJudge (tops_of names.now) (expression_of body.now) }
    ensures fine { IfOk result
        (Ends (tops_of names.now) (ground_of ground.now) (expression_of body.now)) }
    ensures told { IsTrue with_nodes → IfOk result IsSome }
    ensures refused { IfErr result
        (IfRefused (IsFaultOf (tops_of names.now) (main_place (ground_of ground.now)) (expression_of body.now) index)) }
{
    let found = judged(
        alloc,
        names,
        &Asked::Main(ground),
        body,
        index,
        marks,
        with_nodes,
    )?;
    Ok(found.nodes)
}

/// Adds what is known of a part, if it is.
fn keep(parts: &mut Vec<PartNodes>, nodes: Option<PartNodes>) -> Result<(), AllocError>
    ensures { IfOk result (λ _. parts.new.items ≡ parts.old.items ++ listed nodes) }
{
    if let Some(nodes) = nodes {
        parts.push(nodes)?;
    }
    Ok(())
}

/// What main sees of the items, and where it is asked for what is known of each part, where no part of the program has
/// a fault; else the first refusal.
pub fn whole<'p>(alloc: Global, program: &'p Program, with_nodes: bool) -> Result<Checked<'p>, Stop>
    requires { IsResolved (program_of program.now) }
    ensures faultless { IfOk result (λ _. AreFaultless (program_of program.now)) }
    ensures principal { IfOk result
        (λ whole. ArePrincipal (seen_by_main (program_of program.now).items) (tops_of whole.names.items)) }
    ensures nodes { IsTrue with_nodes → IfOk result
        (λ whole. AreNodesOf (program_of program.now) (map facts_of_part whole.parts.items)) }
    ensures refused { IfErr result (IfRefused (IsFirstRefusal (program_of program.now))) }
{
    let items = program.items.as_slice();
    let mut names = Vec::new(alloc);
    let mut parts = Vec::new(alloc);
    let mut marks = Vec::new(alloc);
    for item in items {
        let index = names.len() as u32;
        match step(alloc, &mut names, item, index, &mut marks, with_nodes) {
            Ok(nodes) => keep(&mut parts, nodes)?,
            Err(stop) => return Err(stop),
        }
    }
    let index = names.len() as u32;
    reveal(&mut names, items);
    match last(
        alloc,
        names.as_slice(),
        &program.result,
        &program.body,
        index,
        &mut marks,
        with_nodes,
    ) {
        Ok(nodes) => {
            keep(&mut parts, nodes)?;
            Ok(Checked { names, parts })
        }
        Err(stop) => Err(stop),
    }
}

/// The same type.
#[cycle(copying)]
pub fn copied(alloc: Global, ty: &Ty) -> Result<Ty, AllocError>
    ensures { IfOk result (λ copy. type_of copy ≡ type_of ty.now) }
{
    match ty {
        Ty::Int => Ok(Ty::Int),
        Ty::Bool => Ok(Ty::Bool),
        Ty::Unknown(u) => Ok(Ty::Unknown(*u)),
        Ty::Pair(s, t) => {
            let left = boxed_copy(alloc, s)?;
            Ok(Ty::Pair(left, boxed_copy(alloc, t)?))
        }
        Ty::Arrow(s, t) => {
            let from = boxed_copy(alloc, s)?;
            Ok(Ty::Arrow(from, boxed_copy(alloc, t)?))
        }
        Ty::Code(c, t) => Ok(Ty::Code(*c, boxed_copy(alloc, t)?)),
        Ty::Closed(t) => Ok(Ty::Closed(boxed_copy(alloc, t)?)),
    }
}

/// The same, in a box.
#[cycle(copying)]
fn boxed_copy(alloc: Global, ty: &Ty) -> Result<Box<Ty>, AllocError>
    ensures { IfOk result (λ copy. type_of copy.value ≡ type_of ty.now) }
{
    let copy = copied(alloc, ty)?;
    Ok(Box::new(alloc, copy)?)
}

/// The type of a name.
pub fn scheme_ty(alloc: Global, known: &TopScheme) -> Result<Ty, AllocError>
    ensures { IfOk result (λ ty. type_of ty ≡ type_of_scheme (top_of known.now)) }
{
    match known {
        TopScheme::Let(scheme) => copied(alloc, &scheme.ty),
        TopScheme::Kernel(kind) => {
            let inner = kernel_ty(alloc, kind)?;
            closed(alloc, inner)
        }
        TopScheme::OutOfScope => Ok(Ty::Int),
    }
}

/// The types of all items and of main.
pub fn types_of(alloc: Global, names: &[TopScheme], ground: &Ground) -> Result<Vec<Ty>, AllocError>
    ensures { IfOk result (λ types. map type_of types.items ≡ map type_of_scheme (tops_of names.now)
        ++ (ground_expression (ground_of ground.now) ∷ [])) }
{
    let mut types = Vec::new(alloc);
    for named in names {
        types.push(scheme_ty(alloc, named)?)?;
    }
    types.push(ground_ty(alloc, ground)?)?;
    Ok(types)
}
