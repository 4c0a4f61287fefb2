// One item: its equations, their solution, and the tests of its closes.

ghost use Rattle.std.specs.Prelude.{◌≡◌, ◌<◌, [], map, IfOk, IsTrue, OnOk};
ghost use Rattle.mw_term.specs.Terms.{expression_of};
ghost use Rattle.mw_types.specs.Equations.{AreWithin};
ghost use Rattle.mw_infer.specs.Emitting.{Adds};
ghost use Rattle.mw_infer.specs.Inferring.{own_equations};
ghost use Rattle.mw_infer.specs.Judging.{CanJudge, IsEmitted, Judges, JudgesType, TellsNodes, place_of};
ghost use Rattle.mw_infer.specs.Nodes.{node_numbers};
ghost use Rattle.mw_infer.specs.NodeViews.{numbers_of};
ghost use Rattle.mw_infer.specs.Views.{tops_of};

use crate::build::{closed, ground_ty, kernel_ty};
use crate::emit::{Setting, emit};
use crate::fresh::first_open;
use crate::names::{LetType, TopScheme};
use crate::nodes::{NodeNumbers, Numbers, number};
use crate::output::{Output, equate};
use crate::own::Asked;
use crate::renumber::let_type;
use crate::scope::{Level, Scope};
use crate::sharing::shared;
use crate::typed::PartNodes;
use mw_term::Term;
use mw_types::{Equations, SolveFault, Ty, principal_type, solve};
use std::alloc::{AllocError, Global};

/// What is known of an item without a fault: its most general type, and, where it was asked for, what its equations'
/// solution says of its nodes.
#[derive(Drop)]
pub struct Judged {
    pub known: LetType,
    pub nodes: Option<PartNodes>,
}

/// What is judged of an item: its types, or its fault.
#[derive(Drop)]
pub enum Verdict {
    Fine(Judged),
    IllTyped,
    TooBig,
    /// With the offset of the `close`.
    NotClosed(u32),
}

/// An item's own equation, on unknown 0.
fn ask(alloc: Global, out: &mut Output, asked: &Asked) -> Result<(), AllocError>
    ensures { OnOk result (Adds out.old out.new 0 0 (own_equations (place_of asked.now)) []) }
{
    match asked {
        Asked::Anything => Ok(()),
        Asked::Kernel(kind) => {
            let inner = kernel_ty(alloc, kind)?;
            let ty = closed(alloc, inner)?;
            equate(out, Ty::Unknown(0), ty)
        }
        Asked::Main(ground) => {
            let ty = ground_ty(alloc, ground)?;
            equate(out, Ty::Unknown(0), ty)
        }
    }
}

/// The equations and closes of an item. There is room for two equations a node, which are enough for most.
pub fn emitted<'n, 'p>(
    alloc: Global,
    names: &'n [TopScheme<'p>],
    asked: &Asked,
    term: &Term,
) -> Result<Output<'n, 'p>, AllocError>
    requires { CanJudge (tops_of names.now) (expression_of term.now) }
    ensures { IfOk result
        (IsEmitted (tops_of names.now) (place_of asked.now) (expression_of term.now)) }
{
    let mut out = Output {
        unknowns: 1,
        classifiers: 0,
        equations: Vec::with_capacity(alloc, mw_term::nodes(term).saturating_mul(2) as usize)?,
        closes: Vec::new(alloc),
        names,
    };
    ask(alloc, &mut out, asked)?;
    let setting = Setting { alloc, names };
    emit(term, &setting, &Scope::Empty, Level::Live, 0, &mut out)?;
    Ok(out)
}

/// The numbers of an item's nodes.
fn numbered(alloc: Global, names: &[TopScheme], term: &Term) -> Result<Vec<NodeNumbers>, AllocError>
    requires { CanJudge (tops_of names.now) (expression_of term.now) }
    ensures { IfOk result
        (λ nodes. map numbers_of nodes.items ≡ node_numbers (tops_of names.now) 0 1 0 (expression_of term.now)) }
{
    let mut numbers = Numbers {
        unknowns: 1,
        classifiers: 0,
        nodes: Vec::with_capacity(alloc, mw_term::nodes(term) as usize)?,
    };
    number(term, names, 0, &mut numbers)?;
    Ok(numbers.nodes)
}

/// The type of an item by its equations alone, for one without closes, or its fault. No other type is made.
fn judge_type(alloc: Global, equations: &Equations) -> Result<Verdict, AllocError>
    requires within { AreWithin equations.now }
    requires some { 0 < equations.now.unknowns }
    ensures { IfOk result (JudgesType equations.now) }
{
    match principal_type(alloc, equations, 0) {
        Ok(ty) => {
            let known = let_type(alloc, &ty, equations.unknowns, equations.classifiers)?;
            Ok(Verdict::Fine(Judged { known, nodes: None }))
        }
        Err(SolveFault::Unsolvable(_)) => Ok(Verdict::IllTyped),
        Err(SolveFault::TooBig(_)) => Ok(Verdict::TooBig),
        Err(SolveFault::Memory(error)) => Err(error),
    }
}

/// The types of an item, with those of its nodes where they are asked for, or its fault.
pub fn judge(
    alloc: Global,
    names: &[TopScheme],
    asked: &Asked,
    term: &Term,
    marks: &mut Vec<usize>,
    with_nodes: bool,
) -> Result<Verdict, AllocError>
    requires { CanJudge (tops_of names.now) (expression_of term.now) }
    ensures judged { IfOk result
        (Judges (tops_of names.now) (place_of asked.now) (expression_of term.now)) }
    ensures told { IsTrue with_nodes → IfOk result TellsNodes }
{
    let out = emitted(alloc, names, asked, term)?;
    let Output {
        unknowns,
        classifiers,
        equations,
        closes,
        ..
    } = out;
    marks.push(0)?;
    let pairs = shared(alloc, names, equations, marks)?;
    let equations = Equations {
        unknowns,
        classifiers,
        pairs,
    };
    if closes.is_empty() && !with_nodes {
        return judge_type(alloc, &equations);
    }
    match solve(alloc, &equations) {
        Ok(solved) => {
            if let Some(at) = first_open(alloc, closes.as_slice(), &solved, unknowns)? {
                return Ok(Verdict::NotClosed(at));
            }
            let known = let_type(alloc, solved.ty(0), unknowns, classifiers)?;
            if !with_nodes {
                return Ok(Verdict::Fine(Judged { known, nodes: None }));
            }
            let nodes = numbered(alloc, names, term)?;
            let nodes = Some(PartNodes { solved, nodes });
            Ok(Verdict::Fine(Judged { known, nodes }))
        }
        Err(SolveFault::Unsolvable(_)) => Ok(Verdict::IllTyped),
        Err(SolveFault::TooBig(_)) => Ok(Verdict::TooBig),
        Err(SolveFault::Memory(error)) => Err(error),
    }
}
