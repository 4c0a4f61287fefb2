// Equations whose answers are known by hand.

ghost use Rattle.std.specs.Prelude.{◌≤◌, length};

use mw_types::{Equation, Equations, Pairs, SolveFault, Solved, Ty, solve};
use std::alloc::{AllocError, Global};

fn pair(alloc: Global, left: Ty, right: Ty) -> Result<Ty, AllocError> {
    Ok(Ty::Pair(Box::new(alloc, left)?, Box::new(alloc, right)?))
}

fn arrow(alloc: Global, left: Ty, right: Ty) -> Result<Ty, AllocError> {
    Ok(Ty::Arrow(Box::new(alloc, left)?, Box::new(alloc, right)?))
}

fn code(alloc: Global, classifier: u64, ty: Ty) -> Result<Ty, AllocError> {
    Ok(Ty::Code(classifier, Box::new(alloc, ty)?))
}

fn closed(alloc: Global, ty: Ty) -> Result<Ty, AllocError> {
    Ok(Ty::Closed(Box::new(alloc, ty)?))
}

fn nodes(ty: &Ty) -> u64 {
    match ty {
        Ty::Int | Ty::Bool | Ty::Unknown(_) => 1,
        Ty::Pair(s, t) | Ty::Arrow(s, t) => nodes(s).saturating_add(nodes(t)).saturating_add(1),
        Ty::Code(_, t) | Ty::Closed(t) => nodes(t).saturating_add(1),
    }
}

/// Makes an unknown a type.
fn put(pairs: &mut Pairs, unknown: u64, right: Ty) -> Result<(), AllocError> {
    pairs.push(Equation {
        left: Ty::Unknown(unknown),
        right,
    })
}

/// Types as text: `(a, b)`, `(a -> b)`, `<a>'c` and `<a>`.
fn show(alloc: Global, text: &mut String, ty: &Ty) -> Result<(), AllocError> {
    match ty {
        Ty::Int => text.push_str("int"),
        Ty::Bool => text.push_str("bool"),
        Ty::Unknown(u) => text.push_str(format!(in alloc; "u{u}")?.as_str()),
        Ty::Pair(s, t) => {
            text.push_str("(")?;
            show(alloc, text, s)?;
            text.push_str(", ")?;
            show(alloc, text, t)?;
            text.push_str(")")
        }
        Ty::Arrow(s, t) => {
            text.push_str("(")?;
            show(alloc, text, s)?;
            text.push_str(" -> ")?;
            show(alloc, text, t)?;
            text.push_str(")")
        }
        Ty::Code(c, t) => {
            text.push_str("<")?;
            show(alloc, text, t)?;
            text.push_str(format!(in alloc; ">'{c}")?.as_str())
        }
        Ty::Closed(t) => {
            text.push_str("<")?;
            show(alloc, text, t)?;
            text.push_str(">")
        }
    }
}

/// The types of so many unknowns, then so many classifiers.
fn put_solution(
    alloc: Global,
    text: &mut String,
    solved: &Solved,
    unknowns: u64,
    classifiers: u64,
) -> Result<(), AllocError>
    requires types { unknowns ≤ length solved.now.types }
    requires classifiers { classifiers ≤ length solved.now.classifiers }
{
    for unknown in 0..unknowns {
        show(alloc, text, solved.ty(unknown))?;
        text.push_str(" ")?;
    }
    for number in 0..classifiers {
        let name = solved.classifier(number);
        text.push_str(format!(in alloc; "{name} ")?.as_str())?;
    }
    Ok(())
}

fn fault_shown(alloc: Global, fault: SolveFault) -> Result<String, AllocError> {
    match fault {
        SolveFault::Unsolvable(k) => format!(in alloc; "unsolvable {k}"),
        SolveFault::TooBig(k) => format!(in alloc; "too big {k}"),
        SolveFault::Memory(error) => Err(error),
    }
}

/// The types of all unknowns, then the classifiers; or the fault.
fn answer(alloc: Global, equations: &Equations) -> Result<String, AllocError> {
    let mut text = String::new(alloc);
    if !equations.is_within() {
        text.push_str("past a bound")?;
        return Ok(text);
    }
    match solve(alloc, equations) {
        Ok(solved) => put_solution(
            alloc,
            &mut text,
            &solved,
            equations.unknowns,
            equations.classifiers,
        )?,
        Err(fault) => return fault_shown(alloc, fault),
    }
    Ok(text)
}

/// Thirteen doublings, the last of which gives the first unknown 16,383 nodes.
fn put_doublings(alloc: Global, pairs: &mut Pairs) -> Result<(), AllocError> {
    for unknown in 0..13 {
        let right = pair(alloc, Ty::Unknown(unknown + 1), Ty::Unknown(unknown + 1))?;
        put(pairs, unknown, right)?;
    }
    Ok(())
}

/// Gives unknown 0 a type of 10,000 nodes: from unknown 17, which is int, pairs of one type and `closed` lead to 3, 7,
/// 8, 17, 18, 37, 38, 77, 155, 311, 623, 624, 1,249, 2,499, 4,999, 9,999 and 10,000 nodes.
fn put_ten_thousand(alloc: Global, pairs: &mut Pairs) -> Result<(), AllocError> {
    for unknown in 0..17 {
        let below = unknown + 1;
        let right = if matches!(unknown, 0 | 5 | 10 | 12 | 14) {
            closed(alloc, Ty::Unknown(below))?
        } else {
            pair(alloc, Ty::Unknown(below), Ty::Unknown(below))?
        };
        put(pairs, unknown, right)?;
    }
    put(pairs, 17, Ty::Int)
}

fn put_free(alloc: Global, pairs: &mut Pairs) -> Result<(), AllocError> {
    put(pairs, 0, arrow(alloc, Ty::Unknown(1), Ty::Unknown(2))?)?;
    put(pairs, 1, Ty::Unknown(2))
}

fn put_codes(alloc: Global, pairs: &mut Pairs) -> Result<(), AllocError> {
    for unknown in 0..3 {
        put(pairs, unknown, code(alloc, unknown, Ty::Int)?)?;
    }
    put(pairs, 1, Ty::Unknown(2))?;
    put(pairs, 0, Ty::Unknown(2))
}

fn put_cycle(alloc: Global, pairs: &mut Pairs) -> Result<(), AllocError> {
    put(pairs, 0, code(alloc, 0, Ty::Unknown(1))?)?;
    put(pairs, 1, pair(alloc, Ty::Unknown(0), Ty::Bool)?)?;
    put(pairs, 0, Ty::Int)
}

fn put_clash(alloc: Global, pairs: &mut Pairs) -> Result<(), AllocError> {
    put(pairs, 0, pair(alloc, Ty::Int, Ty::Bool)?)?;
    put(pairs, 0, arrow(alloc, Ty::Int, Ty::Bool)?)
}

/// A type with a part that it is itself.
fn put_inside_itself(alloc: Global, pairs: &mut Pairs) -> Result<(), AllocError> {
    put(pairs, 13, pair(alloc, Ty::Unknown(13), Ty::Int)?)
}

/// Lists of equations.
#[derive(Clone, Copy)]
enum List {
    Empty,
    Free,
    Codes,
    Cycle,
    Clash,
    /// A type is too big before one would be inside itself.
    BigFirst,
    /// The other way round.
    BigLater,
    /// A type of 10,000 nodes, and one of one more.
    Higher,
}

fn put_list(alloc: Global, pairs: &mut Pairs, list: List) -> Result<(), AllocError> {
    match list {
        List::Empty => Ok(()),
        List::Free => put_free(alloc, pairs),
        List::Codes => put_codes(alloc, pairs),
        List::Cycle => put_cycle(alloc, pairs),
        List::Clash => put_clash(alloc, pairs),
        List::BigFirst => {
            put_doublings(alloc, pairs)?;
            put_inside_itself(alloc, pairs)
        }
        List::BigLater => {
            put_inside_itself(alloc, pairs)?;
            put_doublings(alloc, pairs)
        }
        List::Higher => {
            put_ten_thousand(alloc, pairs)?;
            put(pairs, 18, closed(alloc, Ty::Unknown(0))?)
        }
    }
}

/// Equations, the numbers of their unknowns and classifiers, and the wanted answer.
const CASES: &[(List, u64, u64, &str)] = &[
    (List::Empty, 1, 1, "u0 0 "),
    (List::Free, 3, 0, "(u1 -> u1) u1 u1 "),
    (List::Codes, 3, 4, "<int>'0 <int>'0 <int>'0 0 0 0 3 "),
    (List::Cycle, 2, 1, "unsolvable 2"),
    (List::Clash, 1, 0, "unsolvable 2"),
    (List::BigFirst, 14, 0, "too big 13"),
    (List::BigLater, 14, 0, "unsolvable 1"),
    (List::Higher, 19, 0, "too big 19"),
];

fn equations_of(
    alloc: Global,
    list: List,
    unknowns: u64,
    classifiers: u64,
) -> Result<Equations, AllocError> {
    let mut pairs = Pairs::new(alloc);
    put_list(alloc, &mut pairs, list)?;
    Ok(Equations {
        unknowns,
        classifiers,
        pairs,
    })
}

#[test]
fn answers_are_as_by_hand(rt: HostRuntime) -> Result<(), AllocError> {
    for &(list, unknowns, classifiers, wanted) in CASES {
        let equations = equations_of(rt.alloc(), list, unknowns, classifiers)?;
        let text = answer(rt.alloc(), &equations)?;
        assert_eq!(rt; text.as_str(), wanted);
    }
    Ok(())
}

/// The nodes of the type that unknown 0 is given; 0 where there is no solution.
fn nodes_of_first(alloc: Global) -> Result<u64, AllocError> {
    let mut pairs = Pairs::new(alloc);
    put_ten_thousand(alloc, &mut pairs)?;
    let equations = Equations {
        unknowns: 18,
        classifiers: 0,
        pairs,
    };
    if !equations.is_within() {
        return Ok(0);
    }
    match solve(alloc, &equations) {
        Ok(solved) => Ok(nodes(solved.ty(0))),
        Err(_) => Ok(0),
    }
}

#[test]
fn ten_thousand_nodes_fit(rt: HostRuntime) -> Result<(), AllocError> {
    assert_eq!(rt; nodes_of_first(rt.alloc())?, 10_000);
    Ok(())
}
