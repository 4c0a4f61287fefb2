//! The program `mw_bench`: it solves so many equations of a shape, runs a module with a number, evaluates a program of
//! the first stage with a number, or emits a large code so many times, and prints the answer, to be timed from outside.
//! `form` prints the module of a sample of kernel code.
//!
//!     mw_bench chain|star|groups|codes|doublings|late COUNT
//!     mw_bench loop|calls|memory NUMBER
//!     mw_bench down|closures|doubled NUMBER
//!     mw_bench emissions TIMES
//!     mw_bench form NUMBER
#![tactic(auto)]

mod emissions;
mod modules;
mod runs;
mod samples;
mod timed;

use crate::emissions::{emissions, module_of_sample};
use crate::modules::Timed;
use crate::runs::run;
use crate::timed::{Repeated, timed_answer};
use mw_types::{Equation, Equations, Pairs, SolveFault, Ty, solve};
use std::alloc::{AllocError, Global};
use std::env;
use std::process::ExitCode;

/// What the equations look like.
#[derive(Clone, Copy, Drop)]
enum Shape {
    /// Each unknown is the next, from the last to the first.
    Chain,
    /// Each unknown is the first.
    Star,
    /// Groups of eight unknowns: each is a function between, or a pair of, later ones of its group.
    Groups,
    /// Each code type is the one before it, with another classifier.
    Codes,
    /// Each unknown is a pair of the next with itself.
    Doublings,
    /// A chain whose first unknown is int and whose last is bool.
    Late,
}

fn shape_of(word: &str) -> Option<Shape> {
    match word {
        "chain" => Some(Shape::Chain),
        "star" => Some(Shape::Star),
        "groups" => Some(Shape::Groups),
        "codes" => Some(Shape::Codes),
        "doublings" => Some(Shape::Doublings),
        "late" => Some(Shape::Late),
        _ => None,
    }
}

fn code_of(word: &str) -> Option<Timed> {
    match word {
        "loop" => Some(Timed::Loop),
        "calls" => Some(Timed::Calls),
        "memory" => Some(Timed::Memory),
        _ => None,
    }
}

fn repeated_of(word: &str) -> Option<Repeated> {
    match word {
        "down" => Some(Repeated::Down),
        "closures" => Some(Repeated::Closures),
        "doubled" => Some(Repeated::Doubled),
        _ => None,
    }
}

fn pair(alloc: Global, left: Ty, right: Ty) -> Result<Ty, AllocError> {
    Ok(Ty::Pair(Box::new(alloc, left)?, Box::new(alloc, right)?))
}

fn arrow(alloc: Global, left: Ty, right: Ty) -> Result<Ty, AllocError> {
    Ok(Ty::Arrow(Box::new(alloc, left)?, Box::new(alloc, right)?))
}

fn code(alloc: Global, classifier: u64, ty: Ty) -> Result<Ty, AllocError> {
    Ok(Ty::Code(classifier, Box::new(alloc, ty)?))
}

/// A later unknown of the same group of eight, which a number chooses, or int after the last.
fn later(unknown: u64, count: u64, choice: u64) -> Ty {
    let left = 7 - unknown % 8;
    let next = unknown.saturating_add(1);
    if left == 0 || next >= count {
        return Ty::Int;
    }
    Ty::Unknown(next.saturating_add(choice % left).min(count - 1))
}

/// The equation of an unknown in the shape.
fn equation(
    alloc: Global,
    shape: Shape,
    count: u64,
    unknown: u64,
    choice: u64,
) -> Result<Equation, AllocError> {
    let next = unknown.saturating_add(1).min(count.saturating_sub(1));
    let left = Ty::Unknown(unknown);
    Ok(match shape {
        Shape::Chain | Shape::Late => Equation {
            left,
            right: Ty::Unknown(next),
        },
        Shape::Star => Equation {
            left,
            right: Ty::Unknown(0),
        },
        Shape::Groups => {
            let first = later(unknown, count, choice);
            let second = later(unknown, count, choice >> 8);
            let right = if choice & 65536 == 0 {
                arrow(alloc, first, second)?
            } else {
                pair(alloc, first, second)?
            };
            Equation { left, right }
        }
        Shape::Codes => Equation {
            left: code(alloc, unknown, left)?,
            right: code(alloc, next, Ty::Unknown(next))?,
        },
        Shape::Doublings => Equation {
            left,
            right: pair(alloc, Ty::Unknown(next), Ty::Unknown(next))?,
        },
    })
}

/// So many equations of the shape, over as many unknowns and classifiers.
fn equations(alloc: Global, shape: Shape, count: u64) -> Result<Equations, AllocError> {
    let mut pairs = Pairs::new(alloc);
    let mut seed: u64 = 12345;
    for place in 1..count {
        let unknown = count - 1 - place;
        seed = seed
            .wrapping_mul(6364136223846793005)
            .wrapping_add(1442695040888963407);
        pairs.push(equation(alloc, shape, count, unknown, seed >> 33)?)?;
    }
    if count > 0 && matches!(shape, Shape::Late) {
        pairs.push(Equation {
            left: Ty::Unknown(0),
            right: Ty::Int,
        })?;
        pairs.push(Equation {
            left: Ty::Unknown(count - 1),
            right: Ty::Bool,
        })?;
    }
    Ok(Equations {
        unknowns: count,
        classifiers: count,
        pairs,
    })
}

/// The answer, as a line of text.
fn answer(alloc: Global, shape: Shape, count: u64) -> Result<String, AllocError> {
    let equations = equations(alloc, shape, count)?;
    if !equations.is_within() {
        return String::from_str(alloc, "not within");
    }
    match solve(alloc, &equations) {
        Ok(_) => String::from_str(alloc, "solved"),
        Err(SolveFault::Unsolvable(k)) => format!(in alloc; "unsolvable {k}"),
        Err(SolveFault::TooBig(k)) => format!(in alloc; "too big {k}"),
        Err(SolveFault::Memory(error)) => Err(error),
    }
}

fn main(rt: HostRuntime) -> anyhow::Result<ExitCode> {
    let words: Vec<String> = env::args(&rt)?.collect(rt.alloc())?;
    let word = words.get(1).map(|word| word.as_str());
    let chosen = words.get(1).and_then(|word| shape_of(word.as_str()));
    let count = words
        .get(2)
        .and_then(|word| word.as_str().parse::<u64>().ok());
    let module = words.get(1).and_then(|word| code_of(word.as_str()));
    if let (Some(code), Some(number)) = (module, count) {
        println!(rt; "{}", run(rt.alloc(), code, number)?)?;
        return Ok(ExitCode::from(0));
    }
    let repeated = word.and_then(|word| repeated_of(word));
    if let (Some(what), Some(number)) = (repeated, count) {
        println!(rt; "{}", timed_answer(rt.alloc(), what, number)?.as_str())?;
        return Ok(ExitCode::from(0));
    }
    if let (Some("form"), Some(number)) = (word, count) {
        let bytes = module_of_sample(&rt, rt.alloc(), number)?;
        println!(rt; "{}", hex::encode(rt.alloc(), bytes.as_slice())?.as_str())?;
        return Ok(ExitCode::from(0));
    }
    if let (Some("emissions"), Some(times)) = (word, count) {
        println!(rt; "{}", emissions(&rt, rt.alloc(), times)?)?;
        return Ok(ExitCode::from(0));
    }
    let (Some(chosen), Some(count)) = (chosen, count) else {
        eprintln!(rt;
            "mw_bench: usage: mw_bench chain|star|groups|codes|doublings|late|loop|calls|memory|down|closures|doubled|emissions|form NUMBER"
        )?;
        return Ok(ExitCode::from(2));
    };
    let text = answer(rt.alloc(), chosen, count)?;
    println!(rt; "{}", text.as_str())?;
    Ok(ExitCode::from(0))
}
