// One walk over a term, which finds the free variables of each function and the slots that its lets need.

#![tactic(auto, using(crate::proofs::Marks::unmarked, crate::proofs::Marks::lets_few))]

ghost use Rattle.std.specs.Prelude.{◌≡◌, ◌+◌, ◌*◌, ◌^◌, ◌<◌, ◌≤◌, ◌==◌, ◌++◌, length, false, replicate, IfOk};
ghost use Rattle.mw_term.specs.Terms.{expression_of, size, pair};
ghost use Rattle.mw_term.specs.Limits.{LiteralsFit};
ghost use Rattle.mw_conv.specs.Convert.{lets};
ghost use Rattle.mw_conv.specs.Finding.{joined, marked, marking, all_found, function, own_places};
ghost use Rattle.mw_conv.specs.Found.{Finds};

use crate::found::{FoundFunction, Levels};
use mw_term::Term;
use std::alloc::{AllocError, Global};
use std::mem;

/// What finds the functions in the terms of a kernel, of each after those within it.
#[derive(Drop)]
pub(crate) struct Finder {
    pub(crate) alloc: Global,
    /// Which variables that are bound outside the term at hand occur in the function at hand, by level.
    pub(crate) marks: Vec<bool>,
    pub(crate) found: Vec<FoundFunction>,
}

/// The functions in closed code, of each after those within it, and how many slots its lets need outside them.
pub(crate) fn find(alloc: Global, code: &Term) -> Result<(Vec<FoundFunction>, u32), AllocError>
    requires { 2 * size (expression_of code.now) < 2 ^ 32 }
    ensures found { IfOk result (λ r. r.0.items ≡ all_found (expression_of code.now) 0) }
    ensures slots { IfOk result (λ r. r.1 ≡ lets (expression_of code.now)) }
    ensures literals { IfOk result (λ _. LiteralsFit (expression_of code.now)) }
{
    let mut finder = Finder {
        alloc,
        marks: Vec::new(alloc),
        found: Vec::new(alloc),
    };
    let slots = finder.find(code, 0)?;
    Ok((finder.found, slots))
}

impl Finder {
    /// Finds the functions of a term, and marks the variables that occur in it. The term stands under the binders that
    /// have marks, and then under `under` more. Answers how many slots its lets need.
    #[cycle(find)]
    fn find(&mut self, term: &Term, under: u32) -> Result<u32, AllocError>
        requires { length self.old.marks.items + under + 2 * size (expression_of term.now)
            < 2 ^ 32 }
        ensures { IfOk result
            (λ slots. Finds self.old self.new (expression_of term.now) under slots) }
    {
        match term {
            Term::Int(n) => {
                let _number = *n;
                Ok(0)
            }
            Term::Bool(_) => Ok(0),
            Term::Var(i) => {
                mark_variable(&mut self.marks, under, *i);
                Ok(0)
            }
            Term::Fun(e) => self.find_function(e, false, under),
            Term::Rec(e) => self.find_function(e, true, under),
            Term::App(f, a) => self.find_two(f, a, under),
            Term::Let(d, e) => {
                let first = self.find(d, under)?;
                let second = self.find(e, under + 1)?;
                Ok(first.max(second + 1))
            }
            Term::If(c, a, b) => {
                let first = self.find(c, under)?;
                let rest = self.find_two(a, b, under)?;
                Ok(first.max(rest))
            }
            Term::Pair(a, b) => self.find_two(a, b, under),
            Term::Fst(e) => self.find(e, under),
            Term::Snd(e) => self.find(e, under),
            Term::Prim(_, a, b) => self.find_two(a, b, under),
            // No code has these.
            Term::Glob(_) => Ok(0),
            Term::Bracket(_) => Ok(0),
            Term::Escape(_) => Ok(0),
            Term::Run(_, _) => Ok(0),
            Term::CloseCode(_, _) => Ok(0),
            Term::OpenCode(_) => Ok(0),
            Term::Lift(_) => Ok(0),
            Term::LiftB(_) => Ok(0),
        }
    }

    #[cycle(find)]
    fn find_two(&mut self, first: &Term, second: &Term, under: u32) -> Result<u32, AllocError>
        requires { length self.old.marks.items + under
            + 2 * size (pair (expression_of first.now) (expression_of second.now)) < 2 ^ 32 }
        ensures { IfOk result (λ slots. Finds self.old self.new
            (pair (expression_of first.now) (expression_of second.now)) under slots) }
    {
        let first = self.find(first, under)?;
        let second = self.find(second, under)?;
        Ok(first.max(second))
    }

    /// Finds a function after those within it. It needs no slot outside.
    #[cycle(find)]
    fn find_function(&mut self, body: &Term, recursive: bool, under: u32) -> Result<u32, AllocError>
        requires { length self.old.marks.items + under
            + 2 * size (function recursive (expression_of body.now)) < 2 ^ 32 }
        ensures { IfOk result (λ slots. Finds self.old self.new
            (function recursive (expression_of body.now)) under slots) }
    {
        let inner = no_marks(self.alloc, self.marks.len() + under as usize)?;
        let outer = mem::replace(&mut self.marks, inner);
        let slots = self.find(body, own_variables(recursive))?;
        let inner = mem::replace(&mut self.marks, outer);
        let free = marked_levels(self.alloc, &inner)?;
        mark_all(&mut self.marks, free.as_slice());
        self.found.push(FoundFunction { slots, free })?;
        Ok(0)
    }
}

/// How many variables a function binds in its body.
fn own_variables(recursive: bool) -> u32
    ensures { result ≡ length (own_places recursive) }
{
    if recursive { 2 } else { 1 }
}

/// So many levels without marks.
fn no_marks(alloc: Global, count: usize) -> Result<Vec<bool>, AllocError>
    ensures { IfOk result (λ marks. marks.items ≡ replicate count false) }
{
    let mut marks = Vec::new(alloc);
    marks.resize(count, false)?;
    Ok(marks)
}

/// Marks a variable of a term under `under` binders without marks, where it is one with a mark.
fn mark_variable(marks: &mut Vec<bool>, under: u32, variable: u32)
    ensures marks { marks.new.items ≡ joined marks.old.items (λ i. variable == under + i) }
    ensures length { length marks.new.items ≡ length marks.old.items }
{
    if variable >= under {
        let index = (variable - under) as usize;
        if index < marks.len() {
            let level = marks.len() - 1 - index;
            marks[level] = true;
        }
    }
}

/// The levels that are marked.
fn marked_levels(alloc: Global, marks: &Vec<bool>) -> Result<Levels, AllocError>
    requires { length marks.now.items < 2 ^ 32 }
    ensures { IfOk result (λ levels. levels ≡ marked marks.now.items 0) }
{
    let mut levels = Levels::new(alloc);
    for level in 0..marks.len() {
        if marks[level] {
            levels.push(level as u32)?;
        }
    }
    Ok(levels)
}

/// Marks these levels, where there are such.
fn mark_all(marks: &mut Vec<bool>, levels: &[u32])
    ensures marks { marks.new.items ≡ marking marks.old.items levels.now }
    ensures length { length marks.new.items ≡ length marks.old.items }
{
    for at in 0..levels.len() {
        let level = levels[at] as usize;
        if level < marks.len() {
            marks[level] = true;
        }
    }
}
