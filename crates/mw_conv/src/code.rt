// The code of a term whose functions were found.

ghost use Rattle.std.specs.Prelude.{◌≡◌, ◌^◌, ◌<◌, ◌++◌, ℕ, [], All, length, IfOk};
ghost use Rattle.mw_term.specs.Terms.{expression_of, pair, bind, cond};
ghost use Rattle.mw_ir.specs.Ir as i;
ghost use Rattle.mw_ir.specs.Views.{ir_of};
ghost use Rattle.mw_conv.specs.Converting.{CanConvert, Converts};
ghost use Rattle.mw_conv.specs.Finding.{function, own_places, freeing, places};

use crate::found::{FoundFunction, Levels};
use mw_ir::{Ir, IrFunc, IrFuncs, Place, Places};
use mw_term::Term;
use std::alloc::{AllocError, Global};
use std::mem;

/// What turns the terms of a kernel into code, from right to left.
#[derive(Drop)]
pub(crate) struct Converter {
    pub(crate) alloc: Global,
    /// The places of the variables in scope, the outermost first.
    pub(crate) context: Vec<Place>,
    /// How many functions aren't added yet.
    pub(crate) left: u32,
    /// What was found of those functions, the next one last.
    pub(crate) found: Vec<FoundFunction>,
    /// The functions that were added, the last one of the code first.
    pub(crate) funcs: IrFuncs,
}

impl Converter {
    /// What converts a kernel whose functions are these, before it begins.
    pub(crate) fn new(alloc: Global, found: Vec<FoundFunction>) -> Converter
        requires { length found.items < 2 ^ 32 }
        ensures context { result.context.items ≡ [] }
        ensures left { result.left ≡ length found.items }
        ensures found { result.found ≡ found }
        ensures funcs { result.funcs ≡ [] }
    {
        Converter {
            alloc,
            context: Vec::new(alloc),
            left: found.len() as u32,
            found,
            funcs: IrFuncs::new(alloc),
        }
    }

    /// The code of a term whose first let takes this slot.
    #[cycle(convert)]
    pub(crate) fn convert(&mut self, term: &Term, slot: u32) -> Result<Ir, AllocError>
        requires { CanConvert self.old (expression_of term.now) slot }
        ensures { IfOk result
            (λ r. Converts self.old self.new (expression_of term.now) slot (ir_of r)) }
    {
        match term {
            Term::Int(n) => Ok(Ir::Int(*n)),
            Term::Bool(b) => Ok(Ir::Bool(*b)),
            Term::Var(i) => Ok(Ir::Get(self.context[self.context.len() - 1 - *i as usize])),
            Term::Fun(e) => self.convert_function(e, false),
            Term::Rec(e) => self.convert_function(e, true),
            Term::App(f, a) => {
                let (first, second) = self.convert_two(f, a, slot)?;
                Ok(Ir::App(first, second))
            }
            Term::Let(d, e) => self.convert_let(d, e, slot),
            Term::If(c, a, b) => self.convert_if(c, a, b, slot),
            Term::Pair(a, b) => {
                let (first, second) = self.convert_two(a, b, slot)?;
                Ok(Ir::Pair(first, second))
            }
            Term::Fst(e) => Ok(Ir::Fst(self.convert_boxed(e, slot)?)),
            Term::Snd(e) => Ok(Ir::Snd(self.convert_boxed(e, slot)?)),
            Term::Prim(p, a, b) => {
                let (first, second) = self.convert_two(a, b, slot)?;
                Ok(Ir::Prim(*p, first, second))
            }
            // No code has these.
            Term::Glob(_) | Term::Bracket(_) | Term::Escape(_) => Ok(Ir::Int(0)),
            Term::Run(_, _) | Term::CloseCode(_, _) | Term::OpenCode(_) => Ok(Ir::Int(0)),
            Term::Lift(_) | Term::LiftB(_) => Ok(Ir::Int(0)),
        }
    }

    #[cycle(convert)]
    fn convert_boxed(&mut self, term: &Term, slot: u32) -> Result<Box<Ir>, AllocError>
        requires { CanConvert self.old (expression_of term.now) slot }
        ensures { IfOk result
            (λ r. Converts self.old self.new (expression_of term.now) slot (ir_of r.value)) }
    {
        Ok(Box::new(self.alloc, self.convert(term, slot)?)?)
    }

    /// The code of two terms, where the functions of the second are added first.
    #[cycle(convert)]
    fn convert_two(
        &mut self,
        first: &Term,
        second: &Term,
        slot: u32,
    ) -> Result<(Box<Ir>, Box<Ir>), AllocError>
        requires { CanConvert self.old
            (pair (expression_of first.now) (expression_of second.now)) slot }
        ensures { IfOk result (λ r. Converts self.old self.new
            (pair (expression_of first.now) (expression_of second.now)) slot
            (i.pair (ir_of r.0.value) (ir_of r.1.value))) }
    {
        let second = self.convert_boxed(second, slot)?;
        let first = self.convert_boxed(first, slot)?;
        Ok((first, second))
    }

    /// The code of a let, whose slot is a place in its body alone.
    #[cycle(convert)]
    fn convert_let(&mut self, definition: &Term, body: &Term, slot: u32) -> Result<Ir, AllocError>
        requires { CanConvert self.old
            (bind (expression_of definition.now) (expression_of body.now)) slot }
        ensures { IfOk result (λ r. Converts self.old self.new
            (bind (expression_of definition.now) (expression_of body.now)) slot (ir_of r)) }
    {
        self.context.push(Place::Slot(slot))?;
        let body = self.convert_boxed(body, slot + 1)?;
        let _slot = self.context.pop();
        let definition = self.convert_boxed(definition, slot)?;
        Ok(Ir::Let(slot, definition, body))
    }

    #[cycle(convert)]
    fn convert_if(
        &mut self,
        condition: &Term,
        yes: &Term,
        no: &Term,
        slot: u32,
    ) -> Result<Ir, AllocError>
        requires { CanConvert self.old
            (cond (expression_of condition.now) (expression_of yes.now) (expression_of no.now))
            slot }
        ensures { IfOk result (λ r. Converts self.old self.new
            (cond (expression_of condition.now) (expression_of yes.now) (expression_of no.now))
            slot (ir_of r)) }
    {
        let (yes, no) = self.convert_two(yes, no, slot)?;
        let condition = self.convert_boxed(condition, slot)?;
        Ok(Ir::If(condition, yes, no))
    }

    /// The closure of a function, which is added after those within it. It takes no slot.
    #[cycle(convert)]
    fn convert_function(&mut self, body: &Term, recursive: bool) -> Result<Ir, AllocError>
        requires { CanConvert self.old (function recursive (expression_of body.now)) 0 }
        ensures { (slot : ℕ) → IfOk result (λ r. Converts self.old self.new
            (function recursive (expression_of body.now)) slot (ir_of r)) }
    {
        let Some(FoundFunction { slots, free }) = self.found.pop() else {
            unreachable!()
        };
        let levels = free.as_slice();
        let places = places_of(self.alloc, &self.context, levels)?;
        let inner = inner_context(self.alloc, &self.context, levels, recursive)?;
        let outer = mem::replace(&mut self.context, inner);
        let body = self.convert(body, 0)?;
        self.context = outer;
        self.left -= 1;
        let free = levels.len() as u32;
        self.funcs.push(IrFunc { free, slots, body })?;
        Ok(Ir::Closure(self.left, places))
    }
}

/// The places of these levels in a context.
fn places_of(alloc: Global, context: &Vec<Place>, levels: &[u32]) -> Result<Places, AllocError>
    requires { All (λ l. l < length context.now.items) levels.now }
    ensures { IfOk result (λ r. r ≡ places context.now.items levels.now) }
{
    let mut places = Places::new(alloc);
    for at in 0..levels.len() {
        places.push(context[levels[at] as usize])?;
    }
    Ok(places)
}

/// The context in a function's body, whose closure holds the variables of these levels. A variable of another level
/// doesn't occur there.
fn inner_context(
    alloc: Global,
    context: &Vec<Place>,
    levels: &[u32],
    recursive: bool,
) -> Result<Vec<Place>, AllocError>
    requires few { length levels.now < 2 ^ 32 }
    requires within { All (λ l. l < length context.now.items) levels.now }
    ensures { IfOk result
        (λ r. r.items ≡ freeing context.now.items levels.now 0 ++ own_places recursive) }
{
    let mut inner = Vec::from_slice(alloc, context.as_slice())?;
    for at in 0..levels.len() {
        inner[levels[at] as usize] = Place::Free(at as u32);
    }
    if recursive {
        inner.push(Place::Own)?;
    }
    inner.push(Place::Argument)?;
    Ok(inner)
}
