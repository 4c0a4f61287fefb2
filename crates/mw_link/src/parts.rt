// Kernels in one module.

ghost use Rattle.std.specs.Prelude.{◌≡◌, ◌+◌, ◌≤◌, ◌++◌, ◌∷◌, true, length, map, IfOk};
ghost use Rattle.std.specs.Option.{option_map};
ghost use Rattle.mw_term.specs.Terms.{expression_of, kernel_type_of, KernelType};
ghost use Rattle.mw_term.specs.Closed.{IsClosed};
ghost use Rattle.mw_term.specs.Limits.{within_limits, kernel_nodes, LiteralsFit};
ghost use Rattle.mw_wasm.specs.Views.{function_of};
ghost use Rattle.mw_conv.specs.Convert.{functions as functions_from};
ghost use Rattle.mw_key.specs.declared.version.Version.TheVariants.{Two};
ghost use Rattle.mw_gen.specs.Generate.{closure_type, function_for, more_types};
ghost use Rattle.mw_gen.specs.Parts.{call_for};
ghost use Rattle.mw_meaning.specs.Shapes.{init_type};
ghost use Rattle.mw_link.specs.Linked.{all_functions, call_of_type, call_types, init_from, outer_functions};
ghost use Rattle.mw_link.specs.LinkLaw.{AreLinkable, LiteralsOfAllFit};
ghost use Rattle.mw_link.specs.Views.{kernels_of};

use mw_conv::convert;
use mw_gen::{Part, first_types, generate_part, put_call_type};
use mw_term::{KType, Name, Term};
use mw_wasm::{Func, FuncTypes, Funcs};
use std::alloc::{AllocError, Global};

/// A kernel that is to be linked: the name that its exports begin with, its code and its type.
#[derive(Drop)]
pub struct Linkable {
    pub name: Name,
    pub code: Term,
    pub kind: KType,
}

/// What there is so far of a linked module: its types, the functions of its table, and the others.
#[derive(Drop)]
pub struct Linking {
    pub types: FuncTypes,
    pub inner: Funcs,
    pub outer: Funcs,
}

/// Appends functions.
pub fn append(out: &mut Funcs, funcs: Funcs) -> Result<(), AllocError>
    ensures { IfOk result (λ _. out.new ≡ out.old ++ funcs) }
{
    for func in funcs.into_vec() {
        out.push(func)?;
    }
    Ok(())
}

/// Appends `call`, where there is one, with the number of its type.
#[tactic(auto, using(crate::proofs::GeneratedParts::call_none, crate::proofs::GeneratedParts::call_some))]
fn put_call(out: &mut Funcs, call: Option<Func>, number: u32) -> Result<(), AllocError>
    ensures { IfOk result (λ _. (k : KernelType) → option_map function_of call ≡ call_for k
        → map function_of out.new ≡ map function_of out.old ++ call_of_type number k) }
{
    if let Some(call) = call {
        out.push(Func {
            kind: number,
            locals: call.locals,
            body: call.body,
        })?;
    }
    Ok(())
}

/// The part of a kernel whose functions are numbered from `base` on.
#[tactic(auto, using(crate::proofs::GeneratedParts::functions_of_part, crate::proofs::GeneratedParts::init_of_part))]
fn part_of(alloc: Global, kernel: &Linkable, base: u32) -> Result<Part, AllocError>
    requires closed { IsClosed (expression_of kernel.now.code) }
    requires limits { within_limits (expression_of kernel.now.code) ≡ true }
    requires nodes { kernel_nodes (kernel_type_of kernel.now.kind) ≤ 10000 }
    requires base { base ≤ 100000 }
    ensures funcs { IfOk result (λ part. map function_of part.funcs
        ≡ map (function_for Two) (functions_from (expression_of kernel.now.code) base 0)) }
    ensures init { IfOk result (λ part. function_of part.init
        ≡ init_from base (expression_of kernel.now.code)) }
    ensures call { IfOk result (λ part. option_map function_of part.call
        ≡ call_for (kernel_type_of kernel.now.kind)) }
    ensures literals { IfOk result (λ _. LiteralsFit (expression_of kernel.now.code)) }
{
    let converted = convert(alloc, &kernel.code)?;
    generate_part(alloc, &converted, &kernel.kind, base)
}

/// Appends a kernel to those before.
pub fn put_kernel(alloc: Global, out: &mut Linking, kernel: &Linkable) -> Result<(), AllocError>
    requires closed { IsClosed (expression_of kernel.now.code) }
    requires limits { within_limits (expression_of kernel.now.code) ≡ true }
    requires nodes { kernel_nodes (kernel_type_of kernel.now.kind) ≤ 10000 }
    requires few { length out.old.inner ≤ 100000 }
    requires types { length out.old.types ≤ 102 }
    ensures inner { IfOk result (λ _. map function_of out.new.inner ≡ map function_of out.old.inner
        ++ map (function_for Two)
        (functions_from (expression_of kernel.now.code) (length out.old.inner) 0)) }
    ensures outer { IfOk result (λ _. map function_of out.new.outer ≡ map function_of out.old.outer
        ++ init_from (length out.old.inner) (expression_of kernel.now.code)
        ∷ call_of_type (length out.old.types) (kernel_type_of kernel.now.kind)) }
    ensures types { IfOk result (λ _. out.new.types
        ≡ out.old.types ++ more_types (kernel_type_of kernel.now.kind)) }
    ensures literals { IfOk result (λ _. LiteralsFit (expression_of kernel.now.code)) }
{
    let base = out.inner.len() as u32;
    let number = out.types.len() as u32;
    let Part { funcs, init, call } = part_of(alloc, kernel, base)?;
    append(&mut out.inner, funcs)?;
    out.outer.push(init)?;
    put_call(&mut out.outer, call, number)?;
    put_call_type(alloc, &mut out.types, &kernel.kind)
}

/// All kernels, one after the other.
pub fn put_kernels(alloc: Global, kernels: &[Linkable]) -> Result<Linking, AllocError>
    requires linkable { AreLinkable (kernels_of kernels.now) }
    ensures inner { IfOk result (λ r. map function_of r.inner
        ≡ map (function_for Two) (all_functions 0 (kernels_of kernels.now))) }
    ensures outer { IfOk result (λ r. map function_of r.outer
        ≡ outer_functions 0 2 (kernels_of kernels.now)) }
    ensures types { IfOk result (λ r. r.types
        ≡ closure_type ∷ init_type ∷ call_types (kernels_of kernels.now)) }
    ensures literals { IfOk result (λ _. LiteralsOfAllFit (kernels_of kernels.now)) }
{
    let mut out = Linking {
        types: first_types(alloc)?,
        inner: Funcs::new(alloc),
        outer: Funcs::new(alloc),
    };
    for kernel in kernels {
        put_kernel(alloc, &mut out, kernel)?;
    }
    Ok(out)
}
