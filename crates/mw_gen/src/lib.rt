//! The module of converted code, and that it stands for the code.
#![tactic(auto)]

ghost use Rattle.std.specs.Prelude.{◌≡◌, ◌≤◌, ◌++◌, ◌∷◌, length, map, IfOk};
ghost use Rattle.mw_encode.specs.Encoding.{Spelled};
ghost use Rattle.mw_ir.specs.Ranges.{IsConverted};
ghost use Rattle.mw_meaning.specs.Shapes.{HasShape};
ghost use Rattle.mw_term.specs.Terms.{kernel_type_of};
ghost use Rattle.mw_term.specs.Limits.{kernel_nodes};
ghost use Rattle.mw_wasm.specs.BinaryModules.{wasm_module};
ghost use Rattle.mw_wasm.specs.Profile.{IsWithinProfile};
ghost use Rattle.mw_wasm.specs.Validity.{IsValid};
ghost use Rattle.mw_wasm.specs.Views.{export_of, function_of, module_of};
ghost use Rattle.std.specs.Option.{option_map};
ghost use Rattle.mw_key.specs.declared.version.Version.TheVariants.{Two};
ghost use Rattle.mw_gen.specs.Generate.{function_for, init_function as init_with, restarting};
ghost use Rattle.mw_gen.specs.Parts.{call_for, module_in, moved, moved_function};
ghost use Rattle.mw_gen.specs.Generated.{DoesConverted, functions_in, generated, outer_in};

mod call;
mod code;
mod functions;
pub mod laws;
mod module;
mod parts;
mod tails;

use crate::call::call_function;
use crate::functions::{init_alone, put_all, put_functions, restarting_init};
use crate::module::{elements, exports, globals, types};
pub use crate::module::{first_types, put_call_type};
use mw_ir::Converted;
use mw_term::KType;
use mw_wasm::{Exports, Func, FuncTypes, Funcs, Limits, Module, Segments};
use std::alloc::{AllocError, Global};

/// The pages of a kernel's memory.
const PAGES: u32 = 64;

/// The module of converted code at a kernel type. A self tail call of a recursive function is a branch to a loop.
pub fn generate(alloc: Global, converted: &Converted, kind: &KType) -> Result<Module, AllocError>
    requires converted { IsConverted (functions_in converted.now) (outer_in converted.now) }
    requires nodes { kernel_nodes (kernel_type_of kind.now) ≤ 10000 }
    ensures generated { IfOk result
        (λ wasm. module_of wasm ≡ generated Two converted.now (kernel_type_of kind.now)) }
    ensures spelled { IfOk result (λ wasm. Spelled (wasm_module (module_of wasm))) }
    ensures profile { IfOk result (λ wasm. IsWithinProfile (module_of wasm)) }
    ensures valid { IfOk result (λ wasm. IsValid (module_of wasm)) }
    ensures shape { IfOk result (λ wasm. HasShape (module_of wasm) (kernel_type_of kind.now)) }
    ensures means { IfOk result
        (λ wasm. DoesConverted (module_of wasm) converted.now (kernel_type_of kind.now)) }
{
    whole_module(alloc, converted, kind)
}

/// The module of types, functions and exports, in which the table has the first `count` functions, in order. Its one
/// error is want of memory.
pub fn module_with(
    alloc: Global,
    types: FuncTypes,
    funcs: Funcs,
    exports: Exports,
    count: u32,
) -> Result<Module, AllocError>
    ensures { IfOk result (λ wasm. module_of wasm
        ≡ module_in types (map function_of funcs) (map export_of exports) count) }
{
    Ok(Module {
        types,
        funcs,
        table: Some(Limits {
            min: count,
            max: Some(count),
        }),
        memory: Some(Limits {
            min: PAGES,
            max: Some(PAGES),
        }),
        globals: globals(alloc)?,
        exports,
        elements: elements(alloc, count)?,
        segments: Segments::new(alloc),
    })
}

/// The same module, of which only its parts are said.
fn whole_module(alloc: Global, converted: &Converted, kind: &KType) -> Result<Module, AllocError>
    requires converted { IsConverted (functions_in converted.now) (outer_in converted.now) }
    requires nodes { kernel_nodes (kernel_type_of kind.now) ≤ 10000 }
    ensures { IfOk result
        (λ wasm. module_of wasm ≡ generated Two converted.now (kernel_type_of kind.now)) }
{
    let count = converted.funcs.len() as u32;
    let types = types(alloc, kind)?;
    let funcs = all_functions(alloc, converted, kind)?;
    let exports = exports(alloc, kind, count)?;
    module_with(alloc, types, funcs, exports, count)
}

/// The functions of a kernel among others: those of its code in order, `init`, which first gives the heap back, and,
/// where the kernel is a function, `call`, whose type is number 2 until another one is put in.
#[derive(Drop)]
pub struct Part {
    pub funcs: Funcs,
    pub init: Func,
    pub call: Option<Func>,
}

/// The functions of converted code at a kernel type, as they stand in a module behind `base` others: its functions have
/// the numbers from `base` on, in their closures too. Its one error is want of memory.
pub fn generate_part(
    alloc: Global,
    converted: &Converted,
    kind: &KType,
    base: u32,
) -> Result<Part, AllocError>
    requires converted { IsConverted (functions_in converted.now) (outer_in converted.now) }
    requires nodes { kernel_nodes (kernel_type_of kind.now) ≤ 10000 }
    requires base { base ≤ 100000 }
    ensures funcs { IfOk result (λ part. map function_of part.funcs
        ≡ map (function_for Two) (map (moved_function base) (functions_in converted.now))) }
    ensures init { IfOk result (λ part. function_of part.init
        ≡ restarting (init_with (outer_in converted.now).slots
        (moved base (outer_in converted.now).body))) }
    ensures call { IfOk result (λ part. option_map function_of part.call
        ≡ call_for (kernel_type_of kind.now)) }
{
    let mut funcs = Funcs::new(alloc);
    put_functions(alloc, &mut funcs, &converted.funcs, base)?;
    Ok(Part {
        funcs,
        init: restarting_init(alloc, &converted.body, base)?,
        call: call_part(alloc, kind)?,
    })
}

/// The function `call`, where the type is a function's.
fn call_part(alloc: Global, kind: &KType) -> Result<Option<Func>, AllocError>
    requires nodes { kernel_nodes (kernel_type_of kind.now) ≤ 10000 }
    ensures { IfOk result
        (λ call. option_map function_of call ≡ call_for (kernel_type_of kind.now)) }
{
    match kind {
        KType::Ground(_) => Ok(None),
        KType::Fun(argument, _) => Ok(Some(call_function(alloc, argument)?)),
    }
}

/// The functions of the code, `init` and, for a function, `call`.
fn all_functions(alloc: Global, converted: &Converted, kind: &KType) -> Result<Funcs, AllocError>
    requires converted { IsConverted (functions_in converted.now) (outer_in converted.now) }
    requires nodes { kernel_nodes (kernel_type_of kind.now) ≤ 10000 }
    ensures { IfOk result
        (λ funcs. map function_of funcs ≡ (generated Two converted.now (kernel_type_of kind.now)).funcs) }
{
    let mut funcs = Funcs::new(alloc);
    put_all(alloc, &mut funcs, &converted.funcs)?;
    funcs.push(init_alone(alloc, &converted.body)?)?;
    if let KType::Fun(argument, _) = kind {
        funcs.push(call_function(alloc, argument)?)?;
    }
    Ok(funcs)
}
