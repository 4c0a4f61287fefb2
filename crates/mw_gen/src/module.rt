// The parts of a module beside its functions.

ghost use Rattle.std.specs.Prelude.{◌≡◌, ◌+◌, ◌<◌, ◌≤◌, [], ◌∷◌, ◌++◌, map, replicate, IfOk};
ghost use Rattle.mw_term.specs.Terms.{kernel_type_of};
ghost use Rattle.mw_term.specs.Limits.{kernel_nodes};
ghost use Rattle.mw_meaning.specs.Shapes.{init_type};
ghost use Rattle.mw_wasm.specs.declared.values.ValType.TheVariants.{I64};
ghost use Rattle.mw_wasm.specs.Syntax.{const_i32, end, next};
ghost use Rattle.mw_wasm.specs.Views.{code_of, element_of, export_of, global_of};
ghost use Rattle.mw_gen.specs.Generate.{
  all_exports,
  closure_type,
  counting,
  elements_of,
  heap_end,
  more_types,
};

use crate::call::leaves;
use crate::functions::words;
use mw_term::KType;
use mw_wasm::{
    Element, Elements, Export, Exported, Exports, FuncType, FuncTypes, GlobalVar, Globals, Indices,
    Instr, Instrs, Octets, ValType, ValTypes,
};
use std::alloc::{AllocError, Global};

/// From these values to a word.
fn to_word(alloc: Global, params: ValTypes) -> Result<FuncType, AllocError>
    ensures { IfOk result (λ t. (t.params ≡ params) × (t.results ≡ I64 ∷ [])) }
{
    let mut results = ValTypes::new(alloc);
    results.push(ValType::I64)?;
    Ok(FuncType { params, results })
}

/// The types of closures' functions and of `init`.
#[tactic(auto, using(crate::proofs::InstructionLists::replicate_first))]
pub fn first_types(alloc: Global) -> Result<FuncTypes, AllocError>
    ensures { IfOk result (λ types. types ≡ closure_type ∷ init_type ∷ []) }
{
    let mut types = FuncTypes::new(alloc);
    types.push(to_word(alloc, words(alloc, 2)?)?)?;
    types.push(to_word(alloc, ValTypes::new(alloc))?)?;
    Ok(types)
}

/// Appends the type of `call`, for a function.
#[tactic(auto, using(crate::proofs::InstructionLists::replicate_first))]
pub fn put_call_type(alloc: Global, types: &mut FuncTypes, kind: &KType) -> Result<(), AllocError>
    requires { kernel_nodes (kernel_type_of kind.now) ≤ 10000 }
    ensures { IfOk result (λ _. types.new ≡ types.old ++ more_types (kernel_type_of kind.now)) }
{
    if let KType::Fun(argument, _) = kind {
        types.push(to_word(alloc, words(alloc, 1 + leaves(argument))?)?)?;
    }
    Ok(())
}

/// The types of closures' functions, of `init` and, for a function, of `call`.
pub fn types(alloc: Global, kind: &KType) -> Result<FuncTypes, AllocError>
    requires { kernel_nodes (kernel_type_of kind.now) ≤ 10000 }
    ensures { IfOk result
        (λ types. types ≡ closure_type ∷ init_type ∷ more_types (kernel_type_of kind.now)) }
{
    let mut types = first_types(alloc)?;
    put_call_type(alloc, &mut types, kind)?;
    Ok(types)
}

/// The expression that is 0.
fn zero(alloc: Global) -> Result<Instrs, AllocError>
    ensures { IfOk result (λ r. code_of r ≡ next (const_i32 0) end) }
{
    let mut out = Instrs::new(alloc);
    out.push(Instr::ConstI32(0))?;
    Ok(out)
}

/// The heap's end, a variable that begins at 0.
pub fn globals(alloc: Global) -> Result<Globals, AllocError>
    ensures { IfOk result (λ globals. map global_of globals ≡ heap_end ∷ []) }
{
    let mut globals = Globals::new(alloc);
    globals.push(GlobalVar {
        kind: ValType::I32,
        variable: true,
        init: zero(alloc)?,
    })?;
    Ok(globals)
}

/// A name of four bytes.
fn name(alloc: Global, letters: [u8; 4]) -> Result<Octets, AllocError>
    ensures { IfOk result (λ name. name ≡ letters) }
{
    let mut name = Octets::new(alloc);
    for letter in letters {
        name.push(letter)?;
    }
    Ok(name)
}

/// The exports: `init`, which is function `count`, and for a function `call`, the next.
pub fn exports(alloc: Global, kind: &KType, count: u32) -> Result<Exports, AllocError>
    requires { count ≤ 20000 }
    ensures { IfOk result
        (λ exports. map export_of exports ≡ all_exports (kernel_type_of kind.now) count (count + 1)) }
{
    let mut exports = Exports::new(alloc);
    exports.push(Export {
        name: name(alloc, *b"init")?,
        what: Exported::Func(count),
    })?;
    if let KType::Fun(_, _) = kind {
        exports.push(Export {
            name: name(alloc, *b"call")?,
            what: Exported::Func(count + 1),
        })?;
    }
    Ok(exports)
}

/// The numbers below a count.
#[tactic(auto, using(crate::proofs::InstructionLists::counting_more))]
fn numbers(alloc: Global, count: u32) -> Result<Indices, AllocError>
    ensures { IfOk result (λ numbers. numbers ≡ counting 0 count) }
{
    let mut numbers = Indices::new(alloc);
    for number in 0..count {
        numbers.push(number)?;
    }
    Ok(numbers)
}

/// The segment that writes the functions of the code into the table, where there are any.
#[tactic(auto, using(crate::proofs::InstructionLists::elements_some))]
pub fn elements(alloc: Global, count: u32) -> Result<Elements, AllocError>
    ensures { IfOk result (λ elements. map element_of elements ≡ elements_of count) }
{
    let mut elements = Elements::new(alloc);
    if count > 0 {
        elements.push(Element {
            offset: zero(alloc)?,
            funcs: numbers(alloc, count)?,
        })?;
    }
    Ok(elements)
}
