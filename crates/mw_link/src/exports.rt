// The exports of kernels.

ghost use Rattle.std.specs.Prelude.{◌≡◌, ◌+◌, ◌≤◌, ◌++◌, ◌∷◌, [], length, map, codes, IfOk};
ghost use Rattle.mw_term.specs.Terms.{kernel_type_of};
ghost use Rattle.mw_wasm.specs.declared.modules.Exported.TheVariants.{Func};
ghost use Rattle.mw_wasm.specs.Syntax.{Exporting};
ghost use Rattle.mw_wasm.specs.Views.{export_of};
ghost use Rattle.mw_link.specs.Linked.{calls, call_exports, exports_from, init_name, call_name};
ghost use Rattle.mw_link.specs.Views.{exporting, kernel_of, kernels_of};

use crate::parts::Linkable;
use mw_term::{KType, Name, copied_name};
use mw_wasm::{Export, Exported, Exports, Octets};
use std::alloc::{AllocError, Global};

/// A name with five bytes at its end.
fn with_ending(alloc: Global, name: &Name, ending: [u8; 5]) -> Result<Octets, AllocError>
    ensures { IfOk result (λ r. r ≡ name.now ++ ending) }
{
    let mut out = copied_name(alloc, name)?;
    for letter in ending {
        out.push(letter)?;
    }
    Ok(out)
}

/// The export of a function under a kernel's name with an ending.
fn export(alloc: Global, name: &Name, ending: [u8; 5], number: u32) -> Result<Export, AllocError>
    ensures { IfOk result (λ r. export_of r ≡ exporting (name.now ++ ending) number) }
{
    Ok(Export {
        name: with_ending(alloc, name, ending)?,
        what: Exported::Func(number),
    })
}

/// Appends the exports of a kernel whose `init` is function `number`. It gives the number of the next kernel's.
fn put_exports(
    alloc: Global,
    out: &mut Exports,
    kernel: &Linkable,
    number: u32,
) -> Result<u32, AllocError>
    requires { number ≤ 200000 }
    ensures exports { IfOk result (λ _. map export_of out.new ≡ map export_of out.old
        ++ exporting (init_name kernel.now.name) number
        ∷ call_exports (number + 1) (kernel_of kernel.now) (kernel_type_of kernel.now.kind)) }
    ensures next { IfOk result (λ next. next
        ≡ number + calls (kernel_type_of kernel.now.kind) + 1) }
{
    out.push(export(alloc, &kernel.name, *b".init", number)?)?;
    match kernel.kind {
        KType::Ground(_) => Ok(number + 1),
        KType::Fun(_, _) => {
            out.push(export(alloc, &kernel.name, *b".call", number + 1)?)?;
            Ok(number + 2)
        }
    }
}

/// The exports of all kernels, after `count` functions of the table.
pub fn exports_of(alloc: Global, kernels: &[Linkable], count: u32) -> Result<Exports, AllocError>
    requires count { count ≤ 100000 }
    requires few { length kernels.now ≤ 100 }
    ensures { IfOk result (λ r. map export_of r ≡ exports_from count (kernels_of kernels.now)) }
{
    let mut out = Exports::new(alloc);
    let mut number = count;
    for kernel in kernels {
        number = put_exports(alloc, &mut out, kernel, number)?;
    }
    Ok(out)
}
