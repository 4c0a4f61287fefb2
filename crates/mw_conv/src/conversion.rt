// Conversion.

ghost use Rattle.std.specs.Prelude.{◌≡◌, map, true, IfOk};
ghost use Rattle.mw_term.specs.Terms.{expression_of};
ghost use Rattle.mw_term.specs.Closed.{IsClosed};
ghost use Rattle.mw_term.specs.Limits.{within_limits, LiteralsFit};
ghost use Rattle.mw_ir.specs.Views.{ir_func_of};
ghost use Rattle.mw_ir.specs.Ranges.{IsConverted};
ghost use Rattle.mw_conv.specs.Agreement.{MeansAs};
ghost use Rattle.mw_conv.specs.Convert.{converted_functions, converted_outside};

use crate::code::Converter;
use crate::find::find;
use mw_ir::{Converted, IrFunc};
use mw_term::Term;
use std::alloc::{AllocError, Global};

/// The conversion of closed code within the limits of kernels, with its functions in the order in which they stand in
/// the code.
pub fn convert(alloc: Global, code: &Term) -> Result<Converted, AllocError>
    requires closed { IsClosed (expression_of code.now) }
    requires limits { within_limits (expression_of code.now) ≡ true }
    ensures functions { IfOk result
        (λ r. map ir_func_of r.funcs ≡ converted_functions (expression_of code.now)) }
    ensures body { IfOk result
        (λ r. ir_func_of r.body ≡ converted_outside (expression_of code.now)) }
    ensures meaning { IfOk result
        (λ r. MeansAs (map ir_func_of r.funcs) (ir_func_of r.body) (expression_of code.now)) }
    ensures converted { IfOk result
        (λ r. IsConverted (map ir_func_of r.funcs) (ir_func_of r.body)) }
    ensures literals { IfOk result (λ _. LiteralsFit (expression_of code.now)) }
{
    let (found, slots) = find(alloc, code)?;
    let mut converter = Converter::new(alloc, found);
    let body = converter.convert(code, 0)?;
    let mut funcs = converter.funcs;
    funcs.reverse();
    let body = IrFunc {
        free: 0,
        slots,
        body,
    };
    Ok(Converted { funcs, body })
}
