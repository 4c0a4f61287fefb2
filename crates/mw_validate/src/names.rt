// Names of exports.

ghost use Rattle.std.specs.Prelude.{map, IfOk};
ghost use Rattle.mw_wasm.specs.Views.{export_of};
ghost use Rattle.mw_wasm.specs.Validity.{NamesDiffer};
ghost use Rattle.mw_validate.specs.Deciding.{Decides};

use mw_wasm::Export;
use std::alloc::{AllocError, Global};
use std::collections::BTreeSet;

/// Whether no two exports have one name, in n log n comparisons.
pub fn names_differ(alloc: Global, exports: &[Export]) -> Result<bool, AllocError>
    ensures { IfOk result (λ b. Decides b (NamesDiffer (map export_of exports.now))) }
{
    let names: BTreeSet<&[u8]> = exports
        .iter()
        .map(|export| export.name.as_slice())
        .collect(alloc)?;
    Ok(names.len() == exports.len())
}
