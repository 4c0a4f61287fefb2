// Functions by the names under which they are exported.

ghost use Rattle.std.specs.Prelude.{◌≡◌, ℕ, Option, map, nat_eq, None, IfSome, IfNone};
ghost use Rattle.std.specs.Cmp.Lexicographic.{pointwise};
ghost use Rattle.mw_wasm.specs.Instances.{exported, exported_among, function_or};
ghost use Rattle.mw_wasm.specs.Validity.{IsValid};
ghost use Rattle.mw_wasm.specs.Views.{export_of, module_of};
ghost use Rattle.mw_exec.specs.Instancing.{IsFunctionAt, found_or};

use mw_wasm::{Export, Exported, Func, FuncType, Module};

/// The first function that is exported under a name, and its type.
#[tactic(auto, using(crate::proofs::ExportedFunctions::function_in_range, crate::proofs::ExportedFunctions::kind_in_range))]
pub fn function_named<'a>(wasm: &'a Module, name: &[u8]) -> Option<(&'a Func, &'a FuncType)>
    requires valid { IsValid (module_of wasm.now) }
    ensures some { IfSome result (λ found. IsFunctionAt wasm.now name.now found.0.now found.1.now) }
    ensures none { IfNone result (exported (module_of wasm.now) name.now ≡ None) }
{
    let index = index_of(wasm.exports.as_slice(), name)?;
    let function = wasm.funcs.get(index as usize);
    Some((function, wasm.types.get(function.kind as usize)))
}

/// The index of the first function that is exported under a name.
pub fn function_index(wasm: &Module, name: &[u8]) -> Option<u32>
    ensures { result ≡ exported (module_of wasm.now) name.now }
{
    index_of(wasm.exports.as_slice(), name)
}

/// The same among exports.
fn index_of(exports: &[Export], name: &[u8]) -> Option<u32>
    ensures { result ≡ exported_among name.now (map export_of exports.now) }
{
    for export in exports {
        if let Some(f) = function_under(export, name) {
            return Some(f);
        }
    }
    None
}

/// The function that an export gives, where this is its name.
fn function_under(export: &Export, name: &[u8]) -> Option<u32>
    ensures { (other : Option ℕ)
        → function_or (pointwise nat_eq export.now.name name.now) export.now.what other
        ≡ found_or result other }
{
    match export.what {
        Exported::Func(f) => {
            if export.name.as_slice() == name {
                Some(f)
            } else {
                None
            }
        }
        Exported::Table(_) => None,
        Exported::Memory(_) => None,
        Exported::Global(_) => None,
    }
}
