// Small parts of modules, of which several tests build theirs.

ghost use Rattle.std.specs.Prelude.{◌≡◌, IfOk};

use mw_wasm::{FuncType, Octets, ValType, ValTypes};
use std::alloc::{AllocError, Global};

/// These bytes.
pub fn octets(alloc: Global, bytes: &[u8]) -> Result<Octets, AllocError>
    ensures { IfOk result (λ octets. octets ≡ bytes.now) }
{
    let mut octets = Octets::new(alloc);
    for byte in bytes {
        octets.push(*byte)?;
    }
    Ok(octets)
}

/// These types of values.
pub fn value_types(alloc: Global, kinds: &[ValType]) -> Result<ValTypes, AllocError>
    ensures { IfOk result (λ types. types ≡ kinds.now) }
{
    let mut types = ValTypes::new(alloc);
    for kind in kinds {
        types.push(*kind)?;
    }
    Ok(types)
}

/// The type of functions from the first types to the others.
pub fn func_type(alloc: Global, from: &[ValType], to: &[ValType]) -> Result<FuncType, AllocError>
    ensures { IfOk result (λ t. t ≡ record { params = from.now; results = to.now }) }
{
    let params = value_types(alloc, from)?;
    let results = value_types(alloc, to)?;
    Ok(FuncType { params, results })
}
