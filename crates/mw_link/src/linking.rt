// Linking.

ghost use Rattle.std.specs.Prelude.{◌≡◌, map, IfOk};
ghost use Rattle.mw_encode.specs.Encoding.{encoding};
ghost use Rattle.mw_wasm.specs.Views.{module_of};
ghost use Rattle.mw_link.specs.Linked.{linked};
ghost use Rattle.mw_link.specs.LinkLaw.{AreLinkable, LiteralsOfAllFit, SpellLinked};
ghost use Rattle.mw_link.specs.Views.{kernels_of};

use crate::exports::exports_of;
use crate::parts::{Linkable, Linking, append, put_kernels};
use mw_encode::encode;
use mw_gen::module_with;
use mw_wasm::Module;
use std::alloc::{AllocError, Global};

/// The bytes of the module of all these kernels, in order. Each has the export of its `init` as NAME.init and, where it
/// is a function, that of its `call` as NAME.call. It takes closed code within the limits of kernels, types of at most
/// 10,000 nodes and names of at most 64 printable bytes that differ, of at most 100 kernels with at most 100,000
/// functions together. The one error is want of memory.
pub fn link(alloc: Global, parts: &[Linkable]) -> Result<Vec<u8>, AllocError>
    requires linkable { AreLinkable (kernels_of parts.now) }
    ensures exact { IfOk result (λ bytes. bytes.items ≡ encoding (linked (kernels_of parts.now))) }
    ensures linked { IfOk result (λ bytes. SpellLinked (kernels_of parts.now) bytes.items) }
{
    let wasm = linked_module(alloc, parts)?;
    encode(alloc, &wasm)
}

/// The module of all these kernels.
fn linked_module(alloc: Global, parts: &[Linkable]) -> Result<Module, AllocError>
    requires linkable { AreLinkable (kernels_of parts.now) }
    ensures made { IfOk result (λ wasm. module_of wasm ≡ linked (kernels_of parts.now)) }
    ensures literals { IfOk result (λ _. LiteralsOfAllFit (kernels_of parts.now)) }
{
    let Linking {
        types,
        inner,
        outer,
    } = put_kernels(alloc, parts)?;
    let count = inner.len() as u32;
    let exports = exports_of(alloc, parts, count)?;
    let mut funcs = inner;
    append(&mut funcs, outer)?;
    module_with(alloc, types, funcs, exports, count)
}
