// Values of ground types, read from an instance's memory.

ghost use Rattle.std.specs.Prelude.{◌≡◌, ◌≤◌, IfOk};
ghost use Rattle.mw_term.specs.Terms.{base as base_type, ground_of};
ghost use Rattle.mw_wasm.specs.Store.{Memory};
ghost use Rattle.mw_exec.specs.InstanceStates.{store_in};
ghost use Rattle.mw_kernel.specs.Invoking.{IsReadAt, parts_in};

use mw_exec::Instance;
use mw_term::{Base, BaseValue, Ground, GroundValue};
use std::alloc::{AllocError, Global};

/// The value of a ground type that a word is, beside an instance's memory; none where it is the word of none. It
/// recurses on the type alone, so what the memory holds doesn't lengthen its work.
pub fn read_value(
    alloc: Global,
    instance: &Instance,
    ground: &Ground,
    word: u64,
) -> Result<Option<GroundValue>, AllocError>
    requires { (store_in instance.now).memory.pages ≤ 65536 }
    ensures { IfOk result
        (λ value. IsReadAt (ground_of ground.now) value word (store_in instance.now).memory) }
{
    match ground {
        Ground::Base(base) => Ok(base_value(*base, word)),
        Ground::Pair(first, second) => {
            let Some((left, right)) = parts_at(instance, word) else {
                return Ok(None);
            };
            let Some(left) = read_value(alloc, instance, first, left)? else {
                return Ok(None);
            };
            let Some(right) = read_value(alloc, instance, second, right)? else {
                return Ok(None);
            };
            Ok(Some(GroundValue::Pair(Box::new(alloc, left)?, Box::new(alloc, right)?)))
        }
    }
}

/// The value of a base type that a word is.
fn base_value(base: Base, word: u64) -> Option<GroundValue>
    ensures { (memory : Memory) → IsReadAt (base_type base) result word memory }
{
    match (base, word) {
        (Base::Int, _) => Some(GroundValue::Base(BaseValue::Int(word.cast_signed()))),
        (Base::Bool, 0) => Some(GroundValue::Base(BaseValue::Bool(false))),
        (Base::Bool, 1) => Some(GroundValue::Base(BaseValue::Bool(true))),
        (Base::Bool, _) => None,
    }
}

/// The two words of the pair at an address, where its 16 bytes lie in the memory.
fn parts_at(instance: &Instance, at: u64) -> Option<(u64, u64)>
    requires { (store_in instance.now).memory.pages ≤ 65536 }
    ensures { result ≡ parts_in at (store_in instance.now).memory }
{
    let second = at.checked_add(8)?;
    Some((instance.word(at)?, instance.word(second)?))
}
