// What top-level names have, and whether they can be used at a type.

ghost use Rattle.std.specs.Prelude.{◌≡◌, ◌<◌, ◌-◌, length, map, slice_get, IfOk};
ghost use Rattle.std.specs.Option.{option_map};
ghost use Rattle.mw_lines.specs.Tables.{lines_of, type_at, AreHeld};
ghost use Rattle.mw_recheck.specs.Judging.{is_use, stands_in};
ghost use Rattle.mw_recheck.specs.Roots.{AreRoots, tops_of, AreWithin};
ghost use Rattle.mw_recheck.specs.Views.{binders_of};

use crate::kinds::is_closed_kernel;
use crate::scope::{Scope, is_named, places};
use mw_lines::{TypeLines, holds_classifier, is_made};
use mw_term::KType;
use std::alloc::{AllocError, Global};

/// What an item has: a let its root type, which the last of the lines names, a kernel its kernel type.
#[derive(Drop)]
pub enum Root<'p> {
    Let(TypeLines),
    Kernel(&'p KType),
}

/// What all parts of a term share: where memory comes from, the type lines, what the items before it have, and whether
/// its kernels are in scope.
#[derive(Clone, Copy)]
pub struct Setting<'a> {
    pub alloc: Global,
    pub types: &'a TypeLines,
    pub roots: &'a [Root<'a>],
    pub kernels: bool,
}

/// What an item has, if there is one.
fn root_at<'a>(roots: &'a [Root<'a>], index: u32) -> Option<&'a Root<'a>>
    ensures { option_map (λ root. root.now) result ≡ slice_get roots.now index }
{
    roots.get(index as usize)
}

/// Whether a name can be used at the type of a line. The error is want of memory.
pub fn is_use(setting: &Setting, index: u32, at: usize) -> Result<bool, AllocError>
    requires held { AreHeld setting.now.types.now }
    requires roots { AreRoots setting.now.roots.now }
    requires within { at < length (lines_of setting.now.types.now) }
    ensures { IfOk result (λ yes. yes
        ≡ is_use (slice_get (tops_of setting.now.kernels setting.now.roots.now) index)
        (type_at setting.now.types.now at)) }
{
    match root_at(setting.roots, index) {
        Some(Root::Let(lines)) => {
            is_made(setting.alloc, lines, lines.len() - 1, setting.types, at)
        }
        Some(Root::Kernel(kind)) => {
            Ok(setting.kernels && is_closed_kernel(setting.types, at, kind))
        }
        None => Ok(false),
    }
}

/// Whether the classifier stands in what is known of the binders. The error is want of memory.
pub fn stands_in(setting: &Setting, scope: &Scope, classifier: u64) -> Result<bool, AllocError>
    requires held { AreHeld setting.now.types.now }
    requires within { AreWithin (lines_of setting.now.types.now) (binders_of scope.now) }
    ensures { IfOk result (λ yes.
        yes ≡ stands_in (lines_of setting.now.types.now) classifier (binders_of scope.now)) }
{
    if is_named(scope, classifier) {
        return Ok(true);
    }
    let places = places(setting.alloc, scope)?;
    holds_classifier(setting.alloc, setting.types, places.as_slice(), classifier)
}
