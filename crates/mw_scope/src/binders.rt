// The binders in scope inside an expression.

ghost use Rattle.std.specs.Prelude.{ℕ, List, ◌≡◌, ◌+◌, ◌-◌, ◌<◌, ◌^◌, suc, IfOk, None, OnOk, Some};

use crate::level::Level;
use indexmap::IndexMap;
use mw_term::Name;
use std::alloc::{AllocError, Global};

/// The binders in scope: of each name the nearest one, by its number from the outermost on, and its level.
#[derive(Drop)]
pub struct Binders {
    nearest: IndexMap<Vec<u8>, Option<(u32, Level)>>,
    pub count: u32,
}

impl Binders {
    ghost use Rattle.mw_scope.specs.Looking.{rebound};
    ghost use Rattle.mw_scope.specs.Views.{binder_at};

    /// No binders.
    pub fn new(alloc: Global) -> Binders
        ensures none { (x : List ℕ) → binder_at result x ≡ None }
        ensures count { result.count ≡ 0 }
    {
        Binders {
            nearest: IndexMap::new(alloc),
            count: 0,
        }
    }

    /// The number and the level of the nearest binder of a name.
    pub fn find(&self, name: &Name) -> Option<(u32, Level)>
        ensures { result ≡ binder_at self.now name.now }
    {
        self.nearest.get(name.as_slice()).copied().flatten()
    }

    /// Makes a binder, or none, the nearest of a name. The name is copied where the map doesn't have it yet.
    fn bind(
        &mut self,
        alloc: Global,
        name: &Name,
        bound: Option<(u32, Level)>,
    ) -> Result<(), AllocError>
        ensures bound { OnOk result
            (binder_at self.new ≡ rebound (binder_at self.old) name.now bound) }
        ensures count { self.new.count ≡ self.old.count }
    {
        if let Some(nearest) = self.nearest.get_mut(name.as_slice()) {
            *nearest = bound;
            return Ok(());
        }
        let key = Vec::from_slice(alloc, name.as_slice())?;
        self.nearest.insert(key, bound)?;
        Ok(())
    }

    /// Adds the nearest binder, and answers the one of its name that it hides.
    pub fn enter(
        &mut self,
        alloc: Global,
        name: &Name,
        level: Level,
    ) -> Result<Option<(u32, Level)>, AllocError>
        requires { self.old.count < 2 ^ 32 - 1 }
        ensures hidden { IfOk result (λ hidden. hidden ≡ binder_at self.old name.now) }
        ensures bound { OnOk result
            (binder_at self.new ≡ rebound (binder_at self.old) name.now (Some (self.old.count, level))) }
        ensures count { OnOk result (self.new.count ≡ suc self.old.count) }
    {
        let hidden = self.find(name);
        self.bind(alloc, name, Some((self.count, level)))?;
        self.count += 1;
        Ok(hidden)
    }

    /// Takes the nearest binder away, which hid this one.
    pub fn leave(
        &mut self,
        alloc: Global,
        name: &Name,
        hidden: Option<(u32, Level)>,
    ) -> Result<(), AllocError>
        requires { 0 < self.old.count }
        ensures bound { OnOk result
            (binder_at self.new ≡ rebound (binder_at self.old) name.now hidden) }
        ensures count { OnOk result (suc self.new.count ≡ self.old.count) }
    {
        self.bind(alloc, name, hidden)?;
        self.count -= 1;
        Ok(())
    }
}
