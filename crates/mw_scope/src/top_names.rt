// Top-level names and their items.

ghost use Rattle.std.specs.Prelude.{ℕ, List, ◌≡◌, Some, None, OnOk, cond};
ghost use Rattle.std.specs.Str.{bytes_eq};
ghost use Rattle.std.specs.Option.{option_or};

use indexmap::IndexMap;
use mw_term::Name;
use std::alloc::{AllocError, Global};

/// Top-level names, each with the index of the first item that has it.
#[derive(Drop)]
pub struct TopNames {
    places: IndexMap<Vec<u8>, u32>,
}

impl TopNames {
    ghost use Rattle.mw_scope.specs.Views.{place_at};

    /// No names.
    pub fn new(alloc: Global) -> TopNames
        ensures { (x : List ℕ) → place_at result x ≡ None }
    {
        TopNames {
            places: IndexMap::new(alloc),
        }
    }

    /// The index of a name's item.
    pub fn find(&self, name: &Name) -> Option<u32>
        ensures { result ≡ place_at self.now name.now }
    {
        self.places.get(name.as_slice()).copied()
    }

    /// Adds a name with the index of its item, unless the name is there.
    pub fn add(&mut self, alloc: Global, name: &Name, at: u32) -> Result<(), AllocError>
        ensures { OnOk result
            ((x : List ℕ) → place_at self.new x ≡ option_or (place_at self.old x)
            (cond (bytes_eq x name.now) (Some at) None)) }
    {
        if self.find(name).is_some() {
            return Ok(());
        }
        let key = Vec::from_slice(alloc, name.as_slice())?;
        self.places.insert(key, at)?;
        Ok(())
    }
}
