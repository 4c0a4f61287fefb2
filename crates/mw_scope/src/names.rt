// The names of the items so far.

ghost use Rattle.std.specs.Prelude.{[], OnOk};
ghost use Rattle.mw_grammar.specs.SurfaceTrees.{item_of};

use crate::top_names::TopNames;
use mw_grammar::SurfaceItem;
use std::alloc::{AllocError, Global};

/// The names of the items so far: those of lets, which the items after see, and all, which main sees.
#[derive(Drop)]
pub struct Names {
    pub lets: TopNames,
    pub all: TopNames,
}

impl Names {
    ghost use Rattle.mw_scope.specs.Views.{AddsName, Knows};

    /// No names.
    pub fn new(alloc: Global) -> Names
        ensures { Knows result [] }
    {
        Names {
            lets: TopNames::new(alloc),
            all: TopNames::new(alloc),
        }
    }

    /// Adds the name of the item after the items so far, with its index.
    pub fn add(&mut self, alloc: Global, item: &SurfaceItem, index: u32) -> Result<(), AllocError>
        ensures { OnOk result (AddsName self.old self.new (item_of item.now) index) }
    {
        match item {
            SurfaceItem::Let(name, _, _) => {
                self.lets.add(alloc, &name.name, index)?;
                self.all.add(alloc, &name.name, index)?;
            }
            SurfaceItem::Kernel(name, _, _) => self.all.add(alloc, &name.name, index)?,
        }
        Ok(())
    }
}
