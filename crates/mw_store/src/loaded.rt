// The module of a loaded record, which is decoded when it is asked for.

ghost use Rattle.std.specs.Prelude.{◌≡◌, IfOk, IfSome, IsSome};
ghost use Rattle.std.specs.Arc.{arc_value};
ghost use Rattle.mw_wasm.specs.BinaryModules.{Spells};
ghost use Rattle.mw_wasm.specs.Profile.{IsWithinFileLimit};
ghost use Rattle.mw_wasm.specs.Views.{module_of};
ghost use Rattle.mw_store.specs.Whole.{HasSoundModule};

use crate::whole::sound_module;
use mw_validate::Valid;
use once_cell::race::OnceBox;
use std::alloc::{AllocError, Global};
use std::marker::Model;
use std::sync::Arc;

/// A module, and the bytes that spell it. Contracts see the bytes.
#[derive(Drop)]
pub struct Decoded {
    bytes: Vec<u8>,
    module: Arc<Valid>,
}

impl Model for Decoded {
    ghost use Rattle.std.specs.Prelude.{List, ℕ};
    ghost use Rattle.std.specs.Arc.{arc_value};
    ghost use Rattle.mw_wasm.specs.BinaryModules.{Spells};
    ghost use Rattle.mw_wasm.specs.Views.{module_of};

    ghost Value = { List ℕ };

    ghost view = { λ d. d.bytes.items };

    ghost invariant = { λ d. Spells d.bytes.items (module_of (arc_value d.module)) };
}

impl Decoded {
    /// The module, where these are the bytes that spell it. Takes no memory.
    fn spelled_by(&self, bytes: &[u8]) -> Option<&Arc<Valid>>
        ensures spells { IfSome result (λ m. Spells bytes.now (module_of (arc_value m.now))) }
        ensures found { self.now ≡ bytes.now → IsSome result }
    {
        if self.bytes.as_slice() == bytes {
            Some(&self.module)
        } else {
            None
        }
    }
}

/// The bytes of a loaded module, and the module itself from when it was first asked for. Until then it takes no memory.
#[derive(Drop)]
pub struct LoadedModule {
    bytes: Vec<u8>,
    decoded: OnceBox<Decoded>,
}

impl LoadedModule {
    /// Keeps the bytes.
    pub fn new(alloc: Global, bytes: &[u8]) -> Result<LoadedModule, AllocError>
        ensures { IfOk result (λ loaded. loaded.bytes.items ≡ bytes.now) }
    {
        Ok(LoadedModule {
            bytes: Vec::from_slice(alloc, bytes)?,
            decoded: OnceBox::new(alloc),
        })
    }

    /// The bytes. Takes no memory.
    pub fn bytes(&self) -> &[u8]
        ensures { result.now ≡ self.now.bytes.items }
    {
        self.bytes.as_slice()
    }

    /// The module that the bytes spell. No contract can say what a cell holds, so the bytes are compared with those of
    /// the module that was decoded before.
    pub fn module(&self, alloc: Global) -> Result<Arc<Valid>, AllocError>
        requires limit { IsWithinFileLimit self.now.bytes.items }
        requires sound { HasSoundModule self.now.bytes.items }
        ensures { IfOk result (λ m. Spells self.now.bytes.items (module_of (arc_value m))) }
    {
        if let Some(decoded) = self.decoded.get() {
            if let Some(module) = decoded.spelled_by(self.bytes.as_slice()) {
                return Arc::try_clone(module);
            }
        }
        self.decode(alloc)
    }

    /// Decodes the module, and keeps it where no other thread did so first.
    fn decode(&self, alloc: Global) -> Result<Arc<Valid>, AllocError>
        requires limit { IsWithinFileLimit self.now.bytes.items }
        requires sound { HasSoundModule self.now.bytes.items }
        ensures { IfOk result (λ m. Spells self.now.bytes.items (module_of (arc_value m))) }
    {
        let bytes = self.bytes.as_slice();
        let Some(valid) = sound_module(alloc, bytes)? else {
            unreachable!()
        };
        let module = Arc::new(alloc, valid)?;
        let decoded = Decoded {
            bytes: Vec::from_slice(alloc, bytes)?,
            module: Arc::try_clone(&module)?,
        };
        let _ = self.decoded.set(Box::new(alloc, decoded)?);
        Ok(module)
    }
}
