// A kernel's module with its bytes.

ghost use Rattle.std.specs.Prelude.{◌≡◌};
ghost use Rattle.std.specs.Arc.{arc_value};
ghost use Rattle.sha2.specs.Sha256.{sha256};
ghost use Rattle.mw_key.specs.CanonicalText.{home};
ghost use Rattle.mw_compile.specs.Entries.{IsEntry};

use mw_slots::Named;
use mw_validate::Valid;
use std::marker::Model;
use std::sync::Arc;

/// What a kernel's text became: its module and the module's bytes, which mean the code that the text says.
#[derive(Drop)]
pub struct Entry {
    pub(crate) text: Vec<u8>,
    pub(crate) digest: [u8; 32],
    pub(crate) bytes: Vec<u8>,
    pub(crate) module: Arc<Valid>,
}

impl Model for Entry {
    ghost use Rattle.std.specs.Prelude.{◌≡◌};
    ghost use Rattle.std.specs.Arc.{arc_value};
    ghost use Rattle.sha2.specs.Sha256.{sha256};
    ghost use Rattle.std.specs.Coded.{codes};
    ghost use Rattle.mw_wasm.specs.contracts.instructions.Instr as instr;
    ghost use Rattle.mw_compile.specs.Entries.{Emitted, IsEntry};

    ghost Value = { Emitted };

    ghost view = { λ e. record { text = e.text.items; bytes = e.bytes.items; wasm = arc_value e.module } };

    ghost coded = { Prim.hlevel (codes, instr.the_row.coded) };

    ghost invariant = { λ e.
        IsEntry record { text = e.text.items; bytes = e.bytes.items; wasm = arc_value e.module }
        × (e.digest ≡ sha256 e.text.items) };
}

impl Entry {
    /// The kernel's text, of the second version. Takes no memory.
    pub fn text(&self) -> &[u8]
        ensures text { result.now ≡ self.now.text }
        ensures kept { IsEntry self.now }
    {
        self.text.as_slice()
    }

    /// The text's SHA-256. Takes no memory.
    pub fn digest(&self) -> &[u8; 32]
        ensures { result.now ≡ sha256 self.now.text }
    {
        &self.digest
    }

    /// The module's bytes. Takes no memory.
    pub fn bytes(&self) -> &[u8]
        ensures bytes { result.now ≡ self.now.bytes }
        ensures kept { IsEntry self.now }
    {
        self.bytes.as_slice()
    }

    /// The module. Takes no memory.
    pub fn module(&self) -> &Arc<Valid>
        ensures wasm { arc_value result.now ≡ self.now.wasm }
        ensures kept { IsEntry self.now }
    {
        &self.module
    }
}

impl Named for Entry {
    ghost name_of = { λ e. e.text };

    ghost home = { home };

    fn name(&self) -> &[u8] {
        self.text()
    }
}
