// What was asked of a cache.

ghost use Rattle.std.specs.Prelude.{◌≡◌, [], ◌∷◌, ◌++◌};

use crate::got::Got;
use std::marker::Model;
use std::snapshot::Snapshot;
use std::thread::Threads;

/// What a cache answered, in order: where the modules are that were asked for. Only contracts read it. Only who has the
/// runtime's handle begins one. So a function that is lent one and has no handle notes there whatever it asks for.
#[derive(Drop)]
pub struct Asked {
    trace: Trace,
}

/// How the answers came: none yet; one more; or those of two, one after the other.
#[derive(Drop)]
enum Trace {
    Nothing,
    After(Snapshot<Trace>, Snapshot<Got>),
    Joined(Snapshot<Trace>, Snapshot<Trace>),
}

impl Model for Asked {
    ghost use Rattle.std.specs.Prelude.{List};
    ghost use Rattle.std.specs.Coded.{codes};
    ghost use Rattle.mw_cache.specs.declared.got.Got.{Got};
    ghost use Rattle.mw_cache.specs.contracts.got.Got as got;
    ghost use Rattle.mw_cache.specs.Asking.{gots_of};

    ghost Value = { List Got };

    ghost coded = { Prim.hlevel (codes, got.the_row.coded) };

    ghost view = { λ a. gots_of a.trace };
}

impl Asked {
    /// Nothing was asked for yet.
    pub fn start<R: Threads>(_rt: &R) -> Asked
        ensures { result ≡ [] }
    {
        Asked {
            trace: Trace::Nothing,
        }
    }

    /// One more answer.
    pub(crate) fn add(&mut self, got: &Got)
        ensures { self.new ≡ self.old ++ got.now ∷ [] }
    {
        self.trace = Trace::After(Snapshot::of(&self.trace), Snapshot::of(got));
    }

    /// The answers of another, behind these.
    pub fn join(&mut self, other: Asked)
        ensures { self.new ≡ self.old ++ other }
    {
        let Asked { trace } = other;
        self.trace = Trace::Joined(Snapshot::of(&self.trace), Snapshot::of(&trace));
    }
}
