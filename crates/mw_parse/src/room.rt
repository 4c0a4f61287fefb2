// How deep what is read may still be.

ghost use Rattle.std.specs.Prelude.{◌≡◌, ◌-◌, ◌<◌, ◌≤◌, IfOk, IfErr};
ghost use Rattle.mw_grammar.specs.declared.fault.Fault.TheVariants.{Deep};

use mw_grammar::fault::Fault;
use mw_lex::Token;
use std::alloc::Global;

/// How many nodes may still stand on a path, and where trees are allocated.
#[derive(Clone, Copy)]
pub(crate) struct Room {
    pub(crate) alloc: Global,
    pub(crate) nodes: u32,
}

impl Room {
    /// The room under a node.
    #[inline(always)]
    pub(crate) fn inner(self) -> Room
        requires { 0 < self.nodes }
        ensures { result.nodes ≡ self.nodes - 1 }
    {
        Room {
            alloc: self.alloc,
            nodes: self.nodes - 1,
        }
    }

    /// The room under a node that also stands over what has this height, or the fault that there is none for the node,
    /// whose token is the first of these.
    #[inline(always)]
    pub(crate) fn below<'t>(self, height: u32, tokens: &'t [Token]) -> Result<Room, Fault<'t>>
        ensures inner { IfOk result (λ inner. inner.nodes ≡ self.nodes - 1) }
        ensures fits { IfOk result (λ _. height < self.nodes) }
        ensures deep { IfErr result (λ fault. fault ≡ Deep tokens.entry) }
        ensures full { IfErr result (λ _. self.nodes ≤ height) }
    {
        if height < self.nodes {
            Ok(self.inner())
        } else {
            Err(Fault::Deep(tokens))
        }
    }
}
