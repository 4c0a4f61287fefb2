// A count of visits.

ghost use Rattle.std.specs.Prelude.{◌≡◌, ◌+◌, ◌<◌, length, slice_get, Some};

use crate::node::CodeNode;
use mw_region::{Id, Pool};
use std::marker::Model;
use std::sync::ledger::{Blank, Book, Ledger, Share};

/// How many nodes were visited. It takes no bytes, and each look at a node of a pool
/// adds one, and so does each part of code that was there before.
#[derive(Drop)]
pub struct Steps<L: Ledger> {
    book: Book<L>,
    share: Share<L>,
}

impl<L: Ledger> Model for Steps<L> {
    ghost use Rattle.std.specs.Prelude.{ℕ, ◌<◌};

    ghost Value = { ℕ };

    ghost view = { λ s. s.book.total };

    ghost invariant = { λ s. 0 < s.share.parts };
}

impl<L: Ledger> Steps<L> {
    /// No visits yet.
    pub fn open(blank: Blank) -> Steps<L>
        requires name { blank.name ≡ L.name }
        requires parts { blank.parts ≡ L.parts }
        requires some { 0 < L.parts }
        ensures { result ≡ 0 }
    {
        let (book, share) = blank.open();
        Steps { book, share }
    }

    /// The node at a place, which is visited.
    pub(crate) fn visit<'c>(&mut self, pool: &Pool<CodeNode<'c>>, id: Id) -> CodeNode<'c>
        requires { id.place < length pool.now.items }
        ensures node { slice_get pool.now.items id.place ≡ Some result }
        ensures step { self.new ≡ self.old + 1 }
    {
        self.book.add(&mut self.share, 1);
        *pool.get(id)
    }

    /// So many parts of code that was there before, which are visited.
    pub(crate) fn visit_parts(&mut self, parts: u32)
        ensures { self.new ≡ self.old + parts }
    {
        self.book.add(&mut self.share, u64::from(parts));
    }
}
