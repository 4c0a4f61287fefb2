// How many rows of each kind there were.

use crate::fields::{KINDS, Kind};
use std::alloc::{AllocError, Global};

/// The numbers of rows, by the place of their kind.
#[derive(Drop)]
pub struct Counts {
    by_kind: [u64; 17],
}

fn place(kind: Kind) -> usize {
    match kind {
        Kind::Run => 0,
        Kind::Tree => 1,
        Kind::Verdicts => 2,
        Kind::Followers => 3,
        Kind::Fronts => 4,
        Kind::Program => 5,
        Kind::Machine => 6,
        Kind::Code => 7,
        Kind::Kernel => 8,
        Kind::Module => 9,
        Kind::Text => 10,
        Kind::Digest => 11,
        Kind::Phases => 12,
        Kind::Cached => 13,
        Kind::Linked => 14,
        Kind::Wat => 15,
        Kind::Certificate => 16,
    }
}

impl Counts {
    /// No rows yet.
    pub fn none() -> Counts {
        Counts { by_kind: [0; 17] }
    }

    /// Counts a row.
    pub fn add(&mut self, kind: Kind) {
        if let Some(count) = self.by_kind.get_mut(place(kind)) {
            *count = count.saturating_add(1);
        }
    }

    /// A line for each kind.
    pub fn lines(&self, alloc: Global) -> Result<String, AllocError> {
        let mut text = String::new(alloc);
        for &kind in KINDS {
            let count = self.by_kind.get(place(kind)).copied().unwrap_or(0);
            text.push_str(format!(in alloc; "{count} {}\n", kind.word())?.as_str())?;
        }
        Ok(text)
    }
}
