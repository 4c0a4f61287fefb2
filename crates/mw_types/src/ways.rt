// A find that halves the way.

ghost use Rattle.std.specs.Prelude.{◌≡◌, ◌<◌, length, slice_index_or};
ghost use Rattle.mw_types.specs.Forest.{Low};
ghost use Rattle.mw_types.specs.Shorter.{Shorter};

/// The representative of a node's class; the way to it becomes half as long.
pub fn find_halving(parent: &mut Vec<usize>, from: usize) -> usize
    requires low { Low parent.old.items }
    requires inside { from < length parent.old.items }
    ensures shorter { Shorter parent.old.items parent.new.items from result }
    ensures root { slice_index_or parent.new.items result 0 ≡ result }
{
    let mut at = from;
    while parent[at] != at {
        let up = parent[parent[at]];
        parent[at] = up;
        at = up;
    }
    at
}
