//! Laws of the list, which no program calls.

ghost use denote.Param.Send.{IsSend, IsSync};
ghost use Rattle.mw_list.specs.contracts.Sequence as sequence;

use crate::Sequence;

/// What may be sent to other threads, and shared with them, may.
fn crosses<E: Send + Sync>()
    ensures send { IsSend E.row }
    ensures sync { IsSync E.row }
{}

/// A list may be sent to other threads, and shared with them, where its elements may.
pub fn sequences_cross<T: Send + Sync + Drop>()
    ensures send { IsSend (sequence.the_row T.row) }
    ensures sync { IsSync (sequence.the_row T.row) }
{
    crosses::<Sequence<T>>();
}
