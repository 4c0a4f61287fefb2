// The laws on emission, which no program calls.

ghost use denote.Param.Send.{IsSend, IsSync};
ghost use Rattle.mw_compile.specs.contracts.entry.Entry as entry;
ghost use Rattle.mw_compile.specs.EmissionLaws.{EmissionHolds, OneEmission};

use crate::entry::Entry;

/// The emission of each text, of either version, spells its module, which is within the profile's limits, valid, of the
/// shape of its kernel type, and stands for the code.
pub fn emission()
    ensures { EmissionHolds }
{}

/// A text has one emission.
pub fn one_emission()
    ensures { OneEmission }
{}

/// What may be sent to other threads, and shared with them, may.
fn crosses<E: Send + Sync>()
    ensures send { IsSend E.row }
    ensures sync { IsSync E.row }
{}

/// An entry may be sent to other threads, and shared with them.
pub fn entries_cross()
    ensures send { IsSend entry.the_row }
    ensures sync { IsSync entry.the_row }
{
    crosses::<Entry>();
}
