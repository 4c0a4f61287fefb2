// Laws of the sections that are made, which no program calls.

ghost use Rattle.mw_made.specs.MakingLaws.{MadeAreWritten};

/// The sections that are made for what inference tells of a program are those of its written certificate.
pub fn made_are_written()
    ensures { MadeAreWritten }
{}
