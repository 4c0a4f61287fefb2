// Laws of the definitions, which no program calls.

ghost use Rattle.mw_ir.specs.MeaningLaw.{MeaningFollows};

/// The meaning is one form of it over the meaning itself.
pub fn meaning_follows()
    ensures { MeaningFollows }
{}
