// The law of what inference tells and certificates, which no program calls.

ghost use Rattle.mw_general.specs.GeneralLaws.{InferredAreGeneral};

/// What assignments make of what any section that is right for a part names, some assignment makes of what inference
/// tells of the part.
pub fn inferred_are_general()
    ensures { InferredAreGeneral }
{}
