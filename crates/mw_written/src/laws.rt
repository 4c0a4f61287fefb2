// Laws of the written certificate, which no program calls.

ghost use Rattle.mw_written.specs.WrittenLaws.{WrittenCertify, CertificatesAreOne};
ghost use Rattle.mw_written.specs.OrderLaws.{CompletedAreOrdered, ReadAgainAddsNothing};
ghost use Rattle.mw_written.specs.OrderLaws.{NewLinesNameNewTypes, CompletedAreNamed};
ghost use Rattle.mw_written.specs.Examples.{ExamplesAreWritten, OthersAreNotWritten};

/// The written certificate of a program is a certificate of its typing.
pub fn written_certify()
    ensures { WrittenCertify }
{}

/// Types in the order of reading are those that are read and those that stand in them, each once, after its parts.
pub fn completed_are_ordered()
    ensures { CompletedAreOrdered }
{}

/// A type that is read again adds nothing.
pub fn read_again_adds_nothing()
    ensures { ReadAgainAddsNothing }
{}

/// Completed types have type lines, where no type that is read holds code under code.
pub fn completed_are_named()
    ensures { CompletedAreNamed }
{}

/// A line more is new among type lines just where the type that it names is new among theirs.
pub fn new_lines_name_new_types()
    ensures { NewLinesNameNewTypes }
{}

/// A program has at most one written certificate.
pub fn certificates_are_one()
    ensures { CertificatesAreOne }
{}

/// The written certificates of three small programs.
pub fn examples_are_written()
    ensures { ExamplesAreWritten }
{}

/// Certificates of them that aren't the written ones.
pub fn others_are_not_written()
    ensures { OthersAreNotWritten }
{}
