// Laws of certificates and inference, which no program calls.

ghost use Rattle.mw_agree.specs.CertLaws.{EqualUnderAll, NoCodeUnderCode, InferredAreCertified};

/// Two types that are one under each assignment are one.
pub fn equal_under_all()
    ensures { EqualUnderAll }
{}

/// In what inference tells of a part's nodes no code type stands under a code type.
pub fn no_code_under_code()
    ensures { NoCodeUnderCode }
{}

/// Sections that tell what inference tells of a program's nodes, in numbers of their own, certify the program.
pub fn inferred_are_certified()
    ensures { InferredAreCertified }
{}
