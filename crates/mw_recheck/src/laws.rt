// Laws of certificates, which no program calls.

ghost use Rattle.mw_recheck.specs.Examples.{ExamplesAreCertified, OthersAreNot, OneClassifierFits, OwnLineNames};
ghost use Rattle.mw_recheck.specs.CertificateLaws.{CertifiedAreTypable, CertificatesAreTypings, CertifiesIsDecided};

/// A program for which a certificate is right is typable, where its lets are syntactic values.
pub fn certified_are_typable()
    ensures { CertifiedAreTypable }
{}

/// Each type of the language that an assignment makes of a let's root type is a type of its definition.
pub fn certificates_are_typings()
    ensures { CertificatesAreTypings }
{}

/// Bytes certify a program, or they don't.
pub fn certifies_is_decided()
    ensures { CertifiesIsDecided }
{}

/// Two worked certificates, which certify their programs.
pub fn examples_are_certified()
    ensures { ExamplesAreCertified }
{}

/// Bytes that certify nothing.
pub fn others_are_not()
    ensures { OthersAreNot }
{}

/// No certificate is right for code that is closed under its own binder.
pub fn one_classifier_fits()
    ensures { OneClassifierFits }
{}

/// A type line that names itself names nothing.
pub fn own_line_names()
    ensures { OwnLineNames }
{}
