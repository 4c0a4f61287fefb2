// Laws of certificates, which no program calls.

ghost use Rattle.mw_cert.specs.AcceptedLaws.{AcceptedHaveOne};

/// A typable program without a type that is too big has a written certificate.
pub fn accepted_have_one()
    ensures { AcceptedHaveOne }
{}
