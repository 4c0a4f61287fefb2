// The laws of canonical texts, which no program calls.

ghost use Rattle.mw_key.specs.TextLaws.{OneText, ShortText};

/// Bytes are the text of one version, code and type at most.
#[tactic(auto, using(crate::proofs::FoundTexts::one_text))]
pub fn one_text()
    ensures { OneText }
{}

/// A text has fewer than 2^32 bytes.
#[tactic(auto, using(crate::proofs::Lengths::short_text))]
pub fn short_text()
    ensures { ShortText }
{}
