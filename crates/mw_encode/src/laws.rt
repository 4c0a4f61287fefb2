// Laws of the definitions, which no program calls.

ghost use Rattle.mw_encode.specs.Encoding.{EncodingIsShortest};

/// The encoding of a module that can be spelled spells it, and no other spelling has fewer bytes.
pub fn encoding_is_shortest()
    ensures { EncodingIsShortest }
{}
