// Laws of the definitions, which no program calls.

ghost use Rattle.mw_literals.specs.LiteralLaws.{SourceLiteralsFit, BuiltLiteralsFit, SimplifiedLiteralsFit};

/// The literals of a program that is read from tokens have 64 bits.
pub fn sources()
    ensures { SourceLiteralsFit }
{}

/// So have those of the code that a kernel item comes to.
pub fn built_code()
    ensures { BuiltLiteralsFit }
{}

/// And those of the code that is run of code with such literals.
pub fn simplified_code()
    ensures { SimplifiedLiteralsFit }
{}
