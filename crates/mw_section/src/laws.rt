// Laws of writing types as lines, which no program calls.

ghost use Rattle.mw_section.specs.WritingLaws.{WritingOnlyAdds, WrittenOnce, LinesAreTypeLines, LinesNameWritten};
ghost use Rattle.mw_section.specs.WritingLaws.{ExampleIsWritten};

/// What is written stays, and more comes behind it.
pub fn writing_only_adds()
    ensures { WritingOnlyAdds }
{}

/// To write a type again changes nothing, whatever was written since.
pub fn written_once()
    ensures { WrittenOnce }
{}

/// The lines of a writing that began with nothing are type lines, where no type holds code under code.
pub fn lines_are_type_lines()
    ensures { LinesAreTypeLines }
{}

/// The line at the place of a written type names that type, its unknowns and classifiers renumbered.
pub fn lines_name_written()
    ensures { LinesNameWritten }
{}

/// The types of a small program, as they are written.
pub fn example_is_written()
    ensures { ExampleIsWritten }
{}
