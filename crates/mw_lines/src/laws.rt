// Laws of type lines, which no program calls.

ghost use Rattle.mw_lines.specs.LineLaws.{LinesNameOneList, LinesAreDecided, OneLine};
ghost use Rattle.mw_lines.specs.LineLaws.{MakingIsDecided, CodeIsDecided, ClassifiersAreDecided};

/// Lines that name types name just these.
pub fn lines_name_one_list()
    ensures { LinesNameOneList }
{}

/// Whether lines name types is decided by going over them once.
pub fn lines_are_decided()
    ensures { LinesAreDecided }
{}

/// Two lines never name one type.
pub fn one_line()
    ensures { OneLine }
{}

/// Whether a type is made from a root is decided by what stands in it where the root has a number.
pub fn making_is_decided()
    ensures { MakingIsDecided }
{}

/// Whether a type holds a code type.
pub fn code_is_decided()
    ensures { CodeIsDecided }
{}

/// Whether a classifier stands in a type.
pub fn classifiers_are_decided()
    ensures { ClassifiersAreDecided }
{}
