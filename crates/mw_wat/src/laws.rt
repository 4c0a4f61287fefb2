// Laws of module texts, which no program calls.

ghost use Rattle.mw_wat.specs.TextLaws.{
  CanonicalIsText,
  HasNeverBoth,
  HasOneModule,
  HasTextOrBadPlace,
  ReadIsText,
  SpelledHasTexts,
  StopsAtFirstBadPlace,
  TextIsRead,
  WrittenIsRead,
};
ghost use Rattle.mw_wat.specs.WorkedTexts.{ExamplesHaveTexts, ExamplesAreRead, RefusedAtPlaces};

/// No text is of two modules.
pub fn one_module()
    ensures { HasOneModule }
{}

/// The canonical text is a text of its module.
pub fn canonical_is_text()
    ensures { CanonicalIsText }
{}

/// A text within the limit is read.
pub fn text_is_read()
    ensures { TextIsRead }
{}

/// What is read is what the bytes are a text of, within the limit.
pub fn read_is_text()
    ensures { ReadIsText }
{}

/// Where reading stops is the first bad place.
pub fn stops_at_first_bad_place()
    ensures { StopsAtFirstBadPlace }
{}

/// Bytes are a text within the limit or have a first bad place, and never both.
pub fn always_one()
    ensures either { HasTextOrBadPlace }
    ensures never_both { HasNeverBoth }
{}

/// A module within the profile that bytes spell has texts.
pub fn spelled_has_texts()
    ensures { SpelledHasTexts }
{}

/// The canonical text of such a module is read as the module, where it is short enough.
pub fn written_is_read()
    ensures { WrittenIsRead }
{}

/// The canonical texts of two worked modules.
pub fn examples_have_texts()
    ensures { ExamplesHaveTexts }
{}

/// These texts are read as their modules.
pub fn examples_are_read()
    ensures { ExamplesAreRead }
{}

/// Texts of no module, each with the place where reading stops.
pub fn refused_at_places()
    ensures { RefusedAtPlaces }
{}
