// Laws of the definitions, which no program calls.

ghost use Rattle.mw_decode.specs.Laws.{ReadCodeIsSpelled, SpelledCodeIsRead, ReadModuleIsSpelled, SpelledModuleIsRead};
ghost use Rattle.mw_decode.specs.Laws.{ReadFileIsSpelled, SpelledFileIsRead, EncodingIsRead};
ghost use Rattle.mw_decode.specs.FaultLaws.{FaultIsShown};

/// Code that is read is spelled so.
pub fn read_code_is_spelled()
    ensures { ReadCodeIsSpelled }
{}

/// Code that is spelled so is read.
pub fn spelled_code_is_read()
    ensures { SpelledCodeIsRead }
{}

/// A module that bytes spell within the profile is read: it has no fault.
pub fn spelled_module_is_read()
    ensures { SpelledModuleIsRead }
{}

/// A module that is read is spelled by all of the bytes, within the profile.
pub fn read_module_is_spelled()
    ensures { ReadModuleIsSpelled }
{}

/// A file within the limit that spells a module within the profile is read.
pub fn spelled_file_is_read()
    ensures { SpelledFileIsRead }
{}

/// A file that is read is within the limit, and spells its module within the profile.
pub fn read_file_is_spelled()
    ensures { ReadFileIsSpelled }
{}

/// The encoding of a module within the profile is decoded to the same module, where it is within the file limit.
pub fn encoding_is_read()
    ensures { EncodingIsRead }
{}

/// Bytes with a fault spell no module within the profile. Where a byte is wrong, those up to and with it begin none,
/// whatever follows; where the header is, its eight bytes begin none.
pub fn fault_is_shown()
    ensures { FaultIsShown }
{}
