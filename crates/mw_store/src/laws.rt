//! Laws of cache files, which no program calls.

ghost use Rattle.mw_store.specs.LoadLaws.{OneLoad, WholeFilesAreLoaded, FrontIsLoaded, OnlyTheFrontIsRead};

/// Bytes have one load: the records that count are one list, and so is the length that they take.
pub fn one_load()
    ensures { OneLoad }
{}

/// A file of whole records that isn't longer than the limit is loaded whole.
pub fn whole_files_are_loaded()
    ensures { WholeFilesAreLoaded }
{}

/// What is loaded from a file is what is loaded from its first bytes, as many as the limit.
pub fn front_is_loaded()
    ensures { FrontIsLoaded }
{}

/// What is loaded from a file's first bytes, as many as the limit, is what is loaded from all of them, and the other
/// way round.
pub fn only_the_front_is_read()
    ensures { OnlyTheFrontIsRead }
{}
