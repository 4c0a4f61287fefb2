// Laws of the words, which no program calls, and worked examples.

ghost use Rattle.mw_words.specs.WordLaws.{OneCommand, EitherForm, AnyOrder};
ghost use Rattle.mw_words.specs.Examples.{FileAlone, FuelApart, FuelJoined, BothOptions, SimplifyFirst, SimplifyLast};
ghost use Rattle.mw_words.specs.Examples.{CacheApart, CacheJoined, CacheSimplified, CacheAmongOptions};
ghost use Rattle.mw_words.specs.Examples.{ErasedAlone, ErasedApart, ErasedJoined, ErasedBehind, SampleOfHundred};
ghost use Rattle.mw_words.specs.Examples.{NoWord, OptionFirst, TwoFiles, TwoDashes, FuelTwice, SimplifyTwice};
ghost use Rattle.mw_words.specs.Examples.{SimplifyValued, CacheTwice, CacheWithoutPath, CacheEmpty, CacheDashed};
ghost use Rattle.mw_words.specs.Examples.{CacheOptionAsPath, ErasedCached, SampleCached, ErasedNoFile, ErasedWorkers};
ghost use Rattle.mw_words.specs.Examples.{ErasedTwoFiles, ErasedSimplified, ErasedFuelTwice};
ghost use Rattle.mw_words.specs.Examples.{MigrateApart, MigrateJoined, MigrateUncached, MigrateTwice, MigrateFile};
ghost use Rattle.mw_words.specs.Examples.{MigrateFuelled, WatFile, WatNoFile, WatTwoFiles, WatOption, WatEmpty};
ghost use Rattle.mw_words.specs.Examples.{WatDashed, CheckFile, CheckNoFile, CheckTwoFiles, CheckOption, CheckEmpty};
ghost use Rattle.mw_words.specs.Examples.{CheckDashed};
ghost use Rattle.mw_words.specs.Examples.{LinkAlone, LinkApart, LinkJoined, LinkBehind, LinkAround, LinkNoFile};
ghost use Rattle.mw_words.specs.Examples.{LinkTwoFiles, LinkSimplified, LinkCached, LinkNoWorker, LinkManyWorkers};
ghost use Rattle.mw_words.specs.Examples.{LinkWorkersTwice, LinkFuelTwice};
ghost use Rattle.mw_words.specs.Examples.{CertFile, RecheckFiles, RecheckSameFile, CertNoFile, CertTwoFiles};
ghost use Rattle.mw_words.specs.Examples.{CertOption, CertEmpty, CertDashed, RecheckNoFile, RecheckOneFile};
ghost use Rattle.mw_words.specs.Examples.{RecheckThreeFiles, RecheckOption, RecheckEmptyCert, RecheckDashedCert};
ghost use Rattle.mw_words.specs.Examples.{RecheckEmptyFile, RecheckDashedFile};

/// Words mean one command at most.
#[tactic(auto, using(crate::proofs::LawLemmas::one_command))]
pub fn one_command()
    ensures { OneCommand }
{}

/// An option reads the same in either form.
#[tactic(auto, using(crate::proofs::LawLemmas::either_form))]
pub fn either_form()
    ensures { EitherForm }
{}

/// Options and the file may stand in any order.
#[tactic(auto, using(crate::proofs::LawLemmas::any_order))]
pub fn any_order()
    ensures { AnyOrder }
{}

/// Words that mean commands.
pub fn commands()
    ensures file_alone { FileAlone }
    ensures fuel_apart { FuelApart }
    ensures fuel_joined { FuelJoined }
    ensures both_options { BothOptions }
    ensures simplify_first { SimplifyFirst }
    ensures simplify_last { SimplifyLast }
    ensures cache_apart { CacheApart }
    ensures cache_joined { CacheJoined }
    ensures cache_simplified { CacheSimplified }
    ensures cache_among_options { CacheAmongOptions }
    ensures erased_alone { ErasedAlone }
    ensures erased_apart { ErasedApart }
    ensures erased_joined { ErasedJoined }
    ensures erased_behind { ErasedBehind }
    ensures sample_of_hundred { SampleOfHundred }
    ensures migrate_apart { MigrateApart }
    ensures migrate_joined { MigrateJoined }
{}

/// Words that mean none.
pub fn usage()
    ensures no_word { NoWord }
    ensures option_first { OptionFirst }
    ensures two_files { TwoFiles }
    ensures two_dashes { TwoDashes }
    ensures fuel_twice { FuelTwice }
    ensures simplify_twice { SimplifyTwice }
    ensures simplify_valued { SimplifyValued }
    ensures cache_twice { CacheTwice }
    ensures cache_without_path { CacheWithoutPath }
    ensures cache_empty { CacheEmpty }
    ensures cache_dashed { CacheDashed }
    ensures cache_option_as_path { CacheOptionAsPath }
    ensures erased_cached { ErasedCached }
    ensures sample_cached { SampleCached }
    ensures erased_no_file { ErasedNoFile }
    ensures erased_workers { ErasedWorkers }
    ensures erased_two_files { ErasedTwoFiles }
    ensures erased_simplified { ErasedSimplified }
    ensures erased_fuel_twice { ErasedFuelTwice }
    ensures migrate_uncached { MigrateUncached }
    ensures migrate_twice { MigrateTwice }
    ensures migrate_file { MigrateFile }
    ensures migrate_fuelled { MigrateFuelled }
{}

/// Words that mean a link.
pub fn link_commands()
    ensures link_alone { LinkAlone }
    ensures link_apart { LinkApart }
    ensures link_joined { LinkJoined }
    ensures link_behind { LinkBehind }
    ensures link_around { LinkAround }
{}

/// Words after `link` that mean none.
pub fn link_usage()
    ensures link_no_file { LinkNoFile }
    ensures link_two_files { LinkTwoFiles }
    ensures link_simplified { LinkSimplified }
    ensures link_cached { LinkCached }
    ensures link_no_worker { LinkNoWorker }
    ensures link_many_workers { LinkManyWorkers }
    ensures link_workers_twice { LinkWorkersTwice }
    ensures link_fuel_twice { LinkFuelTwice }
{}

/// Words that mean a module's text or the verdict on it.
pub fn module_commands()
    ensures wat_file { WatFile }
    ensures check_file { CheckFile }
{}

/// Words that mean neither.
pub fn module_usage()
    ensures wat_no_file { WatNoFile }
    ensures wat_two_files { WatTwoFiles }
    ensures wat_option { WatOption }
    ensures wat_empty { WatEmpty }
    ensures wat_dashed { WatDashed }
    ensures check_no_file { CheckNoFile }
    ensures check_two_files { CheckTwoFiles }
    ensures check_option { CheckOption }
    ensures check_empty { CheckEmpty }
    ensures check_dashed { CheckDashed }
{}

/// Words that mean a certificate or a recheck.
pub fn certificate_commands()
    ensures cert_file { CertFile }
    ensures recheck_files { RecheckFiles }
    ensures recheck_same_file { RecheckSameFile }
{}

/// Words that mean neither.
pub fn certificate_usage()
    ensures cert_no_file { CertNoFile }
    ensures cert_two_files { CertTwoFiles }
    ensures cert_option { CertOption }
    ensures cert_empty { CertEmpty }
    ensures cert_dashed { CertDashed }
    ensures recheck_no_file { RecheckNoFile }
    ensures recheck_one_file { RecheckOneFile }
    ensures recheck_three_files { RecheckThreeFiles }
    ensures recheck_option { RecheckOption }
    ensures recheck_empty_cert { RecheckEmptyCert }
    ensures recheck_dashed_cert { RecheckDashedCert }
    ensures recheck_empty_file { RecheckEmptyFile }
    ensures recheck_dashed_file { RecheckDashedFile }
{}
