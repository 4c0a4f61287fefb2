//! The words of the command line, and the command that they mean.
#![tactic(auto)]

ghost use Rattle.std.specs.Prelude.{◌∷◌, ℕ, List, map, IfOk, IfErr, OnErr, codes};
ghost use Rattle.std.specs.String.{string_bytes};
ghost use Rattle.mw_words.specs.Words.{AreParts, AreUnitsOf, Means, IsUsage, PurePart, command_in};

mod files;
mod given;
pub mod laws;
mod number;
mod part;

use crate::files::{read_cert, read_check, read_recheck, read_wat};
use crate::given::{file_of, have_no_file, have_only, number_of, switch_of, word_of};
use crate::number::number_up_to;

/// The most workers of a run or a link, and how many there are where the words name none.
const MOST_WORKERS: u32 = 64;

const DEFAULT_WORKERS: u32 = 4;

/// The most units of fuel for an evaluation, and how many there are where the words name none.
const MOST_FUEL: u32 = 10_000_000;

const DEFAULT_FUEL: u32 = 1_000_000;

/// The most kernels of a sample.
const MOST_KERNELS: u32 = 100;

/// What the words ask for.
#[derive(Clone, Copy, Debug)]
pub enum Command<'w> {
    /// The run of a file by so many workers, with so many units of fuel for each evaluation, with the
    /// kernels' code simplified or as it was built, and with the cache at a path or none.
    Run {
        workers: u32,
        fuel: u64,
        simplify: bool,
        cache: Option<&'w str>,
        file: &'w str,
    },
    /// The run of a file's erased program, with so many units of fuel.
    Erased {
        fuel: u64,
        file: &'w str,
    },
    /// The kernels of a file linked as one module, by so many workers, with so many units of fuel for
    /// each evaluation.
    Link {
        workers: u32,
        fuel: u64,
        file: &'w str,
    },
    /// A source with so many kernels.
    Sample {
        number: u32,
    },
    /// The migration of the cache file at a path.
    Migrate {
        cache: &'w str,
    },
    /// The text of the module in a file.
    Wat {
        file: &'w str,
    },
    /// The verdict on the module in a file.
    Check {
        file: &'w str,
    },
    /// The certificate of the typing of a file's source.
    Cert {
        file: &'w str,
    },
    /// Whether the first file certifies the typing of the second file's source.
    Recheck {
        cert: &'w str,
        file: &'w str,
    },
}

/// Why words mean no command.
#[derive(Clone, Copy, Debug, PartialEq, Eq)]
pub enum WordsFault {
    /// They are no words of a command.
    Usage,
}

/// The command that the words after the program's name mean.
pub fn read_words(words: &[String]) -> Result<Command<'_>, WordsFault>
    ensures some { IfOk result (λ c. Means (map string_bytes words.now) (command_in c)) }
    ensures usage { IfErr result (λ _. IsUsage (map string_bytes words.now)) }
{
    let (command, rest) = words.split_first().ok_or(WordsFault::Usage)?;
    match command.as_str() {
        "run" => read_run(rest),
        "erased" => read_erased(rest),
        "link" => read_link(rest),
        "sample" => read_sample(rest),
        "migrate" => read_migrate(rest),
        "wat" => read_wat(rest),
        "check" => read_check(rest),
        "cert" => read_cert(rest),
        "recheck" => read_recheck(rest),
        _ => Err(WordsFault::Usage),
    }
}

/// The command that the words after `run` mean.
fn read_run(words: &[String]) -> Result<Command<'_>, WordsFault>
    ensures some { IfOk result
        (λ c. Means (codes "run" ∷ map string_bytes words.now) (command_in c)) }
    ensures usage { IfErr result (λ _. IsUsage (codes "run" ∷ map string_bytes words.now)) }
{
    have_only(words, &["--workers", "--fuel", "--simplify", "--cache"])?;
    Ok(Command::Run {
        workers: number_of(words, "--workers", MOST_WORKERS, DEFAULT_WORKERS)?,
        fuel: fuel_of(words)?,
        simplify: switch_of(words, "--simplify")?,
        cache: word_of(words, "--cache")?,
        file: file_of(words)?,
    })
}

/// The command that the words after `erased` mean.
fn read_erased(words: &[String]) -> Result<Command<'_>, WordsFault>
    ensures some { IfOk result
        (λ c. Means (codes "erased" ∷ map string_bytes words.now) (command_in c)) }
    ensures usage { IfErr result (λ _. IsUsage (codes "erased" ∷ map string_bytes words.now)) }
{
    have_only(words, &["--fuel"])?;
    Ok(Command::Erased {
        fuel: fuel_of(words)?,
        file: file_of(words)?,
    })
}

/// The command that the words after `link` mean.
fn read_link(words: &[String]) -> Result<Command<'_>, WordsFault>
    ensures some { IfOk result
        (λ c. Means (codes "link" ∷ map string_bytes words.now) (command_in c)) }
    ensures usage { IfErr result (λ _. IsUsage (codes "link" ∷ map string_bytes words.now)) }
{
    have_only(words, &["--workers", "--fuel"])?;
    Ok(Command::Link {
        workers: number_of(words, "--workers", MOST_WORKERS, DEFAULT_WORKERS)?,
        fuel: fuel_of(words)?,
        file: file_of(words)?,
    })
}

/// The units of fuel that the words give.
fn fuel_of(words: &[String]) -> Result<u64, WordsFault>
    ensures ok { IfOk result (λ n. (parts : List PurePart)
        → AreParts (map string_bytes words.now) parts → AreUnitsOf parts n) }
    ensures usage { OnErr result ((parts : List PurePart)
        → AreParts (map string_bytes words.now) parts → (n : ℕ) → ¬ AreUnitsOf parts n) }
{
    Ok(u64::from(number_of(words, "--fuel", MOST_FUEL, DEFAULT_FUEL)?))
}

/// The command that the words after `sample` mean.
fn read_sample(words: &[String]) -> Result<Command<'_>, WordsFault>
    ensures some { IfOk result
        (λ c. Means (codes "sample" ∷ map string_bytes words.now) (command_in c)) }
    ensures usage { IfErr result (λ _. IsUsage (codes "sample" ∷ map string_bytes words.now)) }
{
    let [word] = words else {
        return Err(WordsFault::Usage);
    };
    let number = number_up_to(word.as_str(), MOST_KERNELS)?;
    Ok(Command::Sample { number })
}

/// The command that the words after `migrate` mean.
fn read_migrate(words: &[String]) -> Result<Command<'_>, WordsFault>
    ensures some { IfOk result
        (λ c. Means (codes "migrate" ∷ map string_bytes words.now) (command_in c)) }
    ensures usage { IfErr result (λ _. IsUsage (codes "migrate" ∷ map string_bytes words.now)) }
{
    have_only(words, &["--cache"])?;
    let cache = word_of(words, "--cache")?.ok_or(WordsFault::Usage)?;
    have_no_file(words)?;
    Ok(Command::Migrate { cache })
}
