// Words beside the commands that they mean, found by hand.

use mw_words::{Command, WordsFault, read_words};
use std::alloc::{AllocError, Global};
use std::process::Abort;

/// A run as text.
fn run_shown(
    alloc: Global,
    word: &str,
    workers: u32,
    fuel: u64,
    file: &str,
    cache: Option<&str>,
) -> Result<String, AllocError> {
    match cache {
        None => format!(in alloc; "{word} {workers} {fuel} {file}"),
        Some(path) => format!(in alloc; "{word} {workers} {fuel} {file} by {path}"),
    }
}

/// A command that no run of a source is, as text.
fn file_shown(alloc: Global, word: &str, file: &str) -> Result<String, AllocError> {
    format!(in alloc; "{word} {file}")
}

/// A command as text.
fn shown(alloc: Global, command: Command) -> Result<String, AllocError> {
    match command {
        Command::Run {
            workers,
            fuel,
            simplify,
            cache,
            file,
        } => {
            let word = if simplify { "simplify" } else { "run" };
            run_shown(alloc, word, workers, fuel, file, cache)
        }
        Command::Erased { fuel, file } => format!(in alloc; "erased {fuel} {file}"),
        Command::Link {
            workers,
            fuel,
            file,
        } => run_shown(alloc, "link", workers, fuel, file, None),
        Command::Sample { number } => format!(in alloc; "sample {number}"),
        Command::Migrate { cache } => file_shown(alloc, "migrate", cache),
        Command::Wat { file } => file_shown(alloc, "wat", file),
        Command::Check { file } => file_shown(alloc, "check", file),
        Command::Cert { file } => file_shown(alloc, "cert", file),
        Command::Recheck { cert, file } => format!(in alloc; "recheck {file} by {cert}"),
    }
}

fn owned(alloc: Global, words: &[&str]) -> Result<Vec<String>, AllocError> {
    let mut all = Vec::new(alloc);
    for word in words {
        all.push(String::from_str(alloc, word)?)?;
    }
    Ok(all)
}

/// What words mean, as text.
fn meaning(alloc: Global, words: &[&str]) -> Result<String, AllocError> {
    let words = owned(alloc, words)?;
    match read_words(words.as_slice()) {
        Ok(command) => shown(alloc, command),
        Err(WordsFault::Usage) => String::from_str(alloc, "usage"),
    }
}

/// The words of each row mean what stands beside them.
fn assert_meanings<R: Abort + AllocGlobal>(
    rt: &R,
    rows: &[(&[&str], &str)],
) -> Result<(), AllocError> {
    for &(words, expected) in rows {
        let text = meaning(rt.alloc(), words)?;
        assert_eq!(rt; text.as_str(), expected);
    }
    Ok(())
}

/// The words of no row mean anything.
fn assert_usage<R: Abort + AllocGlobal>(rt: &R, rows: &[&[&str]]) -> Result<(), AllocError> {
    for &words in rows {
        let text = meaning(rt.alloc(), words)?;
        assert_eq!(rt; text.as_str(), "usage", "{words:?}");
    }
    Ok(())
}

/// Words, and what they mean.
const RUNS: &[(&[&str], &str)] = &[
    (&["run", "f"], "run 4 1000000 f"),
    (&["run", "run"], "run 4 1000000 run"),
    (&["run", "a b"], "run 4 1000000 a b"),
    (&["run", "f-"], "run 4 1000000 f-"),
    (&["run", "=x"], "run 4 1000000 =x"),
    (&["run", "8"], "run 4 1000000 8"),
    (&["run", "--fuel", "8", "f"], "run 4 8 f"),
    (&["run", "--fuel=8", "f"], "run 4 8 f"),
    (&["run", "f", "--fuel", "8"], "run 4 8 f"),
    (&["run", "f", "--fuel=8"], "run 4 8 f"),
    (&["run", "--workers", "1", "f"], "run 1 1000000 f"),
    (&["run", "--workers=64", "f"], "run 64 1000000 f"),
    (&["run", "--workers", "64", "f"], "run 64 1000000 f"),
    (&["run", "f", "--workers=2", "--fuel=3"], "run 2 3 f"),
    (&["run", "--workers", "2", "f", "--fuel", "3"], "run 2 3 f"),
    (&["run", "--fuel=3", "--workers=2", "f"], "run 2 3 f"),
    (&["run", "--fuel", "3", "f", "--workers=2"], "run 2 3 f"),
    (&["run", "f", "--fuel", "3", "--workers", "2"], "run 2 3 f"),
    (&["run", "--fuel=1", "f"], "run 4 1 f"),
    (&["run", "--fuel=10000000", "f"], "run 4 10000000 f"),
    (&["run", "--fuel", "10000000", "f"], "run 4 10000000 f"),
    (&["run", "--fuel=000000005", "f"], "run 4 5 f"),
    (&["run", "--fuel", "000000005", "f"], "run 4 5 f"),
    (&["run", "--workers=000000064", "f"], "run 64 1000000 f"),
    (&["run", "--workers=01", "f"], "run 1 1000000 f"),
    (&["run", "\u{e9}"], "run 4 1000000 \u{e9}"),
    (&["run", "--simplify", "f"], "simplify 4 1000000 f"),
    (&["run", "f", "--simplify"], "simplify 4 1000000 f"),
    (
        &["run", "--simplify", "simplify"],
        "simplify 4 1000000 simplify",
    ),
    (&["run", "simplify"], "run 4 1000000 simplify"),
    (&["run", "--fuel", "8", "--simplify", "f"], "simplify 4 8 f"),
    (&["run", "--simplify", "--fuel=8", "f"], "simplify 4 8 f"),
    (
        &["run", "--workers=2", "f", "--simplify", "--fuel", "3"],
        "simplify 2 3 f",
    ),
    (&["run", "--cache", "c", "f"], "run 4 1000000 f by c"),
    (&["run", "--cache=c", "f"], "run 4 1000000 f by c"),
    (&["run", "f", "--cache", "c"], "run 4 1000000 f by c"),
    (&["run", "f", "--cache=c"], "run 4 1000000 f by c"),
    (&["run", "--cache", "f", "f"], "run 4 1000000 f by f"),
    (&["run", "--cache==c", "f"], "run 4 1000000 f by =c"),
    (&["run", "--cache=a=b", "f"], "run 4 1000000 f by a=b"),
    (&["run", "--cache=c-", "f"], "run 4 1000000 f by c-"),
    (&["run", "--cache", "a b", "f"], "run 4 1000000 f by a b"),
    (&["run", "cache"], "run 4 1000000 cache"),
    (&["run", "--cache=\u{e9}", "f"], "run 4 1000000 f by \u{e9}"),
    (
        &["run", "--simplify", "--cache", "c", "f"],
        "simplify 4 1000000 f by c",
    ),
    (
        &["run", "--cache=c", "f", "--simplify"],
        "simplify 4 1000000 f by c",
    ),
    (
        &[
            "run",
            "--fuel",
            "8",
            "f",
            "--cache",
            "c",
            "--simplify",
            "--workers=2",
        ],
        "simplify 2 8 f by c",
    ),
    (
        &["run", "--cache=c", "--workers", "2", "f"],
        "run 2 1000000 f by c",
    ),
    (&["erased", "f"], "erased 1000000 f"),
    (&["erased", "erased"], "erased 1000000 erased"),
    (&["erased", "--fuel", "8", "f"], "erased 8 f"),
    (&["erased", "--fuel=8", "f"], "erased 8 f"),
    (&["erased", "f", "--fuel", "8"], "erased 8 f"),
    (&["erased", "f", "--fuel=8"], "erased 8 f"),
    (&["erased", "--fuel=1", "f"], "erased 1 f"),
    (&["erased", "--fuel=10000000", "f"], "erased 10000000 f"),
    (&["erased", "--fuel", "000000005", "f"], "erased 5 f"),
    (&["run", "erased"], "run 4 1000000 erased"),
    (
        &["run", "--workers", "8", "--fuel", "2", "--simplify", "f"],
        "simplify 8 2 f",
    ),
    (&["run", "f", "--fuel=2", "--workers=8"], "run 8 2 f"),
    (&["run", "--workers=8", "f"], "run 8 1000000 f"),
    (&["erased", "f=g"], "erased 1000000 f=g"),
    (&["sample", "1"], "sample 1"),
    (&["sample", "100"], "sample 100"),
    (&["sample", "000000100"], "sample 100"),
    (&["sample", "07"], "sample 7"),
];

/// The same, of a migration, of a module's text and of the verdict on a module.
const MODULES: &[(&[&str], &str)] = &[
    (&["migrate", "--cache", "c"], "migrate c"),
    (&["migrate", "--cache=c"], "migrate c"),
    (&["migrate", "--cache", "a b"], "migrate a b"),
    (&["migrate", "--cache", "migrate"], "migrate migrate"),
    (&["migrate", "--cache==c"], "migrate =c"),
    (&["migrate", "--cache=a=b"], "migrate a=b"),
    (&["migrate", "--cache=c-"], "migrate c-"),
    (&["migrate", "--cache=\u{e9}"], "migrate \u{e9}"),
    (&["wat", "f"], "wat f"),
    (&["wat", "wat"], "wat wat"),
    (&["wat", "a b"], "wat a b"),
    (&["wat", "f-"], "wat f-"),
    (&["wat", "f=g"], "wat f=g"),
    (&["wat", "\u{e9}"], "wat \u{e9}"),
    (&["check", "f"], "check f"),
    (&["check", "check"], "check check"),
    (&["check", "a b"], "check a b"),
    (&["check", "f-"], "check f-"),
    (&["check", "=f"], "check =f"),
    (&["run", "wat"], "run 4 1000000 wat"),
    (&["run", "check"], "run 4 1000000 check"),
    (&["run", "migrate"], "run 4 1000000 migrate"),
];

/// The same, of a link.
const LINKS: &[(&[&str], &str)] = &[
    (&["link", "f"], "link 4 1000000 f"),
    (&["link", "link"], "link 4 1000000 link"),
    (&["link", "--workers", "1", "f", "--fuel=1"], "link 1 1 f"),
    (
        &["link", "f", "--workers=64", "--fuel", "10000000"],
        "link 64 10000000 f",
    ),
    (&["run", "link"], "run 4 1000000 link"),
];

/// The same, of certificates.
const CERTIFICATES: &[(&[&str], &str)] = &[
    (&["cert", "f"], "cert f"),
    (&["cert", "cert"], "cert cert"),
    (&["cert", "a b"], "cert a b"),
    (&["cert", "f-"], "cert f-"),
    (&["cert", "f=g"], "cert f=g"),
    (&["cert", "\u{e9}"], "cert \u{e9}"),
    (&["recheck", "c", "f"], "recheck f by c"),
    (&["recheck", "f", "c"], "recheck c by f"),
    (&["recheck", "f", "f"], "recheck f by f"),
    (
        &["recheck", "recheck", "recheck"],
        "recheck recheck by recheck",
    ),
    (&["recheck", "c-", "f-"], "recheck f- by c-"),
    (&["recheck", "a b", "c"], "recheck c by a b"),
    (&["recheck", "a", "b=c"], "recheck b=c by a"),
    (&["recheck", "\u{e9}", "f"], "recheck f by \u{e9}"),
    (&["run", "cert"], "run 4 1000000 cert"),
    (&["run", "recheck"], "run 4 1000000 recheck"),
];

/// Words that mean nothing, for what stands around the options.
const NO_COMMANDS: &[&[&str]] = &[
    &[],
    &[""],
    &["run"],
    &["run", ""],
    &["run", "-"],
    &["run", "--"],
    &["run", "-f"],
    &["run", "f", "g"],
    &["run", "f", "f"],
    &["run", "f", ""],
    &["run", "f", "-"],
    &["run", "--", "f"],
    &["run", "f", "--"],
    &["run", "-x", "f"],
    &["run", "--fuel"],
    &["run", "f", "--fuel"],
    &["run", "--fuel", "8"],
    &["run", "--fuel=8"],
    &["run", "--cache=c"],
    &["run", "--cache", "c"],
    &["run", "-cache=c", "f"],
    &["run", "--caches=c", "f"],
    &["run", "--Cache=c", "f"],
    &["--cache=c", "run", "f"],
    &["cache", "c"],
    &["run", "--simplify"],
    &["run", "--simplify=1", "f"],
    &["run", "--simplify=", "f"],
    &["run", "--simplify", "f", "g"],
    &["run", "--Simplify", "f"],
    &["run", "-simplify", "f"],
    &["run", "--simplif", "f"],
    &["run", "--simplify ", "f"],
    &["run", "--fuel", "--simplify", "f"],
    &["--simplify", "run", "f"],
    &["sample", "--simplify", "6"],
    &["run", "--help"],
    &["--help"],
    &["--version"],
    &["--fuel", "7", "run", "f"],
    &["f"],
    &["Run", "f"],
    &["runs", "f"],
    &["sample"],
    &["sample", ""],
    &["sample", "5", "6"],
    &["sample", "--fuel=5", "6"],
    &["sample", "f"],
    &["erased"],
    &["erased", ""],
    &["erased", "-"],
    &["erased", "--", "f"],
    &["erased", "f", "g"],
    &["erased", "--fuel"],
    &["erased", "--fuel", "8"],
    &["erased", "--cache=c", "f"],
    &["erased", "--simplify", "f"],
    &["erased", "f", "--simplify"],
    &["erased", "--fuel=8", "f", "--simplify"],
    &["--fuel", "7", "erased", "f"],
    &["Erased", "f"],
    &["erase", "f"],
];

/// Words that mean nothing, for each command: an option that it doesn't take, an option twice in each
/// form, an option without its value at the end, `=` with no value behind it, two files, no file.
const OF_EACH_COMMAND: &[&[&str]] = &[
    &["run", "--cache=c", "f", "--cache", "d"],
    &["run", "--cache", "c", "--cache", "c", "f"],
    &["run", "f", "--cache"],
    &["run", "f", "--fuel=8", "--cache"],
    &["run", "f", "--cache="],
    &["run", "--cache=c", "f", "g"],
    &["run", "--cache=c", "--simplify"],
    &["erased", "f", "--cache", "c"],
    &["erased", "f", "--cache"],
    &["sample", "5", "--cache=c"],
    &["sample", "--cache", "c"],
    &["sample", "--cache", "c", "5"],
    &["sample", "--cache=c", "5"],
    &["sample", "--cache=5"],
    &["run", "--workers=2", "f", "--workers", "3"],
    &["run", "--workers", "2", "--workers", "3", "f"],
    &["run", "--fuel", "7", "--fuel=8", "f"],
    &["run", "--fuel=8", "--simplify", "f", "--fuel=8"],
    &["run", "--simplify", "--fuel=8", "f", "--simplify"],
    &["run", "f", "--workers"],
    &["run", "f", "--fuel=8", "--workers"],
    &["run", "f", "--simplify", "--fuel"],
    &["run", "f", "--workers="],
    &["run", "f", "--fuel="],
    &["run", "f", "--simplify="],
    &["run", "f", "--workers=2", "g"],
    &["run", "--workers=2", "--fuel=8", "--simplify"],
    &["erased", "f", "--workers", "4"],
    &["erased", "f", "--simplify", "--fuel=8"],
    &["erased", "--cache", "c", "f"],
    &["erased", "--fuel", "7", "f", "--fuel", "8"],
    &["erased", "--fuel=7", "f", "--fuel", "8"],
    &["erased", "f", "--fuel"],
    &["erased", "f", "--fuel="],
    &["erased", "--fuel=8", "f", "g"],
    &["erased", "--fuel=8"],
    &["sample", "5", "f"],
    &["sample", "f", "5"],
    &["sample", "5", "--fuel=5"],
    &["sample", "5", "--workers", "2"],
    &["sample", "--simplify", "5"],
    &["sample", "--workers"],
    &["sample", "--fuel="],
];

/// Words that mean nothing, of a migration, of a module's text and of the verdict on a module.
const NO_MODULES: &[&[&str]] = &[
    &["migrate"],
    &["migrate", ""],
    &["migrate", "c"],
    &["migrate", "--cache"],
    &["migrate", "--cache="],
    &["migrate", "--cache", ""],
    &["migrate", "--cache", "-c"],
    &["migrate", "--cache=-c"],
    &["migrate", "--cache", "--cache", "c"],
    &["migrate", "--cache=c", "--cache=c"],
    &["migrate", "--cache", "c", "--cache", "d"],
    &["migrate", "--cache=c", "--cache", "d"],
    &["migrate", "--cache=c", "f"],
    &["migrate", "--cache", "c", "f"],
    &["migrate", "f", "--cache=c"],
    &["migrate", "--cache=c", ""],
    &["migrate", "--cache=c", "--"],
    &["migrate", "--cache=c", "--fuel=8"],
    &["migrate", "--fuel", "8", "--cache", "c"],
    &["migrate", "--workers=2", "--cache=c"],
    &["migrate", "--simplify", "--cache=c"],
    &["migrate", "--cache=c", "--simplify"],
    &["migrate", "-cache=c"],
    &["migrate", "--caches=c"],
    &["--cache=c", "migrate"],
    &["Migrate", "--cache=c"],
    &["migrates", "--cache=c"],
    &["wat"],
    &["wat", ""],
    &["wat", "-"],
    &["wat", "-f"],
    &["wat", "--"],
    &["wat", "--", "f"],
    &["wat", "f", "g"],
    &["wat", "f", ""],
    &["wat", "", "f"],
    &["wat", "--fuel=8"],
    &["wat", "--fuel=8", "f"],
    &["wat", "f", "--fuel", "8"],
    &["wat", "--simplify", "f"],
    &["wat", "f", "--simplify"],
    &["wat", "--cache=c", "f"],
    &["wat", "--workers", "2", "f"],
    &["Wat", "f"],
    &["wats", "f"],
    &["check"],
    &["check", ""],
    &["check", "-"],
    &["check", "-f"],
    &["check", "--"],
    &["check", "--", "f"],
    &["check", "f", "g"],
    &["check", "f", ""],
    &["check", "", "f"],
    &["check", "--fuel=8"],
    &["check", "--fuel=8", "f"],
    &["check", "f", "--fuel", "8"],
    &["check", "--simplify", "f"],
    &["check", "f", "--simplify"],
    &["check", "--cache=c", "f"],
    &["check", "--workers", "2", "f"],
    &["Check", "f"],
    &["checks", "f"],
];

/// Words that mean nothing, of certificates.
const NO_CERTIFICATES: &[&[&str]] = &[
    &["cert"],
    &["cert", ""],
    &["cert", "-"],
    &["cert", "-f"],
    &["cert", "--"],
    &["cert", "--", "f"],
    &["cert", "f", "g"],
    &["cert", "f", ""],
    &["cert", "", "f"],
    &["cert", "--fuel=8"],
    &["cert", "--fuel=8", "f"],
    &["cert", "f", "--fuel", "8"],
    &["cert", "--simplify", "f"],
    &["cert", "f", "--simplify"],
    &["cert", "--cache=c", "f"],
    &["cert", "--workers", "2", "f"],
    &["Cert", "f"],
    &["certs", "f"],
    &["cer", "f"],
    &["recheck"],
    &["recheck", ""],
    &["recheck", "f"],
    &["recheck", "-f"],
    &["recheck", "c", "f", "g"],
    &["recheck", "c", "f", ""],
    &["recheck", "", "c", "f"],
    &["recheck", "", "f"],
    &["recheck", "c", ""],
    &["recheck", "", ""],
    &["recheck", "-", "f"],
    &["recheck", "c", "-"],
    &["recheck", "-c", "f"],
    &["recheck", "c", "-f"],
    &["recheck", "--", "c", "f"],
    &["recheck", "--", "f"],
    &["recheck", "c", "--"],
    &["recheck", "--fuel", "1", "c", "f"],
    &["recheck", "--fuel=1", "c", "f"],
    &["recheck", "c", "--fuel=1", "f"],
    &["recheck", "c", "f", "--fuel=1"],
    &["recheck", "--fuel", "1"],
    &["recheck", "--fuel=1", "f"],
    &["recheck", "c", "--simplify"],
    &["recheck", "--simplify", "c", "f"],
    &["recheck", "--cache=c", "f"],
    &["recheck", "--workers", "2", "c", "f"],
    &["Recheck", "c", "f"],
    &["rechecks", "c", "f"],
    &["re", "c", "f"],
];

/// Words that mean nothing, of a link.
const NO_LINKS: &[&[&str]] = &[
    &["link"],
    &["link", ""],
    &["link", "-f"],
    &["link", "f", "g"],
    &["link", "--fuel=8"],
    &["link", "--simplify", "f"],
    &["link", "f", "--simplify"],
    &["link", "--cache=c", "f"],
    &["link", "f", "--cache", "c"],
    &["link", "--workers=0", "f"],
    &["link", "--workers", "65", "f"],
    &["link", "--fuel=0", "f"],
    &["link", "--fuel", "10000001", "f"],
    &["link", "--workers=2", "f", "--workers", "2"],
    &["link", "--fuel", "8", "--fuel=8", "f"],
    &["link", "f", "--workers"],
    &["link", "f", "--fuel="],
    &["--fuel=8", "link", "f"],
    &["links", "f"],
];

/// Words that mean nothing, for an option that is named twice or amiss, or for its value.
const NO_VALUES: &[&[&str]] = &[
    &["run", "--fuel=8", "--fuel=8", "f"],
    &["run", "--fuel", "8", "f", "--fuel=8"],
    &["run", "--fuel", "8", "f", "--fuel", "8"],
    &["run", "--workers=2", "--workers=2", "f"],
    &["run", "--workers", "2", "f", "--workers=2"],
    &["run", "--simplify", "--simplify", "f"],
    &["run", "--simplify", "f", "--simplify"],
    &["run", "f", "--simplify", "--fuel=8", "--simplify"],
    &["run", "--fuel=", "f"],
    &["run", "--fuel", "", "f"],
    &["run", "--fuel= 8", "f"],
    &["run", "--fuel=8 ", "f"],
    &["run", "--fuel", " 8", "f"],
    &["run", "--fuel=+5", "f"],
    &["run", "--fuel", "+5", "f"],
    &["run", "--fuel=-5", "f"],
    &["run", "--fuel", "-5", "f"],
    &["run", "--fuel", "--workers=2", "f"],
    &["run", "--fuel", "f", "8"],
    &["run", "--fuel=0x8", "f"],
    &["run", "--fuel=1_000", "f"],
    &["run", "--fuel==8", "f"],
    &["run", "--fuel=0", "f"],
    &["run", "--fuel", "0", "f"],
    &["run", "--fuel=10000001", "f"],
    &["run", "--fuel=999999999", "f"],
    &["run", "--fuel=1000000000", "f"],
    &["run", "--fuel=0000000005", "f"],
    &["run", "--fuel=4294967304", "f"],
    &["run", "--workers=0", "f"],
    &["run", "--workers", "65", "f"],
    &["run", "--workers=65", "f"],
    &["run", "--workers=", "f"],
    &["run", "--cache=c", "--cache=c", "f"],
    &["run", "--cache", "c", "f", "--cache=c"],
    &["run", "--cache=", "f"],
    &["run", "--cache", "", "f"],
    &["run", "--cache=-c", "f"],
    &["run", "--cache", "-c", "f"],
    &["run", "--cache=-", "f"],
    &["run", "--cache", "--", "f"],
    &["run", "--cache", "--simplify", "f"],
    &["run", "--cache", "--fuel=8", "f"],
    &["run", "--fuel", "--cache=c", "f"],
    &["run", "-fuel=8", "f"],
    &["run", "--fuels=8", "f"],
    &["run", "--Fuel=8", "f"],
    &["erased", "--workers=2", "f"],
    &["erased", "--workers", "2", "f"],
    &["erased", "f", "--workers=4"],
    &["erased", "--fuel=8", "--fuel=8", "f"],
    &["erased", "--fuel", "8", "f", "--fuel=8"],
    &["erased", "--fuel=0", "f"],
    &["erased", "--fuel=10000001", "f"],
    &["erased", "--fuel=", "f"],
    &["erased", "--fuel=+5", "f"],
    &["sample", "0"],
    &["sample", "101"],
    &["sample", "+5"],
];

#[test]
fn commands(rt: HostRuntime) -> Result<(), AllocError> {
    assert_meanings(&rt, RUNS)
}

#[test]
fn usage(rt: HostRuntime) -> Result<(), AllocError> {
    assert_usage(&rt, NO_COMMANDS)?;
    assert_usage(&rt, OF_EACH_COMMAND)?;
    assert_usage(&rt, NO_VALUES)
}

#[test]
fn links(rt: HostRuntime) -> Result<(), AllocError> {
    assert_meanings(&rt, LINKS)?;
    assert_usage(&rt, NO_LINKS)
}

#[test]
fn module_commands(rt: HostRuntime) -> Result<(), AllocError> {
    assert_meanings(&rt, MODULES)
}

#[test]
fn module_usage(rt: HostRuntime) -> Result<(), AllocError> {
    assert_usage(&rt, NO_MODULES)
}

#[test]
fn certificate_commands(rt: HostRuntime) -> Result<(), AllocError> {
    assert_meanings(&rt, CERTIFICATES)
}

#[test]
fn certificate_usage(rt: HostRuntime) -> Result<(), AllocError> {
    assert_usage(&rt, NO_CERTIFICATES)
}
