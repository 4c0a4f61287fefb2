// The parts of the words after a command: options, with their values if they take one, and files.

ghost use Rattle.std.specs.Prelude.{◌≡◌, ◌↔◌, List, ℕ, Some, None, map, option_map, IsTrue, IfOk, IfErr};
ghost use Rattle.std.specs.String.{string_bytes};
ghost use Rattle.mw_words.specs.Words.{Begins, IsFileWord, PurePart, takes_value, word_in};
ghost use Rattle.mw_words.specs.Gathered.{IsSplit, option_part, part_in};

use crate::WordsFault;

/// An option by its name, with the word of its value if it takes one, or a file.
#[derive(Clone, Copy)]
pub enum Part<'w> {
    Named(&'w str, Option<&'w str>),
    File(&'w str),
}

/// Whether the option of this name takes a value, where there is one of this name.
fn takes_value(name: &str) -> Option<bool>
    ensures { result ≡ takes_value name.now }
{
    match name {
        "--workers" => Some(true),
        "--fuel" => Some(true),
        "--simplify" => Some(false),
        "--cache" => Some(true),
        _ => None,
    }
}

/// The part that stands first among the words, and the words after it.
pub fn first_part(words: &[String]) -> Result<(Part<'_>, &[String]), WordsFault>
    ensures ok { IfOk result (λ p. Begins (map string_bytes words.now) (part_in p.0)
        (map string_bytes p.1.now)) }
    ensures usage { IfErr result (λ _. (part : PurePart) (rest : List (List ℕ))
        → ¬ Begins (map string_bytes words.now) part rest) }
{
    let (word, rest) = words.split_first().ok_or(WordsFault::Usage)?;
    if names_file(word.as_str()) {
        return Ok((Part::File(word.as_str()), rest));
    }
    let (name, joined) = split_word(word.as_str());
    option_part(name, joined, rest)
}

/// Whether a word may name a file.
pub fn names_file(word: &str) -> bool
    ensures { IsTrue result ↔ IsFileWord word.now }
{
    match word.as_bytes() {
        [] => false,
        [first, ..] => *first != b'-',
    }
}

/// What stands before the first `=` of a word, and what stands after it, if there is one.
fn split_word(word: &str) -> (&str, Option<&str>)
    ensures { IsSplit word.now result.0.now (option_map word_in result.1) }
{
    match word.split_once('=') {
        Some((name, value)) => (name, Some(value)),
        None => (word, None),
    }
}

/// The option of this name, with the value that was joined to the name or else is the next word,
/// and the words after it.
fn option_part<'w>(
    name: &'w str,
    joined: Option<&'w str>,
    rest: &'w [String],
) -> Result<(Part<'w>, &'w [String]), WordsFault>
    ensures ok { IfOk result (λ p. option_part name.now (option_map word_in joined.entry)
        (map string_bytes rest.now) ≡ Some (part_in p.0, map string_bytes p.1.now)) }
    ensures usage { IfErr result (λ _. option_part name.now (option_map word_in joined.entry)
        (map string_bytes rest.now) ≡ None) }
{
    match (takes_value(name), joined) {
        (Some(true), Some(value)) => Ok((Part::Named(name, Some(value)), rest)),
        (Some(true), None) => {
            let (value, after) = rest.split_first().ok_or(WordsFault::Usage)?;
            Ok((Part::Named(name, Some(value.as_str())), after))
        }
        (Some(false), None) => Ok((Part::Named(name, None), rest)),
        _ => Err(WordsFault::Usage),
    }
}
