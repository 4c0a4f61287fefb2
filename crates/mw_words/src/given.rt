// What the words give of the options and the files of a command.

ghost use Rattle.std.specs.Prelude.{◌≡◌, ◌≤◌, [], ◌∷◌, List, ℕ, Bool, Option, length, map, option_map, option_to_list};
ghost use Rattle.std.specs.Prelude.{IfOk, OnOk, OnErr};
ghost use Rattle.std.specs.String.{string_bytes};
ghost use Rattle.mw_words.specs.Words.{AreParts, HaveOnly, IsFileOf, IsNumberOf, IsSwitchOf, IsWordOf, PurePart};
ghost use Rattle.mw_words.specs.Words.{word_in};
ghost use Rattle.mw_words.specs.Words.{HasNoFile, IsFileWord, is_named, is_taken, parts_named};
ghost use Rattle.mw_words.specs.Gathered.{part_in};

use crate::WordsFault;
use crate::number::number_up_to;
use crate::part::{Part, first_part, names_file};

/// Finds that the words are parts, and that each option among them is one of these.
pub fn have_only(words: &[String], options: &[&str]) -> Result<(), WordsFault>
    ensures ok { OnOk result ((parts : List PurePart)
        × (AreParts (map string_bytes words.now) parts
        × HaveOnly (map word_in options.now) parts)) }
    ensures usage { OnErr result ((parts : List PurePart)
        → AreParts (map string_bytes words.now) parts → ¬ HaveOnly (map word_in options.now) parts) }
{
    let mut rest = words;
    while !rest.is_empty() {
        let (part, after) = first_part(rest)?;
        if !is_taken(part, options) {
            return Err(WordsFault::Usage);
        }
        rest = after;
    }
    Ok(())
}

/// Whether a part is a file, or one of these options.
fn is_taken(part: Part<'_>, options: &[&str]) -> bool
    ensures { result ≡ is_taken (map word_in options.now) (part_in part.entry) }
{
    match part {
        Part::Named(name, _) => options.contains(&name),
        Part::File(_) => true,
    }
}

/// The number that an option gives, from 1 to the most, or the default where it isn't named.
pub fn number_of(words: &[String], name: &str, most: u32, default: u32) -> Result<u32, WordsFault>
    ensures ok { IfOk result (λ n. (parts : List PurePart)
        → AreParts (map string_bytes words.now) parts → IsNumberOf name.now most default parts n) }
    ensures usage { OnErr result ((parts : List PurePart)
        → AreParts (map string_bytes words.now) parts → (n : ℕ) → ¬ IsNumberOf name.now most default parts n) }
{
    match only_part(words, Some(name))? {
        None => Ok(default),
        Some(Part::Named(_, Some(word))) => number_up_to(word, most),
        Some(_) => Err(WordsFault::Usage),
    }
}

/// Whether the words name an option without a value.
pub fn switch_of(words: &[String], name: &str) -> Result<bool, WordsFault>
    ensures ok { IfOk result (λ on. (parts : List PurePart)
        → AreParts (map string_bytes words.now) parts → IsSwitchOf name.now parts on) }
    ensures usage { OnErr result ((parts : List PurePart)
        → AreParts (map string_bytes words.now) parts → (on : Bool) → ¬ IsSwitchOf name.now parts on) }
{
    match only_part(words, Some(name))? {
        None => Ok(false),
        Some(Part::Named(_, None)) => Ok(true),
        Some(_) => Err(WordsFault::Usage),
    }
}

/// The word that an option gives, which may name a file, or none where it isn't named.
pub fn word_of<'w>(words: &'w [String], name: &str) -> Result<Option<&'w str>, WordsFault>
    ensures ok { IfOk result (λ found. (parts : List PurePart)
        → AreParts (map string_bytes words.now) parts → IsWordOf name.now parts (option_map word_in found)) }
    ensures usage { OnErr result ((parts : List PurePart)
        → AreParts (map string_bytes words.now) parts → (word : Option (List ℕ)) → ¬ IsWordOf name.now parts word) }
{
    match only_part(words, Some(name))? {
        None => Ok(None),
        Some(Part::Named(_, Some(word))) if names_file(word) => Ok(Some(word)),
        Some(_) => Err(WordsFault::Usage),
    }
}

/// The one file among the words.
pub fn file_of(words: &[String]) -> Result<&str, WordsFault>
    ensures ok { IfOk result (λ file. (parts : List PurePart)
        → AreParts (map string_bytes words.now) parts → IsFileOf parts file.now) }
    ensures usage { OnErr result ((parts : List PurePart)
        → AreParts (map string_bytes words.now) parts → (file : List ℕ) → ¬ IsFileOf parts file) }
{
    match only_part(words, None)? {
        Some(Part::File(file)) => Ok(file),
        _ => Err(WordsFault::Usage),
    }
}

/// Finds that no part of the words is a file. One is refused.
pub fn have_no_file(words: &[String]) -> Result<(), WordsFault>
    ensures ok { OnOk result ((parts : List PurePart)
        → AreParts (map string_bytes words.now) parts → HasNoFile parts) }
    ensures usage { OnErr result ((parts : List PurePart)
        → AreParts (map string_bytes words.now) parts → ¬ HasNoFile parts) }
{
    match only_part(words, None)? {
        None => Ok(()),
        Some(_) => Err(WordsFault::Usage),
    }
}

/// The one word, where it may name a file. None, two, and one that names no file are refused.
pub fn lone_file(words: &[String]) -> Result<&str, WordsFault>
    ensures alone { IfOk result (λ file. map string_bytes words.now ≡ file.now ∷ []) }
    ensures named { IfOk result (λ file. IsFileWord file.now) }
    ensures usage { OnErr result ((word : List ℕ)
        → map string_bytes words.now ≡ word ∷ [] → ¬ IsFileWord word) }
{
    match words {
        [word] if names_file(word.as_str()) => Ok(word.as_str()),
        _ => Err(WordsFault::Usage),
    }
}

/// The two words, where each may name a file. Other numbers of words, and one that names no file, are refused.
pub fn two_files(words: &[String]) -> Result<(&str, &str), WordsFault>
    ensures alone { IfOk result (λ p. map string_bytes words.now ≡ p.0.now ∷ p.1.now ∷ []) }
    ensures first_named { IfOk result (λ p. IsFileWord p.0.now) }
    ensures second_named { IfOk result (λ p. IsFileWord p.1.now) }
    ensures usage { OnErr result ((first second : List ℕ)
        → map string_bytes words.now ≡ first ∷ second ∷ [] → IsFileWord first → ¬ IsFileWord second) }
{
    match words {
        [first, second] if names_file(first.as_str()) && names_file(second.as_str()) => {
            Ok((first.as_str(), second.as_str()))
        }
        _ => Err(WordsFault::Usage),
    }
}

/// The part of this name, or of no name, if there is one. Two are refused.
fn only_part<'w>(words: &'w [String], name: Option<&str>) -> Result<Option<Part<'w>>, WordsFault>
    ensures ok { IfOk result (λ found. (parts : List PurePart)
        → AreParts (map string_bytes words.now) parts
        → parts_named (option_map word_in name.entry) parts ≡ option_to_list (option_map part_in found)) }
    ensures usage { OnErr result ((parts : List PurePart)
        → AreParts (map string_bytes words.now) parts
        → 2 ≤ length (parts_named (option_map word_in name.entry) parts)) }
{
    let mut found = None;
    let mut rest = words;
    while !rest.is_empty() {
        let (part, after) = first_part(rest)?;
        if is_named(part, name) {
            if found.is_some() {
                return Err(WordsFault::Usage);
            }
            found = Some(part);
        }
        rest = after;
    }
    Ok(found)
}

/// Whether a part is an option of this name, or, of no name, a file.
fn is_named(part: Part<'_>, name: Option<&str>) -> bool
    ensures { result ≡ is_named (option_map word_in name.entry) (part_in part.entry) }
{
    match (part, name) {
        (Part::Named(own, _), Some(name)) => own == name,
        (Part::File(_), None) => true,
        _ => false,
    }
}
