// The words of a text, read one after another.

ghost use Rattle.std.specs.Prelude.{◌≡◌, ◌∷◌, ◌==◌, [], position, IfSome, IfNone, IsTrue, ◌↔◌};
ghost use Rattle.mw_key.specs.Reading.{words, words_left, find_word, find_node, find_version, find_type_form};
ghost use Rattle.mw_key.specs.Reading.{find_form, find_integer, find_variable, Finds};

use crate::fault::TextFault;
use crate::form::{Form, TypeForm, form_of, type_form_of, version_of};
use crate::number::{integer_of, natural_of};
use crate::version::Version;

/// The words of a text that are left, and how many nodes may still come.
#[derive(Drop)]
pub struct Reader<'a> {
    /// The bytes from the next word on; there are none after the last word.
    rest: Option<&'a [u8]>,
    nodes: u32,
}

/// Where the first space stands.
fn first_space(bytes: &[u8]) -> Option<usize>
    ensures { result ≡ position (λ b. b == 32) bytes.now }
{
    bytes.iter().position(|byte| *byte == b' ')
}

impl<'a> Reader<'a> {
    /// All words of the bytes.
    pub fn new(bytes: &'a [u8]) -> Reader<'a>
        ensures words { words_left result.rest ≡ words bytes.now }
    {
        Reader {
            rest: Some(bytes),
            nodes: 0,
        }
    }

    /// Lets this many nodes come from here on.
    pub fn allow(&mut self, nodes: u32)
        ensures rest { self.new.rest ≡ self.old.rest }
        ensures nodes { self.new.nodes ≡ nodes }
    {
        self.nodes = nodes;
    }

    /// Whether no word is left.
    #[tactic(auto, using(crate::proofs::Words::some_word))]
    pub fn is_at_end(&self) -> bool
        ensures { IsTrue result ↔ (words_left self.now.rest ≡ []) }
    {
        self.rest.is_none()
    }

    /// The next word, which ends before the next space.
    #[tactic(auto, using(crate::proofs::Words::split_here, crate::proofs::Words::split_whole))]
    fn next_word(&mut self) -> Option<&'a [u8]>
        ensures some { IfSome result
            (λ w. words_left self.old.rest ≡ w.now ∷ words_left self.new.rest) }
        ensures none { IfNone result (words_left self.old.rest ≡ []) }
        ensures nodes { self.new.nodes ≡ self.old.nodes }
    {
        let rest = self.rest?;
        match first_space(rest) {
            Some(end) => {
                self.rest = Some(&rest[end + 1..]);
                Some(&rest[..end])
            }
            None => {
                self.rest = None;
                Some(rest)
            }
        }
    }

    fn word(&mut self) -> Result<&'a [u8], TextFault>
        ensures { Finds (λ w. w.now) result find_word self.old self.new }
    {
        self.next_word().ok_or(TextFault::BadText)
    }

    /// The first word of a node.
    fn node(&mut self) -> Result<&'a [u8], TextFault>
        ensures { Finds (λ w. w.now) result find_node self.old self.new }
    {
        if self.nodes == 0 {
            return Err(TextFault::BadText);
        }
        self.nodes -= 1;
        self.word()
    }

    /// The version of a text.
    pub fn version(&mut self) -> Result<Version, TextFault>
        ensures { Finds (λ v. v) result find_version self.old self.new }
    {
        let word = self.word()?;
        version_of(word).ok_or(TextFault::BadText)
    }

    /// What a type begins with.
    pub fn type_form(&mut self) -> Result<TypeForm, TextFault>
        ensures { Finds (λ f. f) result find_type_form self.old self.new }
    {
        let word = self.node()?;
        type_form_of(word).ok_or(TextFault::BadText)
    }

    /// What code begins with.
    pub fn form(&mut self) -> Result<Form, TextFault>
        ensures { Finds (λ f. f) result find_form self.old self.new }
    {
        let word = self.node()?;
        form_of(word).ok_or(TextFault::BadText)
    }

    /// An integer.
    pub fn integer(&mut self) -> Result<i64, TextFault>
        ensures { Finds (λ n. n) result find_integer self.old self.new }
    {
        let word = self.word()?;
        integer_of(word).ok_or(TextFault::BadText)
    }

    /// A variable below this number of binders.
    pub fn variable(&mut self, binders: u32) -> Result<u32, TextFault>
        ensures { Finds (λ i. i) result (find_variable binders) self.old self.new }
    {
        let word = self.word()?;
        match natural_of(word) {
            Some(index) if index < u64::from(binders) => Ok(index as u32),
            _ => Err(TextFault::BadText),
        }
    }
}
