// Tests of bytes, and how far they hold.

#![tactic(auto, using(crate::proofs::Counts::counts_on, crate::proofs::Counts::counts_off, crate::proofs::Counts::counts_all))]

ghost use Rattle.std.specs.Prelude.{◌≡◌, ◌≤◌, length};
ghost use Rattle.mw_lex.specs.Pieces.{is_blank, is_word_byte, is_comment_byte, count};

use mw_term::is_digit;

/// Whether the byte is a tab, a line feed, a carriage return or a space.
pub fn is_blank(byte: u8) -> bool
    ensures { result ≡ is_blank byte }
{
    byte == b'\t' || byte == b'\n' || byte == b'\r' || byte == b' '
}

/// Whether the byte is a letter, a digit or an underscore.
pub fn is_word_byte(byte: u8) -> bool
    ensures { result ≡ is_word_byte byte }
{
    is_digit(byte)
        || (byte >= b'A' && byte <= b'Z')
        || (byte >= b'a' && byte <= b'z')
        || byte == b'_'
}

/// Whether a comment goes on over the byte.
pub fn is_comment_byte(byte: u8) -> bool
    ensures { result ≡ is_comment_byte byte }
{
    byte == b'\t' || byte == b'\r' || (byte >= b' ' && byte <= b'~')
}

/// How many letters, digits and underscores stand at the front.
pub fn word_length(bytes: &[u8]) -> usize
    ensures value { result ≡ count is_word_byte bytes.now }
    ensures within { result ≤ length bytes.now }
{
    for (n, byte) in bytes.iter().enumerate() {
        if !is_word_byte(*byte) {
            return n;
        }
    }
    bytes.len()
}

/// How many bytes at the front a comment goes on over.
pub fn comment_length(bytes: &[u8]) -> usize
    ensures value { result ≡ count is_comment_byte bytes.now }
    ensures within { result ≤ length bytes.now }
{
    for (n, byte) in bytes.iter().enumerate() {
        if !is_comment_byte(*byte) {
            return n;
        }
    }
    bytes.len()
}
