// Numbers in words.

ghost use Rattle.std.specs.Prelude.{◌≡◌, ◌≤◌, ◌^◌, IfSome};
ghost use Rattle.mw_key.specs.Numbers.{natural_of, negative, integer_of};

use mw_term::number_in;

/// The number of at most 2^63 that the word spells with no leading zero.
pub fn natural_of(word: &[u8]) -> Option<u64>
    ensures value { result ≡ natural_of word.now }
    ensures at_most { IfSome result (λ n. n ≤ 2 ^ 63) }
{
    match word {
        [] => None,
        [b'0', _, ..] => None,
        _ => number_in(word),
    }
}

/// The negative integer of this absolute value, if there is one.
fn negative(number: Option<u64>) -> Option<i64>
    requires { IfSome number (λ n. n ≤ 2 ^ 63) }
    ensures { result ≡ negative number }
{
    match number {
        Some(n) if n > 0 => Some(-1 - (n - 1) as i64),
        _ => None,
    }
}

/// The integer that the word spells, with no leading zero and no sign but before a negative one.
pub fn integer_of(word: &[u8]) -> Option<i64>
    ensures { result ≡ integer_of word.now }
{
    match word {
        [b'-', digits @ ..] => negative(natural_of(digits)),
        _ => i64::try_from(natural_of(word)?).ok(),
    }
}
