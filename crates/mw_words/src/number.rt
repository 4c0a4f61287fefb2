// Numbers among the words.

ghost use Rattle.std.specs.Prelude.{ℕ, IfOk, IfErr};
ghost use Rattle.mw_words.specs.Words.{IsNumber};

use crate::WordsFault;

/// The most digits of a number.
const MOST_DIGITS: usize = 9;

/// The number that a word writes in decimal digits, where it is from 1 to a limit.
pub fn number_up_to(word: &str, most: u32) -> Result<u32, WordsFault>
    ensures ok { IfOk result (λ n. IsNumber most word.now n) }
    ensures usage { IfErr result (λ _. (n : ℕ) → IsNumber most word.now n → ⊥) }
{
    if word.len() > MOST_DIGITS || word.as_bytes().first() == Some(&b'+') {
        return Err(WordsFault::Usage);
    }
    match word.parse::<u32>() {
        Ok(number) if 1 <= number && number <= most => Ok(number),
        _ => Err(WordsFault::Usage),
    }
}
