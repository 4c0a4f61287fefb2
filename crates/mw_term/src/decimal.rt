// Decimal digits.

ghost use Rattle.std.specs.Prelude.{◌≡◌, ◌≤◌, ◌^◌, IfSome};
ghost use Rattle.mw_term.specs.Decimals.{is_digit, number_in};

/// Whether the byte is a decimal digit.
pub fn is_digit(byte: u8) -> bool
    ensures { result ≡ is_digit byte }
{
    byte.is_ascii_digit()
}

/// The number of at most 2^63 that the digits spell; of no digits 0.
#[tactic(auto, using(crate::proofs::Decimals::number_laws))]
pub fn number_in(digits: &[u8]) -> Option<u64>
    ensures value { result ≡ number_in 0 digits.now }
    ensures at_most { IfSome result (λ n. n ≤ 2 ^ 63) }
{
    let mut value: u64 = 0;
    for (n, byte) in digits.iter().enumerate() {
        if !is_digit(*byte) {
            return None;
        }
        let digit = u64::from(*byte - b'0');
        if value > (9_223_372_036_854_775_808 - digit) / 10 {
            return None;
        }
        value = 10 * value + digit;
    }
    Some(value)
}
