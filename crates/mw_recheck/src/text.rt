// Texts, numbers and lines at the front of bytes.

ghost use Rattle.std.specs.Prelude.{◌≡◌};
ghost use Rattle.std.specs.Option.{option_map};
ghost use Rattle.mw_recheck.specs.Reading.{behind, digits_at, number_at, number_before};

/// What is behind a text with which the bytes begin.
pub fn behind<'a>(text: &[u8], bytes: &'a [u8]) -> Option<&'a [u8]>
    ensures { option_map (λ rest. rest.now) result ≡ behind text.now bytes.now }
{
    bytes.strip_prefix(text)
}

/// The number below 2^64 to which digits at the front go on from a value, and what is behind them.
fn digits(mut value: u64, bytes: &[u8]) -> Option<(u64, &[u8])>
    ensures { option_map (λ x. (x.0, x.1.now)) result ≡ digits_at value bytes.now }
{
    let mut rest = bytes;
    while let [byte, more @ ..] = rest {
        if !byte.is_ascii_digit() {
            break;
        }
        let digit = u64::from(*byte - b'0');
        if value > (u64::MAX - digit) / 10 {
            return None;
        }
        value = 10 * value + digit;
        rest = more;
    }
    Some((value, rest))
}

/// The number at the front, without leading zeros and below 2^64, and what is behind it.
pub fn number(bytes: &[u8]) -> Option<(u64, &[u8])>
    ensures { option_map (λ x. (x.0, x.1.now)) result ≡ number_at bytes.now }
{
    match bytes {
        [b'0', rest @ ..] => Some((0, rest)),
        [byte, rest @ ..] if byte.is_ascii_digit() => digits(u64::from(*byte - b'0'), rest),
        _ => None,
    }
}

/// The number at the front, before a text, and what is behind that.
pub fn number_before<'a>(text: &[u8], bytes: &'a [u8]) -> Option<(u64, &'a [u8])>
    ensures { option_map (λ x. (x.0, x.1.now)) result ≡ number_before text.now bytes.now }
{
    let (number, rest) = number(bytes)?;
    let rest = behind(text, rest)?;
    Some((number, rest))
}
