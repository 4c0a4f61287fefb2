// Digests of texts.

ghost use Rattle.std.specs.Prelude.{◌≡◌, take};
ghost use Rattle.std.specs.Int.{w32, from_le_bytes};
ghost use Rattle.sha2.specs.Sha256.{sha256};
ghost use Rattle.mw_key.specs.CanonicalText.{home};

use sha2::{Digest, Sha256};

/// The text's SHA-256. It takes no memory.
pub fn digest(text: &[u8]) -> [u8; 32]
    ensures { result ≡ sha256 text.now }
{
    Sha256::digest(text)
}

/// Where the text's name begins to be looked for: the first four bytes of its digest as a number, the lowest first. It
/// takes no memory.
pub fn start_of(text: &[u8]) -> u32
    ensures { result ≡ home text.now }
{
    start_in(&digest(text))
}

/// Where the name of the text of a digest begins to be looked for. It takes no memory.
pub fn start_in(digest: &[u8; 32]) -> u32
    ensures { result ≡ from_le_bytes w32 (take 4 digest.now) }
{
    let [first, second, third, fourth, ..] = *digest;
    u32::from_le_bytes([first, second, third, fourth])
}
