// A record's parts, where all its bytes are there.

ghost use Rattle.std.specs.Prelude.{◌≡◌, ◌<◌, ◌^◌, ◌+◌, ◌++◌, ℕ, List, length, IfSome, IsNone};
ghost use Rattle.mw_store.specs.Records.{Kept, four, record_bytes};
ghost use Rattle.mw_store.specs.Parts.{IsCutFrom};

/// The bytes of a record: its text, its module's, all before the digest, and the digest.
#[derive(Drop)]
pub(crate) struct Parts<'a> {
    pub(crate) text: &'a [u8],
    pub(crate) module: &'a [u8],
    pub(crate) body: &'a [u8],
    pub(crate) digest: &'a [u8],
}

/// The parts of the record that begins these bytes; none where a part ends too soon.
pub(crate) fn parts_of(bytes: &[u8]) -> Option<Parts<'_>>
    ensures some { IfSome result (λ parts. IsCutFrom parts bytes.now) }
    ensures none { IsNone result → (r : Kept) (rest : List ℕ) → length r.text < 2 ^ 32
        → length r.bytes < 2 ^ 32 → bytes.now ≡ record_bytes r ++ rest → ⊥ }
{
    let (text_length, rest) = number(bytes)?;
    let (module_length, rest) = number(rest)?;
    let (text, rest) = front(rest, text_length as usize)?;
    let (module, rest) = front(rest, module_length as usize)?;
    let (digest, _) = front(rest, 32)?;
    Some(Parts {
        text,
        module,
        body: &bytes[..8 + text.len() + module.len()],
        digest,
    })
}

/// The number in the first four bytes, the lowest first, and what is after them.
fn number(bytes: &[u8]) -> Option<(u32, &[u8])>
    ensures some { IfSome result (λ p. (p.0 < 2 ^ 32) × (bytes.now ≡ four p.0 ++ p.1.now)) }
    ensures none { IsNone result → length bytes.now < 4 }
{
    match bytes {
        [first, second, third, fourth, rest @ ..] => {
            let number = u32::from_le_bytes([*first, *second, *third, *fourth]);
            Some((number, rest))
        }
        _ => None,
    }
}

/// The first bytes, so many, and what is after them.
fn front(bytes: &[u8], count: usize) -> Option<(&[u8], &[u8])>
    ensures some { IfSome result (λ p. (length p.0.now ≡ count)
        × (bytes.now ≡ p.0.now ++ p.1.now)) }
    ensures none { IsNone result → length bytes.now < count }
{
    bytes.split_at_checked(count)
}
