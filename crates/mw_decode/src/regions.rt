// Sizes, and what stands up to a stated end.

ghost use Rattle.std.specs.Prelude.{◌≡◌, ◌≤◌, length, IfOk, IfErr, IfSome, IfNone};
ghost use Rattle.mw_decode.specs.Reading.{got, u32 as number};
ghost use Rattle.mw_decode.specs.Sections.{customs as customs_here};
ghost use Rattle.mw_decode.specs.Gives.{Fails, Gives};
ghost use Rattle.mw_decode.specs.Regions.{IsRegion, IsPast};

use crate::fault::Fault;
use crate::pieces::{next_byte, place_of, u32_at};

/// What stands behind a size.
#[derive(Clone, Copy)]
pub struct Region<'a> {
    /// The bytes up to the stated end.
    pub content: &'a [u8],
    /// The place of that end.
    pub end: u32,
    /// The place of the size.
    pub at: u32,
    /// The bytes behind that end.
    pub behind: &'a [u8],
}

/// The region of the size that stands here: none where it ends behind the bytes.
pub fn next_region(bytes: &[u8], end: u32) -> Result<Option<Region>, Fault>
    requires { length bytes.now ≤ end }
    ensures found { IfOk result (λ found. IfSome found (λ r. IsRegion end bytes.now r)) }
    ensures past { IfOk result (λ found. IfNone found (IsPast end bytes.now)) }
    ensures fails { IfErr result (λ e. Fails e (number end bytes.now)) }
    ensures inside { IfOk result (λ found. IfSome found (λ r. length r.content.now ≤ r.end)) }
    ensures behind { IfOk result
        (λ found. IfSome found (λ r. length r.behind.now ≤ length bytes.now)) }
{
    let (size, rest) = u32_at(bytes, end)?;
    if size as usize > rest.len() {
        return Ok(None);
    }
    let (content, behind) = rest.split_at(size as usize);
    Ok(Some(Region {
        content,
        end: place_of(rest, end) + size,
        at: place_of(bytes, end),
        behind,
    }))
}

/// The bytes behind all custom sections that stand here.
#[tactic(auto, using(crate::proofs::SectionLaws::customs_laws))]
pub fn customs(bytes: &[u8], end: u32) -> Result<&[u8], Fault>
    requires { length bytes.now ≤ end }
    ensures gives { Gives (λ x. got tt x.now) result (customs_here end bytes.now) }
    ensures rest { IfOk result (λ x. length x.now ≤ length bytes.now) }
{
    let mut left = bytes;
    while let Some((b, rest)) = next_byte(left) {
        if b != 0 {
            return Ok(left);
        }
        match next_region(rest, end) {
            Err(e) => return Err(e),
            Ok(None) => return Err(Fault::Ended),
            Ok(Some(r)) => left = r.behind,
        }
    }
    Ok(left)
}
