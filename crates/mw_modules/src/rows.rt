// Rows: modules written down by name, one a line.

ghost use Rattle.std.specs.Prelude.{◌≡◌};
ghost use Rattle.mw_modules.specs.declared.rows.RowFault.TheVariants.{Memory};

use hex::FromHexError;
use std::alloc::{AllocError, Global};

/// A name, and the bytes that stand for a module.
#[derive(Debug, Drop)]
pub struct Row {
    pub name: String,
    pub bytes: Vec<u8>,
}

/// Why a line is no row.
#[derive(Debug, Drop)]
pub enum RowFault {
    /// It has no colon, no name before it, or a word behind it that is none.
    Malformed,
    /// Memory ran out.
    Memory(AllocError),
}

impl From<AllocError> for RowFault {
    ghost from_gives = { λ e f. f ≡ Memory e };

    fn from(error: AllocError) -> RowFault {
        RowFault::Memory(error)
    }
}

/// Whether a line is blank or a remark, which begins with `#`.
pub fn stands_alone(line: &str) -> bool {
    line.trim().is_empty() || line.starts_with('#')
}

/// The row of a line: a name, a colon and words. A word is bytes in hexadecimal digits, or a number, an `x` and bytes
/// that stand there so many times.
pub fn row_of(alloc: Global, line: &str) -> Result<Row, RowFault> {
    let Some((name, words)) = line.split_once(':') else {
        return Err(RowFault::Malformed);
    };
    if name.trim().is_empty() {
        return Err(RowFault::Malformed);
    }
    let mut bytes = Vec::new(alloc);
    for word in words.split_whitespace() {
        put_word(alloc, word, &mut bytes)?;
    }
    Ok(Row {
        name: String::from_str(alloc, name)?,
        bytes,
    })
}

/// Appends the bytes of a word.
fn put_word(alloc: Global, word: &str, bytes: &mut Vec<u8>) -> Result<(), RowFault> {
    let (times, digits) = match word.split_once('x') {
        None => (1, word),
        Some((times, digits)) => match times.parse::<u32>() {
            Ok(times) => (times, digits),
            Err(_) => return Err(RowFault::Malformed),
        },
    };
    if digits.is_empty() {
        return Err(RowFault::Malformed);
    }
    let piece = match hex::decode(alloc, digits) {
        Ok(piece) => piece,
        Err(FromHexError::OutOfMemory) => return Err(RowFault::Memory(AllocError)),
        Err(_) => return Err(RowFault::Malformed),
    };
    for _ in 0..times {
        bytes.extend_from_slice(piece.as_slice())?;
    }
    Ok(())
}
