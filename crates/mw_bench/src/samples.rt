// Texts of codes that are emitted: one for each form of kernel code, and a large one.

use std::alloc::{AllocError, Global};

/// Codes of each form: recursion in tail position and not, operations, comparisons, a function with two free variables,
/// a pair as argument and result, and literals.
const SAMPLES: &[&str] = &[
    "emit2 to int int rec if eq v 0 i 0 i 1 app v 1 sub v 0 i 1",
    "emit2 to int int rec if eq v 0 i 0 i 1 mul v 0 app v 1 sub v 0 i 1",
    "emit2 to int int fun div v 0 mod v 0 i 7",
    "emit2 to int int fun sub v 0 mul v 0 i 7",
    "emit2 to int bool fun if lt v 0 i 7 le v 0 i 3 false",
    "emit2 to int int fun let add v 0 i 1 app fun add v 1 add v 0 v 2 v 0",
    "emit2 to pair int int pair int int fun pair snd v 0 fst v 0",
    "emit2 bool true",
];

/// The text of code of a form, by its number; from 8 on it is the literal 7.
pub fn sample(number: u64) -> &'static str {
    match usize::try_from(number) {
        Ok(place) if place < SAMPLES.len() => SAMPLES[place],
        _ => "emit2 int i 7",
    }
}

/// Adds functions applied to each other, so many levels deep, beneath so many binders.
fn push_nested(
    alloc: Global,
    text: &mut String,
    levels: u32,
    binders: u32,
) -> Result<(), AllocError> {
    if levels == 0 {
        return match binders {
            0 => text.push_str(" i 1"),
            _ => text.push_str(format!(in alloc; " v {}", binders - 1)?.as_str()),
        };
    }
    text.push_str(" app fun")?;
    push_nested(alloc, text, levels - 1, binders.saturating_add(1))?;
    push_nested(alloc, text, levels - 1, binders)
}

/// The text of code of 19,964 nodes with 6,653 functions, up to 12 one in another; it has no type.
pub fn large(alloc: Global) -> Result<String, AllocError> {
    let mut text = String::from_str(alloc, "emit2 int pair pair")?;
    push_nested(alloc, &mut text, 12, 0)?;
    push_nested(alloc, &mut text, 11, 0)?;
    push_nested(alloc, &mut text, 9, 0)?;
    Ok(text)
}
