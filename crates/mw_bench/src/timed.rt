// Programs of the first stage that are timed.

use mw_script::answer;
use std::alloc::{AllocError, Global};

/// What the program does as often as a number says.
#[derive(Clone, Copy, Drop)]
pub enum Repeated {
    /// It applies a recursive function.
    Down,
    /// It makes a closure over the one before, and then calls each by the next.
    Closures,
    /// It doubles code, whose nodes are shared.
    Doubled,
}

/// How the program ends, as text. It has 1,000,000,000 units.
pub fn timed_answer(alloc: Global, what: Repeated, number: u64) -> Result<String, AllocError> {
    let (source, item) = match what {
        Repeated::Down => (
            format!(in alloc;
                "let rec down n = if n = 0 then 0 else down (n - 1) ;; main : int = down {number}"
            )?,
            None,
        ),
        Repeated::Closures => (
            format!(in alloc;
                "let rec chain n f = if n = 0 then f 0 else chain (n - 1) (fun x -> f x + 1) ;; main : int = chain {number} (fun x -> x)"
            )?,
            None,
        ),
        Repeated::Doubled => (
            format!(in alloc;
                "let rec dbl n c = if n = 0 then c else dbl (n - 1) .<.~c + .~c>. ;; kernel k : int = close (dbl {number} .<1>.) ;; main : int = 0"
            )?,
            Some(1),
        ),
    };
    answer(alloc, source.as_str(), item, 1_000_000_000, &[])
}
