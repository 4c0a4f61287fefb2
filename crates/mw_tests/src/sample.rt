// The source with few kernels and with most, beside what was written by hand.

use mw_sample::sample;
use std::alloc::AllocError;

const THREE_KERNELS: &str =
    "let rec ones n = if n = 1 then .<1>. else .<.~(ones (n / 2)) + .~(ones (n - n / 2))>. ;;
kernel k1 : int -> int = close .<fun x -> x * .~(ones 90)>. ;;
kernel k2 : int -> int = close .<fun x -> x * .~(ones 180)>. ;;
kernel k3 : int -> int = close .<fun x -> x * .~(ones 270)>. ;;
main : int = run[int -> int] k1 2 + run[int -> int] k2 2 + run[int -> int] k3 2
";

#[test]
fn three_kernels(rt: HostRuntime) -> Result<(), AllocError> {
    let text = sample(rt.alloc(), 3)?;
    assert_eq!(rt; text.as_slice(), THREE_KERNELS.as_bytes());
    Ok(())
}

#[test]
fn most_kernels(rt: HostRuntime) -> Result<(), AllocError> {
    let text = sample(rt.alloc(), 100)?;
    assert_eq!(rt; text.len(), 9_072);
    assert!(rt; text.ends_with(b" + run[int -> int] k99 2 + run[int -> int] k100 2\n"));
    Ok(())
}
