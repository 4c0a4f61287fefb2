//! A source, made from a number: as many kernels, whose code is long, and a main that runs and calls each.
#![tactic(auto)]

ghost use Rattle.std.specs.Prelude.{◌≡◌, ◌≤◌, ◌++◌, IfOk};
ghost use Rattle.std.specs.List.{range_with_len, flat_map};
ghost use Rattle.std.specs.String.{string_bytes};
ghost use Rattle.mw_sample.specs.Sample.{kernel_line, call_text, main_line, sample_text};

use std::alloc::{AllocError, Global};

pub mod laws;

/// The source with so many kernels.
pub fn sample(alloc: Global, kernels: u32) -> Result<Vec<u8>, AllocError>
    requires some { 1 ≤ kernels }
    requires within_limit { kernels ≤ 100 }
    ensures { IfOk result (λ text. text.items ≡ sample_text kernels) }
{
    let mut text = String::from_str(
        alloc,
        "let rec ones n = if n = 1 then .<1>. else .<.~(ones (n / 2)) + .~(ones (n - n / 2))>. ;;\n",
    )?;
    put_kernels(&mut text, kernels)?;
    put_main(&mut text, kernels)?;
    Ok(text.into_bytes())
}

/// The lines of all kernels.
fn put_kernels(text: &mut String, kernels: u32) -> Result<(), AllocError>
    requires some { 1 ≤ kernels }
    requires within_limit { kernels ≤ 100 }
    ensures { IfOk result
        (λ _. string_bytes text.new ≡ string_bytes text.old ++ flat_map kernel_line
        (range_with_len 1 kernels)) }
{
    for number in 1..=kernels {
        put_kernel(text, number)?;
    }
    Ok(())
}

/// The line of one kernel.
fn put_kernel(text: &mut String, number: u32) -> Result<(), AllocError>
    requires { number ≤ 100 }
    ensures { IfOk result
        (λ _. string_bytes text.new ≡ string_bytes text.old ++ kernel_line number) }
{
    let ones = 90 * number;
    write!(
        text,
        "kernel k{number} : int -> int = close .<fun x -> x * .~(ones {ones})>. ;;\n"
    )
}

/// The line of main.
fn put_main(text: &mut String, kernels: u32) -> Result<(), AllocError>
    requires some { 1 ≤ kernels }
    requires within_limit { kernels ≤ 100 }
    ensures { IfOk result
        (λ _. string_bytes text.new ≡ string_bytes text.old ++ main_line kernels) }
{
    text.push_str("main : int = ")?;
    put_call(text, 1)?;
    for number in 2..=kernels {
        text.push_str(" + ")?;
        put_call(text, number)?;
    }
    text.push_str("\n")
}

/// A run of one kernel, and its call.
fn put_call(text: &mut String, number: u32) -> Result<(), AllocError>
    ensures { IfOk result (λ _. string_bytes text.new ≡ string_bytes text.old ++ call_text number) }
{
    write!(text, "run[int -> int] k{number} 2")
}
