// What is written of the kernels that gave code.

ghost use Rattle.std.specs.Prelude.{◌≡◌, ◌≤◌, ◌<◌, ◌^◌, [], ◌∷◌, length};
ghost use Rattle.std.specs.List.{AllByRecursion, flat_map};
ghost use Rattle.mw_meaning.specs.declared.mode.Mode.{Mode};
ghost use Rattle.mw_meaning.specs.declared.mode.Mode.TheVariants.{Plain};
ghost use Rattle.mw_drive.specs.Works.{kernel_lines, module_bytes, mode_of, shown_text};
ghost use Rattle.mw_drive.specs.ProgramRuns.{kernel_of, kernels_of, IsBuilt, HasModuleHere};
ghost use Rattle.mw_drive.specs.declared.shown.Shown.TheVariants.{Totals};
ghost use Rattle.mw_cache.specs.HonestFiles.{IsHonest};
ghost use Rattle.mw_drive.specs.PrintedKernels.{printed_lines, printed_text, printed_of, printed_in};
ghost use Rattle.mw_drive.specs.declared.shown.Shown.TheVariants.{Lines};
ghost use Rattle.mw_drive.specs.Written.{Writes, Blames};

use crate::items::Built;
use mw_cache::Cache;
use mw_console::{put_kernel, put_totals, write_lines};
use mw_meaning::Mode;
use mw_outside::{Sink, WriteFault};
use std::alloc::Global;

/// What is written of the kernels that gave code: three lines for each, of the code as it was built or simplified, or
/// how many there are and the bytes of their modules.
#[derive(Clone, Copy, Debug)]
pub enum Shown {
    Lines(Mode),
    Totals,
}

impl Shown {
    /// How code is run whose kernels are shown so.
    pub fn mode(self) -> Mode
        ensures { result ≡ mode_of self }
    {
        match self {
            Shown::Lines(mode) => mode,
            Shown::Totals => Mode::Plain,
        }
    }
}

/// Writes what is shown of the kernels, whose modules are of this cache.
pub fn write_kernels<K: Sink>(
    alloc: Global,
    sink: &mut K,
    cache: &Cache<'_>,
    shown: Shown,
    kernels: &[Built<'_>],
) -> Result<(), WriteFault>
    requires totals { shown ≡ Totals → IsHonest cache.now.load }
    requires built { AllByRecursion (IsBuilt (mode_of shown) cache.now) kernels.now }
    requires few { length kernels.now < 2 ^ 32 }
    ensures writes { let text = shown_text shown (kernels_of kernels.now) in
        IsHonest cache.now.load → Writes result K.tells (K.written sink.old) (K.written sink.new) text }
    ensures printed { (mode : Mode) → shown ≡ Lines mode
        → Writes result K.tells (K.written sink.old) (K.written sink.new)
        (printed_text (printed_in cache.now kernels.now)) }
    ensures blames { Blames result (K.faults sink.old) (K.faults sink.new) }
    ensures count { K.faults sink.old ≤ K.faults sink.new }
{
    match shown {
        Shown::Lines(_) => write_all(alloc, sink, cache, kernels),
        Shown::Totals => write_totals(alloc, sink, cache, kernels),
    }
}

/// Writes the lines of all kernels.
fn write_all<K: Sink>(
    alloc: Global,
    sink: &mut K,
    cache: &Cache<'_>,
    kernels: &[Built<'_>],
) -> Result<(), WriteFault>
    requires here { AllByRecursion (HasModuleHere cache.now) kernels.now }
    ensures writes { IsHonest cache.now.load → (mode : Mode)
        → AllByRecursion (IsBuilt mode cache.now) kernels.now
        → let text = flat_map (kernel_lines mode) (kernels_of kernels.now) in
        Writes result K.tells (K.written sink.old) (K.written sink.new) text }
    ensures printed { Writes result K.tells (K.written sink.old) (K.written sink.new)
        (printed_text (printed_in cache.now kernels.now)) }
    ensures blames { Blames result (K.faults sink.old) (K.faults sink.new) }
    ensures count { K.faults sink.old ≤ K.faults sink.new }
{
    for at in 0..kernels.len() {
        write_kernel(alloc, sink, cache, &kernels[at])?;
    }
    Ok(())
}

/// Writes the three lines of a kernel, each as one piece.
fn write_kernel<K: Sink>(
    alloc: Global,
    sink: &mut K,
    cache: &Cache<'_>,
    kernel: &Built<'_>,
) -> Result<(), WriteFault>
    requires here { HasModuleHere cache.now kernel.now }
    ensures writes { IsHonest cache.now.load → (mode : Mode) → IsBuilt mode cache.now kernel.now
        → let text = kernel_lines mode (kernel_of kernel.now) in
        Writes result K.tells (K.written sink.old) (K.written sink.new) text }
    ensures printed { Writes result K.tells (K.written sink.old) (K.written sink.new)
        (printed_lines (printed_of cache.now kernel.now)) }
    ensures blames { Blames result (K.faults sink.old) (K.faults sink.new) }
    ensures count { K.faults sink.old ≤ K.faults sink.new }
{
    let bytes = cache.bytes(kernel.got);
    let key = cache.digest(kernel.got);
    let mut lines = Vec::new(alloc);
    put_kernel(&mut lines, kernel.name, kernel.kind, &key, bytes)?;
    write_lines(sink, lines.as_slice())
}

/// Writes how many kernels there are, and the bytes of their modules together.
fn write_totals<K: Sink>(
    alloc: Global,
    sink: &mut K,
    cache: &Cache<'_>,
    kernels: &[Built<'_>],
) -> Result<(), WriteFault>
    requires honest { IsHonest cache.now.load }
    requires built { AllByRecursion (IsBuilt Plain cache.now) kernels.now }
    requires few { length kernels.now < 2 ^ 32 }
    ensures writes { let text = shown_text Totals (kernels_of kernels.now) in
        Writes result K.tells (K.written sink.old) (K.written sink.new) text }
    ensures blames { Blames result (K.faults sink.old) (K.faults sink.new) }
    ensures count { K.faults sink.old ≤ K.faults sink.new }
{
    let mut text = Vec::new(alloc);
    let bytes = total_bytes(cache, kernels);
    put_totals(alloc, &mut text, kernels.len() as u64, bytes)?;
    write_lines(sink, text.as_slice())
}

/// The bytes of the kernels' modules together.
fn total_bytes(cache: &Cache<'_>, kernels: &[Built<'_>]) -> u64
    requires honest { IsHonest cache.now.load }
    requires built { AllByRecursion (IsBuilt Plain cache.now) kernels.now }
    requires few { length kernels.now < 2 ^ 32 }
    ensures { result ≡ module_bytes (kernels_of kernels.now) }
{
    let mut total: u64 = 0;
    for at in 0..kernels.len() {
        total += module_size(cache, &kernels[at]);
    }
    total
}

/// How many bytes a kernel's module has.
fn module_size(cache: &Cache<'_>, kernel: &Built<'_>) -> u64
    requires honest { IsHonest cache.now.load }
    requires built { IsBuilt Plain cache.now kernel.now }
    ensures size { result ≡ module_bytes (kernel_of kernel.now ∷ []) }
    ensures small { result < 2 ^ 32 }
{
    cache.bytes(kernel.got).len() as u64
}
