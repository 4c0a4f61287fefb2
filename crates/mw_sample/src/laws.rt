// Laws of the source, which no program calls, and worked examples, proved by computation.

ghost use Rattle.mw_sample.specs.Examples.{OneKernel, TwoKernels, LengthOfHundred};
ghost use Rattle.mw_sample.specs.SourceLaws.{LinesOfSource, LastLineEnds};

/// A source has two lines more than kernels, and its last line ends too.
pub fn lines()
    ensures number { LinesOfSource }
    ensures end { LastLineEnds }
{}

/// The source with one kernel.
pub fn one_kernel()
    ensures { OneKernel }
{}

/// The source with two kernels.
pub fn two_kernels()
    ensures { TwoKernels }
{}

/// The source with 100 kernels has 9,072 bytes.
pub fn length_of_hundred()
    ensures { LengthOfHundred }
{}
