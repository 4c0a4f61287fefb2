// The binary format.

ghost use Rattle.mw_wasm.specs.FormatLaws.{UnsignedNumbersFit, IntegersFit, OneExpression, OneModule};
ghost use Rattle.mw_wasm.specs.FormatExamples.{ExampleAIsSpelled, ExampleBIsSpelled, LongerIndexIsSpelled};
ghost use Rattle.mw_wasm.specs.FormatExamples.{PaddedModuleIsSpelled, EmptyElseIsSpelled, ExamplesAreWithinProfile};
ghost use Rattle.mw_wasm.specs.FormatExamples.{TwoResultsAreOutside, DepthEndsAt500, SixBytesAreNoIndex};
ghost use Rattle.mw_wasm.specs.FormatExamples.{UnusedBitsAreZero, MinusOneIsSpelled, UnusedBitsAreTheSign};
ghost use Rattle.mw_wasm.specs.OpcodeRows.{InstructionRows, OpcodeRows};
ghost use Rattle.mw_wasm.specs.NothingSpelled.{NothingIsSpelled};

/// A spelled number has no more bits than its type.
pub fn numbers_fit()
    ensures unsigned { UnsignedNumbersFit }
    ensures integers { IntegersFit }
{}

/// No spelling of an expression begins another one.
pub fn one_expression()
    ensures { OneExpression }
{}

/// No bytes spell two modules.
pub fn one_module()
    ensures { OneModule }
{}

/// The 64 bytes of a module whose `init` answers 7.
pub fn example_a_is_spelled()
    ensures { ExampleAIsSpelled }
{}

/// The 151 bytes of a module whose `call` cubes its argument.
pub fn example_b_is_spelled()
    ensures { ExampleBIsSpelled }
{}

/// An index may have a longer spelling.
pub fn longer_index_is_spelled()
    ensures { LongerIndexIsSpelled }
{}

/// Custom sections stand anywhere, and an import section may hold no import.
pub fn padded_module_is_spelled()
    ensures { PaddedModuleIsSpelled }
{}

/// An `if` may have 05 before an empty second list.
pub fn empty_else_is_spelled()
    ensures { EmptyElseIsSpelled }
{}

/// Both examples are within the profile.
pub fn examples_are_within_profile()
    ensures { ExamplesAreWithinProfile }
{}

/// A function type may have two results as bytes go, and not within the profile.
pub fn two_results_are_outside()
    ensures { TwoResultsAreOutside }
{}

/// Blocks may nest 500 deep.
pub fn depth_ends_at_500()
    ensures { DepthEndsAt500 }
{}

/// Six bytes spell no index.
pub fn six_bytes_are_no_index()
    ensures { SixBytesAreNoIndex }
{}

/// The unused bits of an index's fifth byte are zero.
pub fn unused_bits_are_zero()
    ensures { UnusedBitsAreZero }
{}

/// -1 as one byte and as five.
pub fn minus_one_is_spelled()
    ensures { MinusOneIsSpelled }
{}

/// The unused bits of a constant's fifth byte equal its sign.
pub fn unused_bits_are_the_sign()
    ensures { UnusedBitsAreTheSign }
{}

/// Every instruction and every opcode.
pub fn opcodes_are_spelled()
    ensures instructions { InstructionRows }
    ensures families { OpcodeRows }
{}

/// Bytes that spell no module.
pub fn nothing_is_spelled()
    ensures { NothingIsSpelled }
{}
