// Worked rows, by computation.

ghost use Rattle.mw_wasm.specs.NumericRows.{NumericRows32, NumericRows64, ConversionRows};
ghost use Rattle.mw_wasm.specs.MemoryRows.{LoadRows, StoreRows, GrowthRows};
ghost use Rattle.mw_wasm.specs.ControlRows.{NestedRows, UnitRows, PlainRows, IndirectCallRows};

/// Every numeric operation at edge values, through an invocation.
pub fn numeric_rows()
    ensures at_32 { NumericRows32 }
    ensures at_64 { NumericRows64 }
    ensures conversions { ConversionRows }
{}

/// Every load inside the memory, at its end and past it.
pub fn load_rows()
    ensures { LoadRows }
{}

/// Every store inside the memory, at its end and past it.
pub fn store_rows()
    ensures { StoreRows }
{}

/// Growth up to a maximum and up to 1,024 pages.
pub fn growth_rows()
    ensures { GrowthRows }
{}

/// Branches and returns out of nested blocks, with operands below.
pub fn nested_rows()
    ensures { NestedRows }
{}

/// Units exactly enough, one more and one less.
pub fn unit_rows()
    ensures { UnitRows }
{}

/// Instructions that move values; where locals and globals begin.
pub fn plain_rows()
    ensures { PlainRows }
{}

/// Indirect calls of several types by each element of a table.
pub fn indirect_call_rows()
    ensures { IndirectCallRows }
{}
