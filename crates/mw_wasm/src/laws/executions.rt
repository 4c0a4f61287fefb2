// Worked examples of execution.

ghost use Rattle.mw_wasm.specs.ExecutionExamples.{InitAnswersSeven, CubeIsCalledTwice, LoopIsSpent};
ghost use Rattle.mw_wasm.specs.ExecutionExamples.{StoreOutOfBoundsTraps, EmptyElementTraps};
ghost use Rattle.mw_wasm.specs.ControlExamples.{ControlRows, MemoryRows, IndirectRows, SegmentRows};

/// `init` of the constant module answers 7 with all units left.
pub fn init_answers_seven()
    ensures { InitAnswersSeven }
{}

/// `call` of the cube's module answers 5 with 125, and then -2 with -8, with one unit spent each time.
pub fn cube_is_called_twice()
    ensures { CubeIsCalledTwice }
{}

/// A loop that branches to itself is spent, however many units there are.
pub fn loop_is_spent()
    ensures { LoopIsSpent }
{}

/// A store past the memory's end traps, and nothing is written.
pub fn store_out_of_bounds_traps()
    ensures { StoreOutOfBoundsTraps }
{}

/// An indirect call of an empty element traps with no units left.
pub fn empty_element_traps()
    ensures { EmptyElementTraps }
{}

/// Branches, returns, loops and calls, by rows.
pub fn control_rows()
    ensures { ControlRows }
{}

/// Growth, loads and stores, by rows.
pub fn memory_rows()
    ensures { MemoryRows }
{}

/// Indirect calls, by rows.
pub fn indirect_rows()
    ensures { IndirectRows }
{}

/// Segments, by rows.
pub fn segment_rows()
    ensures { SegmentRows }
{}
