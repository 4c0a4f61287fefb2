// Values that a program answers, and the ends of an evaluation without one.

/// A value of a base type.
#[derive(Clone, Copy, Debug, PartialEq, Eq)]
pub enum BaseValue {
    Int(i64),
    Bool(bool),
}

/// A value of a ground type, as kernels take and give it and main has it.
#[derive(Debug, Drop)]
pub enum GroundValue {
    Base(BaseValue),
    Pair(Box<GroundValue>, Box<GroundValue>),
}

/// A trap of a division.
#[derive(Clone, Copy, Debug, PartialEq, Eq)]
pub enum TrapKind {
    /// A division or a remainder by zero.
    Divide,
    /// The least integer divided by -1.
    Overflow,
}

/// A bound that an evaluation met.
#[derive(Clone, Copy, Debug, PartialEq, Eq)]
pub enum Limit {
    /// An application with no unit of fuel left.
    Fuel,
    /// Kernel code of more than 20,000 nodes, or deeper than 400.
    KernelSize,
    /// More than 524,288 words of a kernel's heap.
    Heap,
}
