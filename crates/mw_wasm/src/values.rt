// Types of values, values and traps.

use mw_list::Sequence;

/// A type of values: integers of 32 or of 64 bits.
#[derive(Clone, Copy, Debug, PartialEq, Eq)]
pub enum ValType {
    I32,
    I64,
}

/// A value: its bits, read unsigned.
#[derive(Clone, Copy, Debug, PartialEq, Eq)]
pub enum Value {
    I32(u32),
    I64(u64),
}

/// Why an execution traps.
#[derive(Clone, Copy, Debug, PartialEq, Eq)]
pub enum Trap {
    /// `unreachable` was met.
    Unreachable,
    /// A division or a remainder by zero.
    Divide,
    /// The least integer divided by -1.
    Overflow,
    /// An access to memory past its end.
    OutOfBounds,
    /// An indirect call past the table's end.
    UndefinedElement,
    /// An indirect call of an element that holds no function.
    Uninitialized,
    /// An indirect call of a function of another type.
    WrongType,
}

/// Types of values in order, which contracts see as a list.
pub type ValTypes = Sequence<ValType>;

/// Bytes in order, which contracts see as a list.
pub type Octets = Sequence<u8>;

/// Indices in order, which contracts see as a list.
pub type Indices = Sequence<u32>;
