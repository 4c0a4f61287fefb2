// The numeric instructions.

/// An operation on integers of one width.
#[derive(Clone, Copy, Debug, PartialEq, Eq)]
pub enum IntOp {
    Eqz,
    Eq,
    Ne,
    LtS,
    LtU,
    GtS,
    GtU,
    LeS,
    LeU,
    GeS,
    GeU,
    Clz,
    Ctz,
    Popcnt,
    Add,
    Sub,
    Mul,
    DivS,
    DivU,
    RemS,
    RemU,
    And,
    Or,
    Xor,
    Shl,
    ShrS,
    ShrU,
    Rotl,
    Rotr,
}

/// A numeric instruction: an operation at a width, or a conversion between the widths.
#[derive(Clone, Copy, Debug, PartialEq, Eq)]
pub enum NumOp {
    I32(IntOp),
    I64(IntOp),
    /// i32.wrap_i64.
    Wrap,
    /// i64.extend_i32_s.
    ExtendS,
    /// i64.extend_i32_u.
    ExtendU,
}

/// A load: the type of its result, the bits that are read, and how narrow ones are extended.
#[derive(Clone, Copy, Debug, PartialEq, Eq)]
pub enum LoadOp {
    I32,
    I64,
    I32S8,
    I32U8,
    I32S16,
    I32U16,
    I64S8,
    I64U8,
    I64S16,
    I64U16,
    I64S32,
    I64U32,
}

/// A store: the type of its operand, and the bits that are written.
#[derive(Clone, Copy, Debug, PartialEq, Eq)]
pub enum StoreOp {
    I32,
    I64,
    I32To8,
    I32To16,
    I64To8,
    I64To16,
    I64To32,
}
