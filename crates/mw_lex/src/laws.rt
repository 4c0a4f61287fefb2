//! What holds of the definitions; no program calls these.

ghost use Rattle.mw_lex.specs.Lexing.{OneList, OneFault, NeverBoth, AlwaysOne};

/// Bytes are at most one list of tokens.
pub fn one_list()
    ensures { OneList }
{}

/// Bytes have at most one first fault.
pub fn one_fault()
    ensures { OneFault }
{}

/// Bytes that are tokens have no first fault.
pub fn never_both()
    ensures { NeverBoth }
{}

/// Bytes are tokens, or they have a first fault.
pub fn always_one()
    ensures { AlwaysOne }
{}
