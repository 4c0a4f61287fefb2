// Laws of terms, of shifting, substitution and typing, which no program calls.

ghost use denote.Param.Send.{IsSend, IsSync};
ghost use Rattle.mw_term.specs.contracts.program.Program as program;
ghost use Rattle.mw_term.specs.contracts.term.Term as term;
ghost use Rattle.mw_term.specs.Sources.{TermsAreSources};
ghost use Rattle.mw_term.specs.SubstitutionLaws.{ShiftKeepsSize, SubstitutionKeepsSize, SubstitutionUndoesShift};
ghost use Rattle.mw_term.specs.SubstitutionLaws.{ShiftsCommute, ShiftKeepsClosed, SubstitutionKeepsClosed};
ghost use Rattle.mw_term.specs.SubstitutionLaws.{ShiftRaisesFree, SubstitutionLowersFree};
ghost use Rattle.mw_term.specs.TypingLaws.{TypesFit, TypedIsClosed, WeakeningKeepsTypes, SubstitutionKeepsTypes};

use crate::program::Program;
use crate::term::Term;

/// No term of a program has values that were put for variables.
pub fn terms_are_sources()
    ensures { TermsAreSources }
{}

/// A shift keeps a term's size.
pub fn shift_keeps_size()
    ensures { ShiftKeepsSize }
{}

/// Substitution of a value keeps a term's size.
pub fn substitution_keeps_size()
    ensures { SubstitutionKeepsSize }
{}

/// A value put for a variable that a shift left out changes nothing.
pub fn substitution_undoes_shift()
    ensures { SubstitutionUndoesShift }
{}

/// Two shifts may come in either order.
pub fn shifts_commute()
    ensures { ShiftsCommute }
{}

/// A shift from k on keeps a term whose free variables are below k.
pub fn shift_keeps_closed()
    ensures { ShiftKeepsClosed }
{}

/// Substitution for variable k keeps a term whose free variables are below k.
pub fn substitution_keeps_closed()
    ensures { SubstitutionKeepsClosed }
{}

/// A shift makes room for one free variable more.
pub fn shift_raises_free()
    ensures { ShiftRaisesFree }
{}

/// Substitution of a value takes one free variable away, and brings only those of the value.
pub fn substitution_lowers_free()
    ensures { SubstitutionLowersFree }
{}

/// Each type that a term has fits the level where the term stands.
pub fn types_fit()
    ensures { TypesFit }
{}

/// A typed term uses the variables of its environment alone.
pub fn typed_is_closed()
    ensures { TypedIsClosed }
{}

/// A shifted term keeps its types under one more binder.
pub fn weakening_keeps_types()
    ensures { WeakeningKeepsTypes }
{}

/// Substitution of a value of a variable's type keeps a term's types.
pub fn substitution_keeps_types()
    ensures { SubstitutionKeepsTypes }
{}

/// What may be sent to other threads, and shared with them, may.
fn crosses<E: Send + Sync>()
    ensures send { IsSend E.row }
    ensures sync { IsSync E.row }
{}

/// A term may be sent to other threads, and shared with them.
pub fn terms_cross()
    ensures send { IsSend term.the_row }
    ensures sync { IsSync term.the_row }
{
    crosses::<Term>();
}

/// A program may be sent to other threads, and shared with them.
pub fn programs_cross()
    ensures send { IsSend program.the_row }
    ensures sync { IsSync program.the_row }
{
    crosses::<Program>();
}
