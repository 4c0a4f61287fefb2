// Laws of simplification, which no program calls.

ghost use Rattle.mw_simplify.specs.SimplificationRows.{Primitives, Branches, Parts, NamesOfAtoms, UnusedLets};
ghost use Rattle.mw_simplify.specs.SimplificationTheorem.{KeepsMeaning};
ghost use Rattle.mw_simplify.specs.SimplifiedOutcomes.{ItemsStay, MainStays};

/// Simplified code means the same.
pub fn simplified_meaning()
    ensures { KeepsMeaning }
{}

/// Where code is simplified before it is run, items and main come to the same code, the same value or the same trap.
pub fn simplified_outcomes()
    ensures items { ItemsStay }
    ensures main { MainStays }
{}

/// Each rule met and just missed, by computation.
pub fn simplification_rows()
    ensures primitives { Primitives }
    ensures branches { Branches }
    ensures parts { Parts }
    ensures names { NamesOfAtoms }
    ensures unused { UnusedLets }
{}
