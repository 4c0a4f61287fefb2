// Laws of most general solutions and of fronts, which no program calls.
#![tactic(auto, using(crate::proofs::Faults::laws))]

ghost use Rattle.mw_types.specs.SolutionLaws.{SolvableHaveMostGeneral, MostGeneralAreInstances};
ghost use Rattle.mw_types.specs.SolutionLaws.{MostGeneralHaveSameSizes, UnsolvableStays};
ghost use Rattle.mw_types.specs.SolutionLaws.{TooBigStays, FineBefore, FaultsAreOne, FineOrFaulty};

/// Equations that have a solution have a most general one.
pub fn solvable_have_most_general()
    ensures { SolvableHaveMostGeneral }
{}

/// Of two most general solutions each is an instance of the other.
pub fn most_general_are_instances()
    ensures { MostGeneralAreInstances }
{}

/// The types of two most general solutions have the same sizes.
pub fn most_general_have_same_sizes()
    ensures { MostGeneralHaveSameSizes }
{}

/// A longer front of one without a solution has none.
pub fn unsolvable_stays()
    ensures { UnsolvableStays }
{}

/// A longer front of one that is too big is too big, where it has a solution.
pub fn too_big_stays()
    ensures { TooBigStays }
{}

/// A shorter front of a fine one is fine.
pub fn fine_before()
    ensures { FineBefore }
{}

/// Equations have at most one first fault, and none where they are fine.
pub fn faults_are_one()
    ensures { FaultsAreOne }
{}

/// Equations are fine or have a first fault.
pub fn fine_or_faulty()
    ensures { FineOrFaulty }
{}
