// Laws of the definitions, which no program calls.

ghost use Rattle.mw_gen.specs.EmissionLaw.{EmittedModulesAreRight};
ghost use Rattle.mw_gen.specs.Examples.{
  CubeIsEmitted,
  SelfTailCallIsABranch,
  SelfTailCallIsACall,
  SevenIsEmitted,
};
ghost use Rattle.mw_gen.specs.Generation.{GenerationKeepsMeaning};

/// In both versions some bytes spell an emitted module, it is valid and within the profile's limits, has the shape of
/// its kernel type, and stands for its code.
pub fn emission_holds()
    ensures { EmittedModulesAreRight }
{}

/// In both versions the reduction of a generated module does what the converted code means.
pub fn generation_keeps_meaning()
    ensures { GenerationKeepsMeaning }
{}

/// The modules of 7 and of the cube, in both versions.
pub fn example_modules_are_emitted()
    ensures seven { SevenIsEmitted }
    ensures cube { CubeIsEmitted }
{}

/// A self tail call is a call in version 1, and a branch to a loop in version 2.
pub fn self_tail_calls()
    ensures call { SelfTailCallIsACall }
    ensures branch { SelfTailCallIsABranch }
{}
