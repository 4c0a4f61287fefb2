// Worked examples of validity.

ghost use Rattle.mw_wasm.specs.ValidityExamples.{ConstantModuleIsValid, CubeModuleIsValid};
ghost use Rattle.mw_wasm.specs.ValidityExamples.{CodeAfterBranchHasAnyOperands};
ghost use Rattle.mw_wasm.specs.InvalidExamples.{InvalidLists, ValidLists, AlignmentRows, InvalidModules};

/// The module whose `init` answers 7 is valid.
pub fn constant_module_is_valid()
    ensures { ConstantModuleIsValid }
{}

/// The module whose `call` answers the cube of its argument is valid.
pub fn cube_module_is_valid()
    ensures { CubeModuleIsValid }
{}

/// Code after a branch may take any operands.
pub fn code_after_branch_has_any_operands()
    ensures { CodeAfterBranchHasAnyOperands }
{}

/// Lists of instructions that have no type.
pub fn invalid_lists()
    ensures { InvalidLists }
{}

/// Loops, returns and a variable that is set have one.
pub fn valid_lists()
    ensures { ValidLists }
{}

/// Each load and store may be aligned to its width and no more.
pub fn alignment_rows()
    ensures { AlignmentRows }
{}

/// Modules that aren't valid.
pub fn invalid_modules()
    ensures { InvalidModules }
{}
