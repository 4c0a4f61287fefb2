// What may go to other threads.

ghost use denote.Param.Send.{IsSend, IsSync};
ghost use Rattle.mw_wasm.specs.contracts.instructions.Instrs as instructions;
ghost use Rattle.mw_wasm.specs.contracts.modules.Module as wasm_module;

use crate::instructions::Instrs;
use crate::modules::Module;

/// What may be sent to other threads, and shared with them, may.
fn crosses<E: Send + Sync>()
    ensures send { IsSend E.row }
    ensures sync { IsSync E.row }
{}

/// Instructions may be sent to other threads, and shared with them.
pub fn instructions_cross()
    ensures send { IsSend instructions.the_row }
    ensures sync { IsSync instructions.the_row }
{
    crosses::<Instrs>();
}

/// A module may be sent to other threads, and shared with them.
pub fn modules_cross()
    ensures send { IsSend wasm_module.the_row }
    ensures sync { IsSync wasm_module.the_row }
{
    crosses::<Module>();
}
