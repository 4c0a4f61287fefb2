//! Laws of the phases' work, which no program calls but the phases.

ghost use denote.Param.Send.{IsSend, IsSync};
ghost use denote.Ref.{NamedLft};
ghost use Rattle.mw_tasks.specs.contracts.job.Done as done;
ghost use Rattle.mw_tasks.specs.contracts.job.Evaluation as evaluation;
ghost use Rattle.mw_tasks.specs.contracts.job.Taken as taken;

use mw_cache::laws::{asked_crosses, caches_cross, gots_cross};
use mw_term::laws::{programs_cross, terms_cross};

/// What an item came to may be sent to other threads.
pub fn done_crosses()
    ensures { IsSend done.the_row }
{
    gots_cross();
    asked_crosses();
    terms_cross();
}

/// What a worker took may be sent to other threads.
pub fn taken_crosses()
    ensures { IsSend taken.the_row }
{
    done_crosses();
}

/// The evaluation of a program's items may be shared with other threads.
pub fn evaluations_cross()
    ensures { (a b : NamedLft) → IsSync (evaluation.the_row a b) }
{
    programs_cross();
    caches_cross();
}
