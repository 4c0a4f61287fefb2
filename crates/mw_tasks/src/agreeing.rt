// Outcomes of one text are in one slot.

ghost use Rattle.std.specs.Prelude.{◌<◌, All, length};
ghost use Rattle.mw_cache.specs.Gots.{IsAnswered};
ghost use Rattle.mw_tasks.specs.Phases.{IfBuilt, HaveOneModule, AllHaveOneModule};
ghost use Rattle.mw_tasks.specs.Agreeing.{AgreesWithFirst};

use crate::outcome::ItemOutcome;
use mw_cache::Cache;

/// Of each two outcomes: where they are of one text, and both modules are in the table, they are in one slot.
pub(crate) fn agree_all(cache: &Cache<'_>, outcomes: &[ItemOutcome])
    requires { All (λ o. IfBuilt o (λ c got. IsAnswered cache.now got)) outcomes.now }
    ensures { AllHaveOneModule outcomes.now }
{
    for at in 0..outcomes.len() {
        agree_with(cache, outcomes, at);
    }
}

/// Of an outcome and all.
fn agree_with(cache: &Cache<'_>, outcomes: &[ItemOutcome], at: usize)
    requires at { at < length outcomes.now }
    requires answered { All (λ o. IfBuilt o (λ c got. IsAnswered cache.now got)) outcomes.now }
    ensures { AgreesWithFirst outcomes.now at (length outcomes.now) }
{
    for other in 0..outcomes.len() {
        agree(cache, &outcomes[at], &outcomes[other]);
    }
}

/// Of two outcomes.
fn agree(cache: &Cache<'_>, one: &ItemOutcome, other: &ItemOutcome)
    requires one { IfBuilt one.now (λ c got. IsAnswered cache.now got) }
    requires other { IfBuilt other.now (λ c got. IsAnswered cache.now got) }
    ensures { HaveOneModule one.now other.now }
{
    if let ItemOutcome::Code(_, a) = one {
        if let ItemOutcome::Code(_, b) = other {
            cache.agree(a, b);
        }
    }
}
