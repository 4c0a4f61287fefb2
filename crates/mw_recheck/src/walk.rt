// The node lines of a term, followed from its root to its leaves.

ghost use Rattle.std.specs.Prelude.{◌≡◌, ◌<◌, true, length, map, IfOk};
ghost use Rattle.mw_term.specs.Terms.{expression_of};
ghost use Rattle.mw_lines.specs.Tables.{lines_of, AreHeld};
ghost use Rattle.mw_recheck.specs.Judging.{form_of, all_fit, judged};
ghost use Rattle.mw_recheck.specs.Answers.{Gives, numbers_of};
ghost use Rattle.mw_recheck.specs.Forms.{line_at};
ghost use Rattle.mw_recheck.specs.Parts.{places_of_parts, parts_judged};
ghost use Rattle.mw_recheck.specs.Roots.{AreRoots, AreWithin, tops_of};
ghost use Rattle.mw_recheck.specs.Views.{level_at, binders_of};

use crate::agree::{Parts, agrees, no_parts};
use crate::lines::{Own, own_line};
use crate::names::Setting;
use crate::scope::{Level, Scope, bound};
use crate::section::NodeLine;
use crate::stop::Stop;
use mw_term::Term;

/// The place of a term's type, and the node lines after the term's, where these are right for it.
#[cycle(terms)]
pub fn judge<'n>(
    term: &Term,
    setting: &Setting,
    scope: &Scope,
    level: Level,
    nodes: &'n [NodeLine],
) -> Result<(usize, &'n [NodeLine]), Stop>
    requires held { AreHeld setting.now.types.now }
    requires roots { AreRoots setting.now.roots.now }
    requires within { AreWithin (lines_of setting.now.types.now) (binders_of scope.now) }
    ensures within { IfOk result (λ x. x.0 < length (lines_of setting.now.types.now)) }
    ensures judged { Gives (λ x. (x.0, map numbers_of x.1.now)) result
        (judged (lines_of setting.now.types.now)
        (tops_of setting.now.kernels setting.now.roots.now) (binders_of scope.now) (level_at level)
        (expression_of term.now) (map numbers_of nodes.now)) }
{
    let Some((line, rest)) = own_line(setting.types, level, term, nodes) else {
        return Err(Stop::Wrong);
    };
    let (parts, rest) = judge_parts(term, setting, scope, level, line, rest)?;
    if !agrees(term, setting, scope, level, line, parts)? {
        return Err(Stop::Wrong);
    }
    Ok((line.own, rest))
}

/// The places of the types of a term's parts, and the node lines after them, where these are right for the parts.
#[cycle(terms)]
fn judge_parts<'n>(
    term: &Term,
    setting: &Setting,
    scope: &Scope,
    level: Level,
    line: Own,
    nodes: &'n [NodeLine],
) -> Result<(Parts, &'n [NodeLine]), Stop>
    requires held { AreHeld setting.now.types.now }
    requires roots { AreRoots setting.now.roots.now }
    requires within { AreWithin (lines_of setting.now.types.now) (binders_of scope.now) }
    requires fit { all_fit (lines_of setting.now.types.now) (level_at level)
        (form_of (expression_of term.now)) (line_at line) ≡ true }
    ensures { Gives (λ x. (places_of_parts x.0, map numbers_of x.1.now)) result
        (parts_judged (lines_of setting.now.types.now) (tops_of setting.now.kernels setting.now.roots.now)
        (binders_of scope.now) (level_at level) (expression_of term.now) (line_at line)
        (map numbers_of nodes.now)) }
{
    let second = Scope::Bound(bound(level, line.second as usize), &*scope);
    let (mut parts, mut rest) = (no_parts(), nodes);
    match term {
        Term::Int(_) | Term::Bool(_) | Term::Var(_) | Term::Glob(_) => {}
        Term::Fun(e) => (parts.first, rest) = judge(e, setting, &second, level, rest)?,
        Term::Rec(e) => {
            let inner = Scope::Bound(bound(level, line.third as usize), &second);
            (parts.first, rest) = judge(e, setting, &inner, level, rest)?;
        }
        Term::App(a, b) | Term::Pair(a, b) | Term::Prim(_, a, b) => {
            (parts.first, rest) = judge(a, setting, scope, level, rest)?;
            (parts.second, rest) = judge(b, setting, scope, level, rest)?;
        }
        Term::Let(d, e) => {
            (parts.first, rest) = judge(d, setting, scope, level, rest)?;
            (parts.second, rest) = judge(e, setting, &second, level, rest)?;
        }
        Term::If(p, a, b) => {
            (parts.first, rest) = judge(p, setting, scope, level, rest)?;
            (parts.second, rest) = judge(a, setting, scope, level, rest)?;
            (parts.third, rest) = judge(b, setting, scope, level, rest)?;
        }
        Term::Bracket(e) => {
            (parts.first, rest) = judge(e, setting, scope, Level::Under(line.second), rest)?;
        }
        Term::Escape(e) => (parts.first, rest) = judge(e, setting, scope, Level::Live, rest)?,
        Term::Fst(e)
        | Term::Snd(e)
        | Term::Run(_, e)
        | Term::CloseCode(_, e)
        | Term::OpenCode(e)
        | Term::Lift(e)
        | Term::LiftB(e) => {
            (parts.first, rest) = judge(e, setting, scope, level, rest)?;
        }
    }
    Ok((parts, rest))
}
