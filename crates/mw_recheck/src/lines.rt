// The line of a node: which numbers it has, and which types its level lets it have.

ghost use Rattle.std.specs.Prelude.{◌≡◌, map};
ghost use Rattle.std.specs.Option.{option_map};
ghost use Rattle.mw_term.specs.Terms.{expression_of};
ghost use Rattle.mw_lines.specs.Tables.{lines_of, AreHeld};
ghost use Rattle.mw_recheck.specs.Judging.{form_of, line_of_form, fits, all_fit, may_stand, own_at};
ghost use Rattle.mw_recheck.specs.Answers.{numbers_of};
ghost use Rattle.mw_recheck.specs.Views.{level_at};
ghost use Rattle.mw_recheck.specs.Forms.{form_at, line_at};

use crate::scope::Level;
use crate::section::NodeLine;
use mw_lines::TypeLines;
use mw_term::Term;

/// How many numbers the line of a node has, and which of them are types: all, or all but the last, its classifier.
#[derive(Clone, Copy)]
enum Form {
    OneType,
    TwoTypes,
    ThreeTypes,
    TypeAndClassifier,
    TwoTypesAndClassifier,
}

/// A node's line: the place of its type, and what it names further; 0 where it names nothing.
#[derive(Clone, Copy)]
pub struct Own {
    pub own: usize,
    pub second: u64,
    pub third: u64,
}

fn form_of(term: &Term) -> Form
    ensures { form_at result ≡ form_of (expression_of term.now) }
{
    match term {
        Term::Int(_) | Term::Bool(_) | Term::Var(_) | Term::Glob(_) => Form::OneType,
        Term::App(_, _) | Term::If(_, _, _) | Term::Pair(_, _) => Form::OneType,
        Term::Prim(_, _, _) | Term::Escape(_) | Term::Run(_, _) => Form::OneType,
        Term::Fun(_) | Term::Let(_, _) | Term::Fst(_) | Term::Snd(_) => Form::TwoTypes,
        Term::Rec(_) => Form::ThreeTypes,
        Term::Bracket(_) | Term::Lift(_) | Term::LiftB(_) => Form::TypeAndClassifier,
        Term::CloseCode(_, _) | Term::OpenCode(_) => Form::TwoTypesAndClassifier,
    }
}

/// The line of a node of a form, where it has as many numbers.
fn line_of(form: Form, line: NodeLine) -> Option<Own>
    ensures { option_map line_at result ≡ line_of_form (form_at form) (numbers_of line) }
{
    let (own, second, third) = match (form, line) {
        (Form::OneType, NodeLine::One(own)) => (own, 0, 0),
        (Form::TwoTypes | Form::TypeAndClassifier, NodeLine::Two(own, second)) => (own, second, 0),
        (Form::ThreeTypes, NodeLine::Three(own, second, third)) => (own, second, third),
        (Form::TwoTypesAndClassifier, NodeLine::Three(own, second, third)) => (own, second, third),
        _ => return None,
    };
    Some(Own {
        own: own as usize,
        second,
        third,
    })
}

/// Whether a place names a type that fits the level.
fn fits(types: &TypeLines, level: Level, at: u64) -> bool
    requires { AreHeld types.now }
    ensures { result ≡ fits (lines_of types.now) (level_at level) at }
{
    let at = at as usize;
    match level {
        Level::Live => at < types.len(),
        Level::Under(_) => at < types.len() && !types.holds_code(at),
    }
}

/// Whether the types of a node's line fit the level.
fn all_fit(types: &TypeLines, level: Level, form: Form, line: Own) -> bool
    requires { AreHeld types.now }
    ensures { result ≡ all_fit (lines_of types.now) (level_at level) (form_at form) (line_at line) }
{
    let own = fits(types, level, line.own as u64);
    match form {
        Form::OneType | Form::TypeAndClassifier => own,
        Form::TwoTypes | Form::TwoTypesAndClassifier => own && fits(types, level, line.second),
        Form::ThreeTypes => {
            own && (fits(types, level, line.second) && fits(types, level, line.third))
        }
    }
}

/// Whether a term of this form may stand at a level.
fn may_stand(level: Level, term: &Term) -> bool
    ensures { result ≡ may_stand (level_at level) (expression_of term.now) }
{
    match term {
        Term::Escape(_) => matches!(level, Level::Under(_)),
        Term::Glob(_) | Term::Bracket(_) | Term::Run(_, _) => matches!(level, Level::Live),
        Term::CloseCode(_, _) | Term::OpenCode(_) => matches!(level, Level::Live),
        Term::Lift(_) | Term::LiftB(_) => matches!(level, Level::Live),
        _ => true,
    }
}

/// The line of a term's root, whose types fit the level, at which the term may stand; and the lines after it.
pub fn own_line<'n>(
    types: &TypeLines,
    level: Level,
    term: &Term,
    nodes: &'n [NodeLine],
) -> Option<(Own, &'n [NodeLine])>
    requires { AreHeld types.now }
    ensures { option_map (λ x. (line_at x.0, map numbers_of x.1.now)) result
        ≡ own_at (lines_of types.now) (level_at level) (expression_of term.now) (map numbers_of nodes.now) }
{
    let [node, rest @ ..] = nodes else {
        return None;
    };
    let form = form_of(term);
    let line = line_of(form, *node)?;
    if may_stand(level, term) && all_fit(types, level, form, line) {
        Some((line, rest))
    } else {
        None
    }
}
