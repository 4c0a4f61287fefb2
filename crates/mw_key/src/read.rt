// Texts to code.

ghost use Rattle.std.specs.Prelude.{◌≡◌, ◌+◌, ◌*◌, ◌≤◌, IfOk, MatchResult, alloc_error};
ghost use Rattle.mw_term.specs.Terms.{Expression, KernelType, expression_of, ground_of, kernel_type_of};
ghost use Rattle.mw_key.specs.CanonicalText.{IsTextOf};
ghost use Rattle.mw_key.specs.Reading.{words_left, find_ground, ground_parts, find_kernel_type, find_code, code_parts};
ghost use Rattle.mw_key.specs.Reading.{text_of_words, Answers, Finds};
ghost use Rattle.mw_key.specs.declared.version.Version.{Version as PureVersion};

use crate::fault::TextFault;
use crate::form::{Form, TypeForm};
use crate::reader::Reader;
use crate::version::Version;
use mw_term::{Ground, KType, MOST_CODE_DEPTH, MOST_CODE_NODES, MOST_TYPE_NODES, Term};
use std::alloc::Global;

/// What a call that reads from words answers.
type Read<T> = Result<T, TextFault>;

/// The version, code and type whose canonical text the bytes are. `BadText` comes where they are none, and `Memory`
/// where memory runs out. Words are read one after another, and no further than to the first that can't stand there.
pub fn read_text(alloc: Global, bytes: &[u8]) -> Result<(Version, Term, KType), TextFault>
    ensures read { IfOk result
        (λ t. IsTextOf bytes.now t.0 (expression_of t.1) (kernel_type_of t.2)) }
    ensures refused { result ≡ Err TextFault.BadText
        → (v : PureVersion) (c : Expression) (k : KernelType)
        → IsTextOf bytes.now v c k → ⊥ }
    ensures found { (v : PureVersion) (c : Expression) (k : KernelType) → IsTextOf bytes.now v c k
        → MatchResult result (λ t. (t.0 ≡ v) × (expression_of t.1 ≡ c) × (kernel_type_of t.2 ≡ k))
        (λ fault. fault ≡ TextFault.Memory alloc_error) }
{
    whole_text(alloc, &mut Reader::new(bytes))
}

/// The version, code and type that all words that are left spell.
#[tactic(auto, unfolding(crate::specs::Reading::text_of_words))]
fn whole_text(alloc: Global, reader: &mut Reader) -> Read<(Version, Term, KType)>
    ensures { Answers (λ t. (t.0, expression_of t.1, kernel_type_of t.2)) result
        (text_of_words (words_left reader.old.rest)) }
{
    reader.allow(MOST_TYPE_NODES);
    let version = reader.version()?;
    let kind = kernel_type(alloc, reader)?;
    reader.allow(MOST_CODE_NODES);
    match code(alloc, reader, MOST_CODE_DEPTH, 0) {
        Ok(code) if reader.is_at_end() => Ok((version, code, kind)),
        Ok(code) => {
            drop(code);
            drop(kind);
            Err(TextFault::BadText)
        }
        Err(fault) => {
            drop(kind);
            Err(fault)
        }
    }
}

/// A kernel type.
pub(crate) fn kernel_type(alloc: Global, reader: &mut Reader) -> Read<KType>
    ensures { Finds kernel_type_of result (find_kernel_type MOST_TYPE_NODES) reader.old reader.new }
{
    match reader.type_form()? {
        TypeForm::To => {
            let argument = ground(alloc, reader, MOST_TYPE_NODES)?;
            let result = ground(alloc, reader, MOST_TYPE_NODES)?;
            Ok(KType::Fun(argument, result))
        }
        form => Ok(KType::Ground(ground_after(alloc, reader, form, MOST_TYPE_NODES)?)),
    }
}

/// A ground type that nests at most so deep.
#[cycle(grounds)]
#[tactic(auto, using(crate::proofs::Steps::ground_step, crate::proofs::Steps::ground_none))]
fn ground(alloc: Global, reader: &mut Reader, depth: u32) -> Read<Ground>
    ensures { Finds ground_of result (find_ground depth) reader.old reader.new }
{
    if depth == 0 {
        return Err(TextFault::BadText);
    }
    let form = reader.type_form()?;
    ground_after(alloc, reader, form, depth - 1)
}

/// A ground type after its first word, whose parts nest at most so deep.
#[cycle(grounds)]
fn ground_after(alloc: Global, reader: &mut Reader, form: TypeForm, depth: u32) -> Read<Ground>
    ensures { Finds ground_of result (ground_parts (find_ground depth) form) reader.old reader.new }
{
    match form {
        TypeForm::Base(base) => Ok(Ground::Base(base)),
        TypeForm::Pair => {
            let left = ground(alloc, reader, depth)?;
            let right = ground(alloc, reader, depth)?;
            Ok(Ground::Pair(Box::new(alloc, left)?, Box::new(alloc, right)?))
        }
        TypeForm::To => Err(TextFault::BadText),
    }
}

/// Code of at most this depth, under this many binders.
#[cycle(code)]
#[tactic(auto, using(crate::proofs::Steps::code_step, crate::proofs::Steps::code_none))]
fn code(alloc: Global, reader: &mut Reader, depth: u32, binders: u32) -> Read<Term>
    requires room { binders + 2 * depth ≤ 1000 }
    ensures { Finds expression_of result (find_code depth binders) reader.old reader.new }
{
    if depth == 0 {
        return Err(TextFault::BadText);
    }
    let form = reader.form()?;
    code_of(alloc, reader, form, depth - 1, binders)
}

/// Code after its first word, whose parts have at most this depth.
#[cycle(code)]
fn code_of(alloc: Global, reader: &mut Reader, form: Form, depth: u32, binders: u32) -> Read<Term>
    requires room { binders + 2 * depth ≤ 998 }
    ensures { Finds expression_of result (code_parts (find_code depth) form binders) reader.old
        reader.new }
{
    match form {
        Form::Int => Ok(Term::Int(reader.integer()?)),
        Form::Bool(b) => Ok(Term::Bool(b)),
        Form::Var => Ok(Term::Var(reader.variable(binders)?)),
        Form::WithOne(form) => {
            let part = boxed(alloc, reader, depth, form.under(binders))?;
            Ok(form.of(part))
        }
        Form::WithTwo(form) => {
            let first = boxed(alloc, reader, depth, binders)?;
            let second = boxed(alloc, reader, depth, form.under(binders))?;
            Ok(form.of(first, second))
        }
        Form::If => {
            let c = boxed(alloc, reader, depth, binders)?;
            let a = boxed(alloc, reader, depth, binders)?;
            Ok(Term::If(c, a, boxed(alloc, reader, depth, binders)?))
        }
    }
}

/// Code in a box.
#[cycle(code)]
fn boxed(alloc: Global, reader: &mut Reader, depth: u32, binders: u32) -> Read<Box<Term>>
    requires room { binders + 2 * depth ≤ 1000 }
    ensures { Finds (λ code. expression_of code.value) result (find_code depth binders) reader.old
        reader.new }
{
    Ok(Box::new(alloc, code(alloc, reader, depth, binders)?)?)
}
