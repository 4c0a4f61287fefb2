// Texts of code.

ghost use Rattle.std.specs.Prelude.{◌≡◌, ◌++◌, IfOk};
ghost use Rattle.std.specs.Fmt.{decimal, signed_decimal};
ghost use Rattle.mw_term.specs.Terms.{expression_of, ground_of, kernel_type_of};
ghost use Rattle.mw_term.specs.Closed.{IsCode};
ghost use Rattle.mw_term.specs.Limits.{LiteralsFit};
ghost use Rattle.mw_key.specs.CanonicalText.{canonical_text, kernel_words, ground_words, code_words, words_of_two};
ghost use Rattle.mw_key.specs.CanonicalText.{primitive_word};
ghost use Rattle.mw_key.specs.declared.version.Version.TheVariants.{Two};

use mw_term::{Base, Ground, KType, Prim, Term};
use std::alloc::{AllocError, Global};

/// The text of the second version for the code at the kernel type. The one error is want of memory.
pub fn text_of(alloc: Global, code: &Term, kind: &KType) -> Result<Vec<u8>, AllocError>
    requires code { IsCode (expression_of code.now) }
    ensures text { IfOk result
        (λ text. text.items ≡ canonical_text Two (expression_of code.now) (kernel_type_of kind.now)) }
    ensures literals { IfOk result (λ _. LiteralsFit (expression_of code.now)) }
{
    let mut text = Vec::new(alloc);
    put(&mut text, b"emit2")?;
    put_kernel_type(&mut text, kind)?;
    put_code(&mut text, code)?;
    Ok(text)
}

/// More text.
#[inline(always)]
fn put(text: &mut Vec<u8>, more: &[u8]) -> Result<(), AllocError>
    ensures { IfOk result (λ _. text.new.items ≡ text.old.items ++ more.now) }
{
    text.extend_from_slice(more)?;
    Ok(())
}

/// The words of a kernel type.
fn put_kernel_type(text: &mut Vec<u8>, kind: &KType) -> Result<(), AllocError>
    ensures { IfOk result
        (λ _. text.new.items ≡ text.old.items ++ kernel_words (kernel_type_of kind.now)) }
{
    match kind {
        KType::Ground(ground) => put_ground(text, ground),
        KType::Fun(argument, result) => {
            put(text, b" to")?;
            put_ground(text, argument)?;
            put_ground(text, result)
        }
    }
}

/// The words of a ground type.
fn put_ground(text: &mut Vec<u8>, ground: &Ground) -> Result<(), AllocError>
    ensures { IfOk result
        (λ _. text.new.items ≡ text.old.items ++ ground_words (ground_of ground.now)) }
{
    match ground {
        Ground::Base(Base::Int) => put(text, b" int"),
        Ground::Base(Base::Bool) => put(text, b" bool"),
        Ground::Pair(left, right) => {
            put(text, b" pair")?;
            put_ground(text, left)?;
            put_ground(text, right)
        }
    }
}

/// The words of code; what is no code has none.
#[cycle(code)]
fn put_code(text: &mut Vec<u8>, code: &Term) -> Result<(), AllocError>
    ensures text { IfOk result
        (λ _. text.new.items ≡ text.old.items ++ code_words (expression_of code.now)) }
    ensures literals { IfOk result (λ _. LiteralsFit (expression_of code.now)) }
{
    match code {
        Term::Int(n) => {
            put(text, b" i ")?;
            put_signed_decimal(text, *n)
        }
        Term::Bool(true) => put(text, b" true"),
        Term::Bool(false) => put(text, b" false"),
        Term::Var(i) => {
            put(text, b" v ")?;
            put_decimal(text, u64::from(*i))
        }
        Term::Fun(e) => put_one(text, b" fun", e),
        Term::Rec(e) => put_one(text, b" rec", e),
        Term::App(f, a) => put_two(text, b" app", f, a),
        Term::Let(d, e) => put_two(text, b" let", d, e),
        Term::If(c, a, b) => {
            put_two(text, b" if", c, a)?;
            put_code(text, b)
        }
        Term::Pair(a, b) => put_two(text, b" pair", a, b),
        Term::Fst(e) => put_one(text, b" fst", e),
        Term::Snd(e) => put_one(text, b" snd", e),
        Term::Prim(p, a, b) => put_two(text, word_of(*p), a, b),
        Term::Glob(_) | Term::Bracket(_) | Term::Escape(_) | Term::Run(_, _) => Ok(()),
        Term::CloseCode(_, _) | Term::OpenCode(_) | Term::Lift(_) | Term::LiftB(_) => Ok(()),
    }
}

/// A word and the words of code.
#[cycle(code)]
fn put_one(text: &mut Vec<u8>, word: &[u8], code: &Term) -> Result<(), AllocError>
    ensures text { IfOk result
        (λ _. text.new.items ≡ text.old.items ++ (word.now ++ code_words (expression_of code.now))) }
    ensures literals { IfOk result (λ _. LiteralsFit (expression_of code.now)) }
{
    put(text, word)?;
    put_code(text, code)
}

/// A word and the words of code and of more code.
#[cycle(code)]
fn put_two(text: &mut Vec<u8>, word: &[u8], first: &Term, second: &Term) -> Result<(), AllocError>
    ensures text { IfOk result
        (λ _. text.new.items ≡ text.old.items ++ words_of_two word.now (expression_of first.now)
        (expression_of second.now)) }
    ensures literals { IfOk result
        (λ _. LiteralsFit (expression_of first.now) × LiteralsFit (expression_of second.now)) }
{
    put(text, word)?;
    put_code(text, first)?;
    put_code(text, second)
}

/// The word of a primitive, after its space.
fn word_of(primitive: Prim) -> &'static [u8]
    ensures { result.now ≡ primitive_word primitive }
{
    match primitive {
        Prim::Add => b" add",
        Prim::Sub => b" sub",
        Prim::Mul => b" mul",
        Prim::Div => b" div",
        Prim::Mod => b" mod",
        Prim::Eq => b" eq",
        Prim::Lt => b" lt",
        Prim::Le => b" le",
    }
}

/// The integer in decimal, with a sign where it is negative.
#[inline(always)]
fn put_signed_decimal(text: &mut Vec<u8>, number: i64) -> Result<(), AllocError>
    ensures { IfOk result (λ _. text.new.items ≡ text.old.items ++ signed_decimal number) }
{
    if number < 0 {
        text.push(b'-')?;
    }
    put_decimal(text, number.unsigned_abs())
}

/// The number in decimal, with no leading zero.
#[tactic(auto, using(std::proofs::lemmas::Fmt::decimal_digit))]
fn put_decimal(text: &mut Vec<u8>, number: u64) -> Result<(), AllocError>
    ensures { IfOk result (λ _. text.new.items ≡ text.old.items ++ decimal number) }
{
    if number < 10 {
        return put(text, &[b'0' + number as u8]);
    }
    put_decimal(text, number / 10)?;
    put(text, &[b'0' + (number % 10) as u8])
}
