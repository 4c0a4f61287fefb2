// The words that begin a version, a type or code.

ghost use Rattle.std.specs.Prelude.{◌≡◌, ◌≤◌, ◌+◌};
ghost use Rattle.std.specs.Map.{lookup};
ghost use Rattle.std.specs.Str.{bytes_eq};
ghost use Rattle.mw_term.specs.Terms.{expression_of};
ghost use Rattle.mw_key.specs.Forms.{version_of, type_form_of, form_of, primitive_words, under_one, code_of_one};
ghost use Rattle.mw_key.specs.Forms.{under_two, code_of_two};

use crate::version::Version;
use mw_term::{Base, Prim as Primitive, Term};

/// What a type begins with.
#[derive(Clone, Copy)]
pub enum TypeForm {
    Base(Base),
    Pair,
    /// A function from one ground type to another, which no ground type is.
    To,
}

/// What code begins with, by how many parts follow.
#[derive(Clone, Copy)]
pub enum Form {
    Int,
    Bool(bool),
    Var,
    WithOne(OnePart),
    WithTwo(TwoParts),
    If,
}

/// A form of one part.
#[derive(Clone, Copy)]
pub enum OnePart {
    Fun,
    Rec,
    Fst,
    Snd,
}

/// A form of two parts.
#[derive(Clone, Copy)]
pub enum TwoParts {
    App,
    Let,
    Pair,
    Prim(Primitive),
}

impl OnePart {
    /// How many binders the part stands under, where the form stands under so many.
    pub fn under(self, binders: u32) -> u32
        requires room { binders ≤ 1000 }
        ensures under { result ≡ under_one self binders }
        ensures more { result ≤ binders + 2 }
    {
        match self {
            OnePart::Fun => binders + 1,
            OnePart::Rec => binders + 2,
            OnePart::Fst | OnePart::Snd => binders,
        }
    }

    /// Code of this form and part.
    pub fn of(self, part: Box<Term>) -> Term
        ensures { expression_of result ≡ code_of_one self (expression_of part.value) }
    {
        match self {
            OnePart::Fun => Term::Fun(part),
            OnePart::Rec => Term::Rec(part),
            OnePart::Fst => Term::Fst(part),
            OnePart::Snd => Term::Snd(part),
        }
    }
}

impl TwoParts {
    /// How many binders the second part stands under, where the form stands under so many.
    pub fn under(self, binders: u32) -> u32
        requires room { binders ≤ 1000 }
        ensures under { result ≡ under_two self binders }
        ensures more { result ≤ binders + 2 }
    {
        match self {
            TwoParts::Let => binders + 1,
            TwoParts::App | TwoParts::Pair | TwoParts::Prim(_) => binders,
        }
    }

    /// Code of this form and parts.
    pub fn of(self, first: Box<Term>, second: Box<Term>) -> Term
        ensures { expression_of result
            ≡ code_of_two self (expression_of first.value) (expression_of second.value) }
    {
        match self {
            TwoParts::App => Term::App(first, second),
            TwoParts::Let => Term::Let(first, second),
            TwoParts::Pair => Term::Pair(first, second),
            TwoParts::Prim(primitive) => Term::Prim(primitive, first, second),
        }
    }
}

fn is(word: &[u8], other: &[u8]) -> bool
    ensures { result ≡ bytes_eq word.now other.now }
{
    word == other
}

/// The version whose texts begin with the word.
pub fn version_of(word: &[u8]) -> Option<Version>
    ensures { result ≡ version_of word.now }
{
    if is(word, b"emit1") {
        Some(Version::One)
    } else if is(word, b"emit2") {
        Some(Version::Two)
    } else {
        None
    }
}

/// The types that begin with the word.
pub fn type_form_of(word: &[u8]) -> Option<TypeForm>
    ensures { result ≡ type_form_of word.now }
{
    if is(word, b"int") {
        Some(TypeForm::Base(Base::Int))
    } else if is(word, b"bool") {
        Some(TypeForm::Base(Base::Bool))
    } else if is(word, b"pair") {
        Some(TypeForm::Pair)
    } else if is(word, b"to") {
        Some(TypeForm::To)
    } else {
        None
    }
}

/// The code that begins with the word.
pub fn form_of(word: &[u8]) -> Option<Form>
    ensures { result ≡ form_of word.now }
{
    if is(word, b"i") {
        Some(Form::Int)
    } else if is(word, b"true") {
        Some(Form::Bool(true))
    } else if is(word, b"false") {
        Some(Form::Bool(false))
    } else if is(word, b"v") {
        Some(Form::Var)
    } else if is(word, b"fun") {
        Some(Form::WithOne(OnePart::Fun))
    } else if is(word, b"rec") {
        Some(Form::WithOne(OnePart::Rec))
    } else if is(word, b"app") {
        Some(Form::WithTwo(TwoParts::App))
    } else if is(word, b"let") {
        Some(Form::WithTwo(TwoParts::Let))
    } else if is(word, b"if") {
        Some(Form::If)
    } else if is(word, b"pair") {
        Some(Form::WithTwo(TwoParts::Pair))
    } else if is(word, b"fst") {
        Some(Form::WithOne(OnePart::Fst))
    } else if is(word, b"snd") {
        Some(Form::WithOne(OnePart::Snd))
    } else {
        primitive_of(word)
    }
}

fn primitive_of(word: &[u8]) -> Option<Form>
    ensures { result ≡ lookup (bytes_eq word.now) primitive_words }
{
    if is(word, b"add") {
        Some(Form::WithTwo(TwoParts::Prim(Primitive::Add)))
    } else if is(word, b"sub") {
        Some(Form::WithTwo(TwoParts::Prim(Primitive::Sub)))
    } else if is(word, b"mul") {
        Some(Form::WithTwo(TwoParts::Prim(Primitive::Mul)))
    } else if is(word, b"div") {
        Some(Form::WithTwo(TwoParts::Prim(Primitive::Div)))
    } else if is(word, b"mod") {
        Some(Form::WithTwo(TwoParts::Prim(Primitive::Mod)))
    } else if is(word, b"eq") {
        Some(Form::WithTwo(TwoParts::Prim(Primitive::Eq)))
    } else if is(word, b"lt") {
        Some(Form::WithTwo(TwoParts::Prim(Primitive::Lt)))
    } else if is(word, b"le") {
        Some(Form::WithTwo(TwoParts::Prim(Primitive::Le)))
    } else {
        None
    }
}
