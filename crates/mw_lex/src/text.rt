// Texts to kinds.

ghost use Rattle.std.specs.Prelude.{◌≡◌, [], ◌∷◌};
ghost use Rattle.std.specs.Map.{lookup};
ghost use Rattle.std.specs.Str.{bytes_eq};
ghost use Rattle.mw_lex.specs.Texts.{reserved, mark, reserved_words};
ghost use Rattle.mw_lex.specs.Pieces.{kind_seen, of_length};

use crate::token::Kind;

// The first bytes are compared apart, with no call: most words differ there.
fn is(text: &[u8], other: &[u8]) -> bool
    ensures { result ≡ bytes_eq text.now other.now }
{
    match (text, other) {
        ([first, ..], [second, ..]) => *first == *second && text == other,
        _ => text.len() == other.len(),
    }
}

/// The reserved word that the text is, looked for among those of its length.
#[tactic(auto, using(crate::proofs::Lengths::of_this_length, crate::proofs::Lengths::no_such_length))]
pub fn reserved(text: &[u8]) -> Option<Kind>
    ensures { kind_seen result ≡ reserved text.now }
{
    match text.len() {
        2 => word_of_two(text),
        3 => word_of_three(text),
        4 => word_of_four(text),
        5 => word_of_five(text),
        6 => word_of_six(text),
        _ => None,
    }
}

fn word_of_two(text: &[u8]) -> Option<Kind>
    ensures { kind_seen result ≡ lookup (bytes_eq text.now) (of_length 2 reserved_words) }
{
    if is(text, b"in") {
        Some(Kind::In)
    } else if is(text, b"if") {
        Some(Kind::If)
    } else {
        None
    }
}

fn word_of_three(text: &[u8]) -> Option<Kind>
    ensures { kind_seen result ≡ lookup (bytes_eq text.now) (of_length 3 reserved_words) }
{
    if is(text, b"let") {
        Some(Kind::Let)
    } else if is(text, b"rec") {
        Some(Kind::Rec)
    } else if is(text, b"fun") {
        Some(Kind::Fun)
    } else if is(text, b"not") {
        Some(Kind::Not)
    } else if is(text, b"fst") {
        Some(Kind::Fst)
    } else if is(text, b"snd") {
        Some(Kind::Snd)
    } else if is(text, b"run") {
        Some(Kind::Run)
    } else if is(text, b"int") {
        Some(Kind::Int)
    } else if is(text, b"mod") {
        Some(Kind::Mod)
    } else {
        None
    }
}

fn word_of_four(text: &[u8]) -> Option<Kind>
    ensures { kind_seen result ≡ lookup (bytes_eq text.now) (of_length 4 reserved_words) }
{
    if is(text, b"then") {
        Some(Kind::Then)
    } else if is(text, b"else") {
        Some(Kind::Else)
    } else if is(text, b"true") {
        Some(Kind::True)
    } else if is(text, b"open") {
        Some(Kind::Open)
    } else if is(text, b"lift") {
        Some(Kind::Lift)
    } else if is(text, b"main") {
        Some(Kind::Main)
    } else if is(text, b"bool") {
        Some(Kind::Bool)
    } else {
        None
    }
}

fn word_of_five(text: &[u8]) -> Option<Kind>
    ensures { kind_seen result ≡ lookup (bytes_eq text.now) (of_length 5 reserved_words) }
{
    if is(text, b"false") {
        Some(Kind::False)
    } else if is(text, b"close") {
        Some(Kind::Close)
    } else if is(text, b"liftb") {
        Some(Kind::LiftB)
    } else {
        None
    }
}

fn word_of_six(text: &[u8]) -> Option<Kind>
    ensures { kind_seen result ≡ lookup (bytes_eq text.now) (of_length 6 reserved_words) }
{
    if is(text, b"kernel") {
        Some(Kind::Kernel)
    } else {
        None
    }
}

/// The mark of one byte.
pub fn mark_of_one(byte: u8) -> Option<Kind>
    ensures { kind_seen result ≡ mark (byte ∷ []) }
{
    match byte {
        b'(' => Some(Kind::ParenLeft),
        b')' => Some(Kind::ParenRight),
        b'[' => Some(Kind::SquareLeft),
        b']' => Some(Kind::SquareRight),
        b',' => Some(Kind::Comma),
        b':' => Some(Kind::Colon),
        b'=' => Some(Kind::Equal),
        b'<' => Some(Kind::Less),
        b'+' => Some(Kind::Plus),
        b'-' => Some(Kind::Minus),
        b'*' => Some(Kind::Star),
        b'/' => Some(Kind::Slash),
        _ => None,
    }
}

/// The mark of two bytes.
pub fn mark_of_two(first: u8, second: u8) -> Option<Kind>
    ensures { kind_seen result ≡ mark (first ∷ second ∷ []) }
{
    match (first, second) {
        (b'.', b'<') => Some(Kind::BracketLeft),
        (b'>', b'.') => Some(Kind::BracketRight),
        (b'.', b'~') => Some(Kind::Escape),
        (b'-', b'>') => Some(Kind::Arrow),
        (b';', b';') => Some(Kind::ItemEnd),
        (b'<', b'=') => Some(Kind::LessEqual),
        (b'&', b'&') => Some(Kind::And),
        (b'|', b'|') => Some(Kind::Or),
        _ => None,
    }
}
