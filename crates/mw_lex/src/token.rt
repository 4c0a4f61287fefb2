// Tokens.

use mw_list::Sequence;
use mw_term::Name;

/// What a token is: a reserved word, a symbol, a name or a number.
#[derive(Debug, Drop)]
pub enum Kind {
    Let,
    Rec,
    In,
    Fun,
    If,
    Then,
    Else,
    True,
    False,
    Not,
    Fst,
    Snd,
    Run,
    Close,
    Open,
    Lift,
    /// `liftb`.
    LiftB,
    Kernel,
    Main,
    Int,
    Bool,
    Mod,
    /// `.<`.
    BracketLeft,
    /// `>.`.
    BracketRight,
    /// `.~`.
    Escape,
    /// `(`.
    ParenLeft,
    /// `)`.
    ParenRight,
    /// `[`.
    SquareLeft,
    /// `]`.
    SquareRight,
    Comma,
    /// `->`.
    Arrow,
    /// `;;`.
    ItemEnd,
    Colon,
    /// `=`.
    Equal,
    /// `<=`.
    LessEqual,
    /// `<`.
    Less,
    Plus,
    Minus,
    Star,
    Slash,
    /// `&&`.
    And,
    /// `||`.
    Or,
    /// A name, of at most 64 bytes.
    Word(Name),
    /// A number, of at most 9223372036854775808.
    Number(u64),
}

/// A token, with the offsets of its first byte and of the byte after its last one.
#[derive(Debug, Drop)]
pub struct Token {
    pub kind: Kind,
    pub start: u32,
    pub end: u32,
}

/// Tokens in order, which contracts see as a list.
pub type Tokens = Sequence<Token>;
