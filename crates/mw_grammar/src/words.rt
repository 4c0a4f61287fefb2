// What the symbol of a token decides.

ghost use Rattle.std.specs.Prelude.{◌≡◌, IfSome, IfNone};
ghost use Rattle.mw_lex.specs.Tokens.{token_of, tokens_of, symbol_of, word, number};
ghost use Rattle.mw_grammar.specs.Grammar.{Mark as PureMark};
ghost use Rattle.mw_grammar.specs.Forms.{refuses, rec_by, rec_item, kernel_by, parameter_by, minus_by};
ghost use Rattle.mw_grammar.specs.Steps.{PickNone, PickBy, SkipTo, GoUnder, AreTooDeep};
ghost use Rattle.mw_grammar.specs.declared.words.Mark.TheVariants.{Arrow, Equal};
ghost use Rattle.mw_grammar.specs.Words.{IsFirst, IsNamed, IsAtom, IsHead, IsInside, IsClose, IsBody, IsStart, IsItem};

use mw_lex::{Kind, Token};
use mw_term::Name;

/// The token in hand, and those after it.
#[tactic(auto, using(crate::proofs::Below::low_in, crate::proofs::Below::low_out), unfolding(crate::specs::Descent::reading))]
pub fn in_hand(tokens: &[Token]) -> Option<(&Token, &[Token])>
    ensures none { IfNone result (PickNone (tokens_of tokens.now)) }
    ensures picks { IfSome result (λ r. PickBy (token_of r.0.now) (tokens_of tokens.now)) }
    ensures skips { IfSome result (λ r. SkipTo (tokens_of tokens.now) (tokens_of r.1.now)) }
    ensures node { IfSome result (λ r. GoUnder (tokens_of tokens.now) (tokens_of r.1.now)) }
    ensures too_deep { IfSome result (λ r. AreTooDeep (tokens_of tokens.now)) }
{
    match tokens {
        [] => None,
        [token, rest @ ..] => Some((token, rest)),
    }
}

/// Of an expression.
#[derive(Clone, Copy)]
pub enum First {
    Let,
    Fun,
    If,
    Other,
}

/// How an expression that begins with this token goes on.
pub fn first_word(token: &Token) -> First
    ensures { IsFirst (token_of token.now) result }
{
    match &token.kind {
        Kind::Let => First::Let,
        Kind::Fun => First::Fun,
        Kind::If => First::If,
        _ => First::Other,
    }
}

/// After `let`.
#[derive(Clone, Copy)]
pub enum Named<'a> {
    Word(&'a Name),
    Rec,
    Other,
}

/// What follows a `let`, or stands where a parameter may: a name, `rec` or neither.
pub fn name_or_rec(token: &Token) -> Named<'_>
    ensures { IsNamed (token_of token.now) result }
{
    match &token.kind {
        Kind::Word(name) => Named::Word(name),
        Kind::Rec => Named::Rec,
        _ => Named::Other,
    }
}

/// A name.
pub fn name_of(token: &Token) -> Option<&Name>
    ensures some { IfSome result (λ name. symbol_of token.now.kind ≡ word name.now) }
    ensures none_rec { IfNone result (rec_by (token_of token.now) ≡ refuses) }
    ensures none_rec_item { IfNone result (rec_item (token_of token.now) ≡ refuses) }
    ensures none_kernel { IfNone result (kernel_by (token_of token.now) ≡ refuses) }
    ensures none_parameter { IfNone result
        ((m : PureMark) → parameter_by m (token_of token.now) ≡ refuses) }
{
    match &token.kind {
        Kind::Word(name) => Some(name),
        _ => None,
    }
}

/// An atom of one token.
#[derive(Clone, Copy)]
pub enum Leaf<'a> {
    Word(&'a Name),
    Number(u64),
    True,
    False,
}

/// Of an atom.
#[derive(Clone, Copy)]
pub enum Atom<'a> {
    Leaf(Leaf<'a>),
    Paren,
    Bracket,
    Escape,
}

/// The atom that begins with this token, if one does.
pub fn atom_word(token: &Token) -> Option<Atom<'_>>
    ensures { IsAtom (token_of token.now) result }
{
    match &token.kind {
        Kind::Word(name) => Some(Atom::Leaf(Leaf::Word(name))),
        Kind::Number(n) => Some(Atom::Leaf(Leaf::Number(*n))),
        Kind::True => Some(Atom::Leaf(Leaf::True)),
        Kind::False => Some(Atom::Leaf(Leaf::False)),
        Kind::ParenLeft => Some(Atom::Paren),
        Kind::BracketLeft => Some(Atom::Bracket),
        Kind::Escape => Some(Atom::Escape),
        _ => None,
    }
}

/// A word before an atom.
#[derive(Clone, Copy)]
pub enum Prefix {
    Fst,
    Snd,
    Not,
    Close,
    Open,
    Lift,
    LiftB,
}

/// Of a head.
#[derive(Clone, Copy)]
pub enum Head {
    Prefix(Prefix),
    Run,
}

/// The prefix or atom that begins with this token, if one does.
pub fn head_word(token: &Token) -> Option<Head>
    ensures { IsHead (token_of token.now) result }
{
    match &token.kind {
        Kind::Fst => Some(Head::Prefix(Prefix::Fst)),
        Kind::Snd => Some(Head::Prefix(Prefix::Snd)),
        Kind::Not => Some(Head::Prefix(Prefix::Not)),
        Kind::Close => Some(Head::Prefix(Prefix::Close)),
        Kind::Open => Some(Head::Prefix(Prefix::Open)),
        Kind::Lift => Some(Head::Prefix(Prefix::Lift)),
        Kind::LiftB => Some(Head::Prefix(Prefix::LiftB)),
        Kind::Run => Some(Head::Run),
        _ => None,
    }
}

/// After a parenthesis.
#[derive(Clone, Copy)]
pub enum Inside {
    Minus,
    Other,
}

/// What stands behind a left parenthesis: a minus sign, or something else.
pub fn inside_word(token: &Token) -> Inside
    ensures { IsInside (token_of token.now) result }
{
    match &token.kind {
        Kind::Minus => Inside::Minus,
        _ => Inside::Other,
    }
}

/// A number.
pub fn number_of(token: &Token) -> Option<u64>
    ensures some { IfSome result (λ n. symbol_of token.now.kind ≡ number n) }
    ensures none { IfNone result (minus_by (token_of token.now) ≡ refuses) }
{
    match &token.kind {
        Kind::Number(n) => Some(*n),
        _ => None,
    }
}

/// After the first expression in parentheses.
#[derive(Clone, Copy)]
pub enum Close {
    Paren,
    Comma,
    Other,
}

/// What ends an expression in parentheses, or a pair's first part.
pub fn closing(token: &Token) -> Close
    ensures { IsClose (token_of token.now) result }
{
    match &token.kind {
        Kind::ParenRight => Close::Paren,
        Kind::Comma => Close::Comma,
        _ => Close::Other,
    }
}

/// What ends a list of parameters.
#[derive(Clone, Copy)]
pub enum Mark {
    Arrow,
    Equal,
}

/// Of what parameters stand before.
#[derive(Clone, Copy)]
pub enum Body {
    Parameter,
    Mark,
    Other,
}

fn arrow_body(token: &Token) -> Body
    ensures { IsBody Arrow (token_of token.now) result }
{
    match &token.kind {
        Kind::Word(_) => Body::Parameter,
        Kind::Arrow => Body::Mark,
        _ => Body::Other,
    }
}

fn equal_body(token: &Token) -> Body
    ensures { IsBody Equal (token_of token.now) result }
{
    match &token.kind {
        Kind::Word(_) => Body::Parameter,
        Kind::Equal => Body::Mark,
        _ => Body::Other,
    }
}

/// What stands where a mark or one more parameter is to come before a body.
pub fn body_word(mark: Mark, token: &Token) -> Body
    ensures { IsBody mark (token_of token.now) result }
{
    match mark {
        Mark::Arrow => arrow_body(token),
        Mark::Equal => equal_body(token),
    }
}

/// Of a program.
#[derive(Clone, Copy)]
pub enum Start {
    Main,
    Item,
    Other,
}

/// Whether an item or main begins with this token.
pub fn start_word(token: &Token) -> Start
    ensures { IsStart (token_of token.now) result }
{
    match &token.kind {
        Kind::Main => Start::Main,
        Kind::Let => Start::Item,
        Kind::Kernel => Start::Item,
        _ => Start::Other,
    }
}

/// Of an item.
#[derive(Clone, Copy)]
pub enum ItemWord {
    Let,
    Kernel,
    Other,
}

/// Which kind of item begins with this token.
pub fn item_word(token: &Token) -> ItemWord
    ensures { IsItem (token_of token.now) result }
{
    match &token.kind {
        Kind::Let => ItemWord::Let,
        Kind::Kernel => ItemWord::Kernel,
        _ => ItemWord::Other,
    }
}
