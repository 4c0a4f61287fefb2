// Worked rows.

use mw_lex::{Kind, lex};
use std::alloc::{AllocError, Global};
use std::test::Fail;

// Each token with its offsets, or the refusal.
fn shown(alloc: Global, source: &[u8]) -> Result<String, AllocError> {
    let tokens = match lex(alloc, source) {
        Ok(tokens) => tokens,
        Err(stop) => return format!(in alloc; "{stop:?}"),
    };
    let mut text = String::new(alloc);
    for token in tokens.as_slice() {
        let places = format!(in alloc; "{}-{} ", token.start, token.end)?;
        text.push_str(places.as_str())?;
        match &token.kind {
            Kind::Word(name) => {
                for byte in name.as_slice() {
                    text.push(*byte as char)?;
                }
            }
            kind => {
                let kind = format!(in alloc; "{kind:?}")?;
                text.push_str(kind.as_str())?;
            }
        }
        text.push(';')?;
    }
    Ok(text)
}

const ROWS: &[(&[u8], &str)] = &[
    (b"", ""),
    (
        b"main : int = 1 +",
        "0-4 Main;5-6 Colon;7-10 Int;11-12 Equal;13-14 Number(1);15-16 Plus;",
    ),
    (b"main : int = 1 ? 2", "Refused(Char(15))"),
    (b"main : int = 9223372036854775808", "Refused(Number(13))"),
    (
        b".< >. .~ ( ) [ ] , -> ;; : = <= < + - * / && ||",
        "0-2 BracketLeft;3-5 BracketRight;6-8 Escape;9-10 ParenLeft;11-12 ParenRight;13-14 SquareLeft;15-16 SquareRight;17-18 Comma;19-21 Arrow;22-24 ItemEnd;25-26 Colon;27-28 Equal;29-31 LessEqual;32-33 Less;34-35 Plus;36-37 Minus;38-39 Star;40-41 Slash;42-44 And;45-47 Or;",
    ),
    (
        b"let rec in fun if then else true false not fst snd run close open lift liftb kernel main int bool mod",
        "0-3 Let;4-7 Rec;8-10 In;11-14 Fun;15-17 If;18-22 Then;23-27 Else;28-32 True;33-38 False;39-42 Not;43-46 Fst;47-50 Snd;51-54 Run;55-60 Close;61-65 Open;66-70 Lift;71-76 LiftB;77-83 Kernel;84-88 Main;89-92 Int;93-97 Bool;98-101 Mod;",
    ),
    // The longest token.
    (b"<=<", "0-2 LessEqual;2-3 Less;"),
    (b"< =", "0-1 Less;2-3 Equal;"),
    (b"-->", "0-1 Minus;1-3 Arrow;"),
    (b".<=", "0-2 BracketLeft;2-3 Equal;"),
    (b">.<", "0-2 BracketRight;2-3 Less;"),
    (
        b".~.<x>.",
        "0-2 Escape;2-4 BracketLeft;4-5 x;5-7 BracketRight;",
    ),
    (b"\tx\r\n+\n", "1-2 x;4-5 Plus;"),
    // Words.
    (b"lets", "0-4 lets;"),
    (b"le", "0-2 le;"),
    (b"Let", "0-3 Let;"),
    (b"liftbb lif", "0-6 liftbb;7-10 lif;"),
    (b"x1_Z9", "0-5 x1_Z9;"),
    (b"_", "0-1 _;"),
    (
        b"aaaaaaaaaaaaaaaabbbbbbbbbbbbbbbbccccccccccccccccdddddddddddddddd",
        "0-64 aaaaaaaaaaaaaaaabbbbbbbbbbbbbbbbccccccccccccccccdddddddddddddddd;",
    ),
    (
        b"+ aaaaaaaaaaaaaaaabbbbbbbbbbbbbbbbccccccccccccccccdddddddddddddddde",
        "Refused(Name(2))",
    ),
    // Numbers.
    (b"007", "0-3 Number(7);"),
    (b"9223372036854775807", "0-19 Number(9223372036854775807);"),
    (b"9223372036854775808", "Refused(Number(0))"),
    (b"99999999999999999999", "Refused(Number(0))"),
    (
        b"(-9223372036854775808)",
        "0-1 ParenLeft;1-2 Minus;2-21 Number(9223372036854775808);21-22 ParenRight;",
    ),
    (
        b"(-0009223372036854775808",
        "0-1 ParenLeft;1-2 Minus;2-24 Number(9223372036854775808);",
    ),
    (
        b"( # - 1\n -\t9223372036854775808",
        "0-1 ParenLeft;9-10 Minus;11-30 Number(9223372036854775808);",
    ),
    (b"- 9223372036854775808", "Refused(Number(2))"),
    (b"(9223372036854775808", "Refused(Number(1))"),
    (b"(- (9223372036854775808", "Refused(Number(4))"),
    (b"[-9223372036854775808", "Refused(Number(2))"),
    (b"(+9223372036854775808", "Refused(Number(2))"),
    (b"( - 9223372036854775809", "Refused(Number(4))"),
    (b"1x", "Refused(Number(0))"),
    (b"a 12_", "Refused(Number(2))"),
    // Comments.
    (b"1 # no line feed", "0-1 Number(1);"),
    (b"#", ""),
    (b"#\n#x\n2", "5-6 Number(2);"),
    (b"# a\r b\r\n2", "8-9 Number(2);"),
    (b"1 # \x80", "Refused(Char(4))"),
    (b"#\x0c\n", "Refused(Char(1))"),
    (b"x#~\x7f", "Refused(Char(3))"),
    // Bytes that begin no token.
    (b".", "Refused(Char(0))"),
    (b" >", "Refused(Char(1))"),
    (b">=", "Refused(Char(0))"),
    (b"a;", "Refused(Char(1))"),
    (b";;;", "Refused(Char(2))"),
    (b"&", "Refused(Char(0))"),
    (b"&|", "Refused(Char(0))"),
    (b"||| ", "Refused(Char(2))"),
    (b"?", "Refused(Char(0))"),
    (b"!", "Refused(Char(0))"),
    (b"~", "Refused(Char(0))"),
    (b"{", "Refused(Char(0))"),
    (b"\x0c", "Refused(Char(0))"),
    (b"\x7f", "Refused(Char(0))"),
    (b"\x80", "Refused(Char(0))"),
    (b"let\x00", "Refused(Char(3))"),
    // The fault with the smallest offset.
    (b"1x ?", "Refused(Number(0))"),
    (b"# ?\n? 1x", "Refused(Char(4))"),
    (b"x .# \x80", "Refused(Char(2))"),
];

#[test]
fn rows(rt: HostRuntime) -> Result<(), Fail> {
    for &(source, expected) in ROWS {
        let text = shown(rt.alloc(), source)?;
        assert_eq!(rt; text.as_str(), expected);
    }
    Ok(())
}

#[test]
fn largest(rt: HostRuntime) -> Result<(), Fail> {
    let mut source = Vec::new(rt.alloc());
    for _ in 0..1_048_576 {
        source.push(b' ')?;
    }
    let text = shown(rt.alloc(), source.as_slice())?;
    assert_eq!(rt; text.as_str(), "");
    source.push(b'?')?;
    let text = shown(rt.alloc(), source.as_slice())?;
    assert_eq!(rt; text.as_str(), "Refused(TooLarge)");
    Ok(())
}
