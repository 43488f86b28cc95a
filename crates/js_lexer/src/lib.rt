//! The tokens of a script.
#![tactic(auto)]

use turk_base::{Units, Whole};

mod chars;
mod comments;
mod marks;
mod numbers;
mod pieces;
mod script;
mod texts;
mod words;

pub use script::tokens;
pub use words::call_units;

/// Punctuators.
#[derive(Clone, Copy, Debug, Drop, PartialEq, Eq)]
pub enum Mark {
    OpenBrace,
    CloseBrace,
    OpenParen,
    CloseParen,
    OpenBracket,
    CloseBracket,
    Dot,
    Semicolon,
    Comma,
    Question,
    Colon,
    Less,
    Greater,
    LessEqual,
    GreaterEqual,
    Equal,
    NotEqual,
    Same,
    NotSame,
    Plus,
    Minus,
    Star,
    Slash,
    Percent,
    PlusPlus,
    MinusMinus,
    ShiftLeft,
    ShiftRight,
    ShiftRightZero,
    BitAnd,
    BitOr,
    BitXor,
    Not,
    BitNot,
    And,
    Or,
    Assign,
    AssignPlus,
    AssignMinus,
    AssignStar,
    AssignSlash,
    AssignPercent,
    AssignShiftLeft,
    AssignShiftRight,
    AssignShiftRightZero,
    AssignAnd,
    AssignOr,
    AssignXor,
}

/// Keywords and literal words; the words reserved for the future are one, since no script has them.
#[derive(Clone, Copy, Debug, Drop, PartialEq, Eq)]
pub enum Reserved {
    Break,
    Case,
    Catch,
    Continue,
    Default,
    Delete,
    Do,
    Else,
    Finally,
    For,
    Function,
    If,
    In,
    Instanceof,
    New,
    Return,
    Switch,
    This,
    Throw,
    Try,
    Typeof,
    Var,
    Void,
    While,
    With,
    Null,
    True,
    False,
    Future,
}

/// The words of script calls.
#[derive(Clone, Copy, Debug, Drop, PartialEq, Eq)]
pub enum CallWord {
    Once,
    Fork,
    Join,
    Crash,
    Print,
    Post,
    Reply,
    Prompt,
    Random,
}

/// What a token is. A name carries its units, and a number or a text its value.
#[derive(Drop)]
pub enum Kind {
    Word(Units),
    Reserved(Reserved),
    Call(CallWord),
    Number(Whole),
    Text(Units),
    Mark(Mark),
    End,
}

/// A token, the bytes from `start` to before `end` that it is, and whether a line terminator stands
/// between it and the token before it.
#[derive(Drop)]
pub struct Token {
    pub kind: Kind,
    pub start: u32,
    pub end: u32,
    pub after_newline: bool,
}

/// Why a script has no tokens: at a byte no whole character stands, no token begins, or a number is
/// of another form; the script is too large; memory ran out.
#[derive(Clone, Copy, Debug, Drop, PartialEq, Eq)]
pub enum LexStop {
    NotUtf8(u32),
    BadToken(u32),
    NumberForm(u32),
    TooLarge,
    Memory,
}

/// What stands at a place: a character of white space, a line terminator, a comment with whether a
/// line terminator stands in it, or a token.
#[derive(Drop)]
pub enum Piece {
    Blank,
    Line,
    Comment(bool),
    Token(Kind),
}

/// Why no piece stands at a place: it reaches the byte that begins no whole character, it is no
/// token, it is a number of another form; or memory ran out.
#[derive(Clone, Copy, Drop)]
pub enum Refusal {
    Broken,
    Token,
    Number,
    Memory,
}

/// What a backslash and the character after it begin: one unit, a NUL where no digit follows,
/// so many hexadecimal digits, that character, or nothing.
#[derive(Clone, Copy, Drop)]
pub enum Escape {
    Unit(u32),
    Null,
    Digits(usize),
    Itself,
    Wrong,
}

/// What stands at a place of a text: its closing quote, the end of all characters, a fault, or a
/// character or unit, with the place after it.
#[derive(Clone, Copy, Drop)]
pub enum Next {
    Close,
    Open,
    Wrong,
    Part(u32, usize),
}

/// How a text ends: with its units and the place past its closing quote, at the end of all
/// characters, or at a fault.
#[derive(Drop)]
pub enum Quoted {
    Closed(Units, usize),
    Open,
    Wrong,
}

#[cfg(test)]
mod tests {
    use super::*;
    use std::test::Fail;

    const COUNTS: [(&str, usize); 12] = [
        ("", 1),
        ("\u{FEFF}a", 2),
        ("a>>>=b", 4),
        ("a+++b", 5),
        ("/* x */ a // b", 2),
        ("ifx if", 3),
        ("$_a1 \u{3C0}\u{30A}", 3),
        ("0xFf 0 9007199254740992", 4),
        ("'a\\x41\\u0041\\0' \"\"", 3),
        ("a\u{2028}b", 3),
        ("print(\"\\uD800\");", 6),
        ("a/b/*c*/", 4),
    ];

    const FAULTS: [(&[u8], LexStop); 18] = [
        (b"print(1.5);", LexStop::NumberForm(6)),
        (b"\x70\xFF", LexStop::NotUtf8(1)),
        (b"'a", LexStop::BadToken(0)),
        (b"var x = 017;", LexStop::NumberForm(8)),
        (b"0x", LexStop::NumberForm(0)),
        (b"3in", LexStop::NumberForm(0)),
        (b"1e5", LexStop::NumberForm(0)),
        (b"a.5", LexStop::NumberForm(1)),
        (b"1\\u0061", LexStop::BadToken(1)),
        (b"9007199254740993", LexStop::NumberForm(0)),
        (b"a /* b", LexStop::BadToken(2)),
        (b"'a\n'", LexStop::BadToken(0)),
        (b"'\\x4g'", LexStop::BadToken(0)),
        (b"'\\01'", LexStop::BadToken(0)),
        (b"'\\x4\xFF", LexStop::NotUtf8(4)),
        (b"'\n\xFF", LexStop::BadToken(0)),
        (b"/* \xFF", LexStop::NotUtf8(3)),
        (b"a # b", LexStop::BadToken(2)),
    ];

    #[test]
    fn counts(rt: HostRuntime) -> Result<(), Fail> {
        for (text, many) in COUNTS {
            let found = tokens(rt.alloc(), text.as_bytes());
            match found {
                Ok(found) => assert_eq!(rt; found.len(), many, "{text}"),
                Err(stop) => panic!(rt; "{text} {stop:?}"),
            }
        }
        Ok(())
    }

    #[test]
    fn faults(rt: HostRuntime) -> Result<(), Fail> {
        for (bytes, stop) in FAULTS {
            match tokens(rt.alloc(), bytes) {
                Ok(_) => panic!(rt; "{bytes:?} has tokens"),
                Err(found) => assert_eq!(rt; found, stop, "{bytes:?}"),
            }
        }
        Ok(())
    }

    #[test]
    fn first_tokens(rt: HostRuntime) -> Result<(), Fail> {
        let units = match call_units(rt.alloc(), CallWord::Print) {
            Ok(units) => units,
            Err(_) => panic!(rt; "want of memory"),
        };
        assert_eq!(rt; units.as_slice(), [112, 114, 105, 110, 116].as_slice());
        match tokens(rt.alloc(), b"'\\uD800'\n7") {
            Err(stop) => panic!(rt; "{stop:?}"),
            Ok(found) => {
                assert_eq!(rt; found.len(), 3);
                match &found[0].kind {
                    Kind::Text(units) => assert_eq!(rt; units.as_slice(), [0xD800].as_slice()),
                    _ => panic!(rt; "no text"),
                }
                assert_eq!(rt; found[1].start, 9);
                assert_eq!(rt; found[1].end, 10);
                assert!(rt; found[1].after_newline);
                match &found[1].kind {
                    Kind::Number(value) => assert_eq!(rt; value.get(), 7),
                    _ => panic!(rt; "no number"),
                }
            }
        }
        Ok(())
    }
}
