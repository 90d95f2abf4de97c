ghost use Rattle.std.specs.Prelude.{◌≡◌};
ghost use Rattle.ppd_parse.specs.declared.token.LexError.TheVariants.{Memory};

use ppd_ast::{Bytes, Place};
use std::alloc::{AllocError, AllocFailed};
use std::fmt;
use thiserror::Error;

/// What a token is to the grammar: its sort, without a name's bytes or a number's value.
#[derive(Clone, Copy, PartialEq, Drop)]
pub enum Kind {
    Name,
    Number,
    End,
    SharedWord,
    IntWord,
    VoidWord,
    SemWord,
    ChanWord,
    ProcessWord,
    IfWord,
    ElseWord,
    WhileWord,
    ForWord,
    ReturnWord,
    TakeWord,
    GiveWord,
    SendWord,
    RecvWord,
    PrintWord,
    AssertWord,
    OrMark,
    AndMark,
    EqualMark,
    UnequalMark,
    AtMostMark,
    AtLeastMark,
    LessMark,
    MoreMark,
    PlusMark,
    MinusMark,
    StarMark,
    SlashMark,
    PercentMark,
    NotMark,
    AssignMark,
    AddMark,
    SubtractMark,
    IncreaseMark,
    DecreaseMark,
    LeftParen,
    RightParen,
    LeftBrace,
    RightBrace,
    LeftBracket,
    RightBracket,
    Semicolon,
    Comma,
}

/// What a token is.
#[derive(Drop)]
pub enum TokenKind {
    /// A name's bytes.
    Name(Bytes),
    /// A number's value, 0 to 9223372036854775807.
    Number(i64),
    /// A keyword.
    Word(Kind),
    /// An operator or another mark.
    Mark(Kind),
    /// The end of the source.
    End,
}

/// A token: its bytes are those from offset `from` to just before `to`, and it begins at `place`.
#[derive(Drop)]
pub struct Token {
    pub kind: TokenKind,
    pub from: u32,
    pub to: u32,
    pub place: Place,
}

/// Why a source has no tokens: the first lexical fault, with its place.
#[derive(Clone, Copy, Error)]
pub enum LexError {
    /// A byte that starts no token.
    #[error("this byte starts no token")]
    BadByte(Place),
    /// A digit followed at once by letters, digits or `_` that do not make a number.
    #[error("these characters are no number")]
    BadNumber(Place),
    /// `/*` without an end.
    #[error("this comment does not end")]
    OpenComment(Place),
    /// More than 262,144 bytes; before every other fault, at 1:1.
    #[error("the source is too long")]
    TooLong(Place),
    /// A name of more than 64 bytes.
    #[error("this name is too long")]
    LongName(Place),
    /// Want of memory.
    #[error("want of memory")]
    Memory,
}

impl From<AllocError> for LexError {
    ghost from_gives = { λ _ e. e ≡ Memory };

    fn from(_error: AllocError) -> Self {
        LexError::Memory
    }
}

impl<T: Drop> From<AllocFailed<T>> for LexError {
    ghost from_gives = { λ _ e. e ≡ Memory };

    fn from(_error: AllocFailed<T>) -> Self {
        LexError::Memory
    }
}

impl fmt::Debug for LexError {
    fn fmt<W: fmt::Write>(&self, f: &mut fmt::Formatter<W>) -> fmt::Result {
        fmt::Display::fmt(self, f)
    }
}
