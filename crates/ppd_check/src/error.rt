ghost use Rattle.std.specs.Prelude.{◌≡◌};
ghost use Rattle.ppd_check.specs.declared.error.CheckError.TheVariants as C;
ghost use Rattle.ppd_check.specs.declared.error.SourceError.TheVariants as S;

use ppd_ast::Place;
use ppd_check_names::Limit;
use ppd_parse::{LexError, SyntaxError};
use std::fmt;
use thiserror::Error;

/// Why a source has no core form: the first rule that it breaks, with its place.
#[derive(Clone, Copy, Drop, Error)]
pub enum CheckError {
    /// The second name: it is declared before in the same scope.
    #[error("this name is declared twice")]
    Twice(Place),
    /// A name that is used and not declared in sight.
    #[error("this name is not declared")]
    Unknown(Place),
    /// A name that is used as what it is not.
    #[error("this name stands for something of another kind")]
    WrongKind(Place),
    /// The name of a function that is called with another count of arguments.
    #[error("this function has another count of parameters")]
    Arity(Place),
    /// A `return` where none may stand, one with or without a value where the other is asked, or the
    /// closing brace of a function that should end with one.
    #[error("a return is missing here or may not stand here")]
    ReturnPlace(Place),
    /// The name of a function without a value whose value is used.
    #[error("this function has no value")]
    VoidValue(Place),
    /// The source's end: it has no process.
    #[error("the source has no process")]
    NoProcess(Place),
    /// The first item past a limit.
    #[error("a limit is passed here")]
    TooMany(Place, Limit),
    /// A length, a capacity or an initial value outside its range.
    #[error("this number is outside its range")]
    BadSize(Place),
    /// Want of memory.
    #[error("want of memory")]
    Memory,
}

/// Why a source has no program: its first lexical fault, else the first token that breaks the grammar or
/// one of its limits, else the first rule that it breaks. Want of memory is the outer `Memory` alone.
#[derive(Clone, Copy, Drop, Error)]
pub enum SourceError {
    /// The first lexical fault.
    #[error(transparent)]
    Lex(LexError),
    /// The first token that breaks the grammar or one of its limits.
    #[error(transparent)]
    Syntax(SyntaxError),
    /// The first broken rule of the language.
    #[error(transparent)]
    Check(CheckError),
    /// Want of memory.
    #[error("want of memory")]
    Memory,
}

impl From<ppd_ast::Memory> for CheckError {
    ghost from_gives = { λ _ e. e ≡ C.Memory };

    fn from(_error: ppd_ast::Memory) -> Self {
        CheckError::Memory
    }
}

impl From<ppd_ast::Memory> for SourceError {
    ghost from_gives = { λ _ e. e ≡ S.Memory };

    fn from(_error: ppd_ast::Memory) -> Self {
        SourceError::Memory
    }
}

impl fmt::Debug for CheckError {
    fn fmt<W: fmt::Write>(&self, f: &mut fmt::Formatter<W>) -> fmt::Result {
        fmt::Display::fmt(self, f)
    }
}

impl fmt::Debug for SourceError {
    fn fmt<W: fmt::Write>(&self, f: &mut fmt::Formatter<W>) -> fmt::Result {
        fmt::Display::fmt(self, f)
    }
}
