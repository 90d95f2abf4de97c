ghost use Rattle.std.specs.Prelude.{◌≡◌};
ghost use Rattle.ppd_parse.specs.declared.error.SyntaxError.TheVariants.{Memory};

use ppd_ast::Place;
use std::alloc::AllocError;
use std::fmt;
use thiserror::Error;

/// Why tokens are no program within the limits: the first token that breaks the grammar or a limit.
#[derive(Clone, Copy, Drop, Error)]
pub enum SyntaxError {
    /// No program begins with the tokens through this one.
    #[error("no program goes on with this token")]
    Unexpected(Place),
    /// The token makes 65 constructs open.
    #[error("too many constructs are open here")]
    Deep(Place),
    /// The token is the 257th operator of one expression that is no part of another.
    #[error("this expression has too many operators")]
    Wide(Place),
    /// Want of memory.
    #[error("want of memory")]
    Memory,
}

impl From<AllocError> for SyntaxError {
    ghost from_gives = { λ _ e. e ≡ Memory };

    fn from(_error: AllocError) -> Self {
        SyntaxError::Memory
    }
}

impl fmt::Debug for SyntaxError {
    fn fmt<W: fmt::Write>(&self, f: &mut fmt::Formatter<W>) -> fmt::Result {
        fmt::Display::fmt(self, f)
    }
}
