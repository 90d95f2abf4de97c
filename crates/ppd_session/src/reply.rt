use ppd_ast::{Bytes, Memory};
use ppd_model::At;
use std::fmt;
use thiserror::Error;

/// The answer to a line, and whether the line ends the session.
#[derive(Drop)]
pub struct Reply {
    pub text: Bytes,
    pub quit: bool,
}

/// Why a line has no answer.
#[derive(Clone, Copy, Error)]
pub enum SessionError {
    /// The replay of the interval that holds this entry cannot go on with it.
    #[error("the replay cannot go on with this entry")]
    Diverged(At),
    /// The write set of this entry has a cell that the replays of its internal edge write nowhere.
    #[error("what this entry ends does not write a cell of its write set")]
    Sets(At),
    /// Want of memory.
    #[error("want of memory")]
    Memory,
}

impl From<Memory> for SessionError {
    ghost use Rattle.std.specs.Prelude.{◌≡◌};
    ghost use Rattle.ppd_session.specs.declared.reply.SessionError.TheVariants as session_error;

    ghost from_gives = { λ _ e. e ≡ session_error.Memory };

    fn from(_memory: Memory) -> SessionError {
        SessionError::Memory
    }
}

impl fmt::Debug for SessionError {
    fn fmt<W: fmt::Write>(&self, f: &mut fmt::Formatter<W>) -> fmt::Result {
        fmt::Display::fmt(self, f)
    }
}
