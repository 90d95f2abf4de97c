use ppd_ast::Memory;
use std::fmt;
use thiserror::Error;

/// Why there is no text.
#[derive(Clone, Copy, Error)]
pub enum WholeError {
    /// The replay of an interval of this process fails, at this entry.
    #[error("the replay cannot go on with this entry")]
    Diverged { process: u8, entry: u32 },
    /// Want of memory.
    #[error("want of memory")]
    Memory,
}

impl From<Memory> for WholeError {
    ghost use Rattle.std.specs.Prelude.{◌≡◌};
    ghost use Rattle.ppd_whole_origins.specs.declared.whole_error.WholeError.TheVariants as error;

    ghost from_gives = { λ _ e. e ≡ error.Memory };

    fn from(_memory: Memory) -> WholeError {
        WholeError::Memory
    }
}

impl fmt::Debug for WholeError {
    fn fmt<W: fmt::Write>(&self, f: &mut fmt::Formatter<W>) -> fmt::Result {
        fmt::Display::fmt(self, f)
    }
}
