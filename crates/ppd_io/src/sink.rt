ghost use Rattle.std.specs.Prelude.{ℕ, List, ◌<◌, ◌≤◌, length, IfOk};
ghost use Rattle.std.specs.declared.option.Option.{Option};
ghost use Rattle.ppd_io.specs.Causes.{HasCause};
ghost use Rattle.ppd_io.specs.Content.{Writes};

use std::fmt;
use thiserror::Error;

/// A read or a write failed.
#[derive(Clone, Copy, Error)]
#[error("a read or a write failed")]
pub struct Failed;

/// Where bytes are written.
pub trait Sink {
    /// The bytes written so far, where they are told.
    ghost written: { Self → Option (List ℕ) };

    /// How often a write failed.
    ghost faults: { Self → ℕ };

    /// Writes the first bytes of the piece, at least one where there is one, and answers how many.
    /// `Failed` comes only where the count of faults rose, and takes none.
    fn write(&mut self, piece: &[u8]) -> Result<usize, Failed>
        ensures bound { IfOk result (λ n. n ≤ length piece.now) }
        ensures some { IfOk result (λ n. 0 < length piece.now → 0 < n) }
        ensures bytes { Writes (written self.old) (written self.new) result piece.now }
        ensures cause { HasCause (faults self.old) (faults self.new) result };
}

impl fmt::Debug for Failed {
    fn fmt<W: fmt::Write>(&self, f: &mut fmt::Formatter<W>) -> fmt::Result {
        fmt::Display::fmt(self, f)
    }
}
