ghost use Rattle.std.specs.Prelude.{◌≡◌, ◌<◌, ◌≤◌, length, IfSome, IsErr};
ghost use Rattle.ppd_io.specs.Causes.{HasCause};

use crate::sink::{Failed, Sink};
use crate::source::Source;
use std::io::{Read, Write};
use std::marker::Model;

/// A reader or a writer of std, of which nothing is told but how often a call failed.
#[derive(Drop)]
pub struct Counted<D> {
    device: D,
    faults: u64,
}

impl<D> Model for Counted<D> {
    ghost use Rattle.std.specs.Prelude.{ℕ};

    ghost Value = { ℕ };

    ghost view = { λ s. s.faults };
}

/// Any reader of std.
pub type StdSource<R> = Counted<R>;

/// Any writer of std, flushed after each write.
pub type StdSink<W> = Counted<W>;

impl<D> Counted<D> {
    /// No call has failed yet.
    pub fn new(device: D) -> Counted<D>
        ensures { result ≡ 0 }
    {
        Counted { device, faults: 0 }
    }

    /// Counts one failed call, and answers it.
    fn fail(&mut self) -> Result<usize, Failed>
        ensures failed { IsErr result }
        ensures cause { HasCause self.old self.new result }
    {
        self.faults = self.faults.saturating_add(1);
        Err(Failed)
    }
}

impl<R: Read> Source for Counted<R> {
    ghost use Rattle.std.specs.Prelude.{None};

    ghost left = { λ s. None };

    ghost before_last = { λ s. None };

    ghost faults = { λ s. s };

    fn read(&mut self, into: &mut [u8]) -> Result<usize, Failed> {
        match self.device.read(into) {
            Ok(count) => Ok(count),
            Err(_) => self.fail(),
        }
    }
}

impl<W: Write> Counted<W> {
    fn attempt(&mut self, piece: &[u8]) -> Option<usize>
        ensures bound { IfSome result (λ n. n ≤ length piece.now) }
        ensures some { IfSome result (λ n. 0 < length piece.now → 0 < n) }
        ensures same { self.new ≡ self.old }
    {
        let count = self.device.write(piece).ok()?;
        self.device.flush().ok()?;
        // A writer that takes nothing would be asked for ever.
        if count == 0 && !piece.is_empty() {
            return None;
        }
        Some(count)
    }
}

impl<W: Write> Sink for Counted<W> {
    ghost use Rattle.std.specs.Prelude.{None};

    ghost written = { λ s. None };

    ghost faults = { λ s. s };

    fn write(&mut self, piece: &[u8]) -> Result<usize, Failed> {
        match self.attempt(piece) {
            Some(count) => Ok(count),
            None => self.fail(),
        }
    }
}
