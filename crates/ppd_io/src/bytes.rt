ghost use Rattle.std.specs.Prelude.{◌≡◌, ◌≢◌, ◌↔◌, ◌<◌, [], ◌∷◌, length, IfOk, IsTrue, MatchOption, OnErr};
ghost use Rattle.ppd_io.specs.Causes.{HasCause};
ghost use Rattle.ppd_io.specs.declared.bytes.TheConstants.{CHUNK_BYTES};
ghost use Rattle.ppd_io.specs.Lines.{Took, IsAtEnd, IsFilled, IsOfHeld};

use crate::sink::Failed;
use crate::source::Source;
use ppd_ast::Memory;
use std::alloc::Global;
use std::marker::Model;

/// Bytes that are asked of a source at once.
pub const CHUNK_BYTES: usize = 4096;

/// Gives the bytes of a source one by one, and reads only where it holds none.
#[derive(Drop)]
pub(crate) struct ByteReader {
    chunk: Vec<u8>,
    at: usize,
    end: usize,
}

impl Model for ByteReader {
    ghost use Rattle.std.specs.Prelude.{◌≡◌, ◌-◌, ◌≤◌, ℕ, List, take, drop, vec_len};
    ghost use Rattle.ppd_io.specs.declared.bytes.TheConstants.{CHUNK_BYTES};

    ghost Value = { List ℕ };

    ghost view = { λ s. take (s.end - s.at) (drop s.at s.chunk.items) };

    ghost invariant = { λ s. (s.at ≤ s.end) × (s.end ≤ vec_len s.chunk) × (vec_len s.chunk ≡ CHUNK_BYTES) };
}

impl ByteReader {
    /// Holds nothing. `Memory` is want of memory.
    pub(crate) fn new(alloc: Global) -> Result<ByteReader, Memory>
        ensures { IfOk result (λ r. r ≡ []) }
    {
        let chunk = vec![in alloc; 0; CHUNK_BYTES]?;
        Ok(ByteReader {
            chunk,
            at: 0,
            end: 0,
        })
    }

    /// The first of the bytes that are held.
    fn take_held(&mut self) -> u8
        requires { self.old ≢ [] }
        ensures byte { self.old ≡ result ∷ self.new }
        ensures few { length self.new < CHUNK_BYTES }
    {
        let byte = self.chunk[self.at];
        self.at += 1;
        byte
    }

    /// Reads, where nothing is held, and answers whether there was anything to read.
    fn refill<I: Source>(&mut self, source: &mut I) -> Result<bool, Failed>
        requires { self.old ≡ [] }
        ensures ok { IfOk result (λ some.
            Took (I.left source.old) (I.left source.new) [] self.new × IsFilled some (I.left source.new) self.new) }
        ensures err { OnErr result ((self.new ≡ []) × (I.left source.new ≡ I.left source.old)) }
        ensures last { I.before_last source.new ≡ I.left source.old }
        ensures cause { HasCause (I.faults source.old) (I.faults source.new) result }
    {
        self.at = 0;
        self.end = 0;
        self.end = source.read(&mut self.chunk)?;
        Ok(self.end != 0)
    }

    /// Whether nothing is held.
    fn is_empty(&self) -> bool
        ensures { IsTrue result ↔ (self.now ≡ []) }
    {
        self.at == self.end
    }

    /// The next byte; none at the end. `Failed` comes only where the source's count of faults rose. Where bytes
    /// are held, nothing is read.
    pub(crate) fn next<I: Source>(&mut self, source: &mut I) -> Result<Option<u8>, Failed>
        ensures byte { IfOk result (λ b. MatchOption b
            (Took (I.left source.old) (I.left source.new) self.old [] × (self.new ≡ []) × IsAtEnd (I.left source.new))
            (λ byte. Took (I.left source.old) (I.left source.new) self.old (byte ∷ self.new))) }
        ensures err { OnErr result (Took (I.left source.old) (I.left source.new) self.old [] × (self.new ≡ [])) }
        ensures cause { HasCause (I.faults source.old) (I.faults source.new) result }
        ensures last { self.old ≡ [] → I.before_last source.new ≡ I.left source.old }
        ensures quiet { self.old ≢ [] → (source.new ≡ source.old) × IsOfHeld self.old self.new result }
        ensures few { length self.new < CHUNK_BYTES }
    {
        if !self.is_empty() {
            return Ok(Some(self.take_held()));
        }
        if self.refill(source)? {
            return Ok(Some(self.take_held()));
        }
        Ok(None)
    }
}
