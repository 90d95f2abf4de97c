ghost use Rattle.std.specs.Prelude.{◌≡◌, ◌⊎◌, [], true, false, length, IfOk, IsErrOf, vec_capacity, ◌≤◌, ◌<◌};
ghost use Rattle.ppd_ast.specs.declared.limits.TheConstants.{MOST_LINE_BYTES};
ghost use Rattle.ppd_io.specs.Causes.{Rose};
ghost use Rattle.ppd_io.specs.declared.bytes.TheConstants.{CHUNK_BYTES};
ghost use Rattle.ppd_io.specs.Lines.{Fills, GivesLine, HasNewline, IsAtNeed, StaysOver, TellsLine};

use crate::bytes::ByteReader;
use crate::source::Source;
use ppd_ast::Memory;
use ppd_ast::limits::MOST_LINE_BYTES;
use std::alloc::Global;
use std::fmt;
use std::marker::Model;
use thiserror::Error;

/// Why there is no next line.
#[derive(Clone, Copy, Error)]
pub enum LineError {
    /// A read failed.
    #[error("a read failed")]
    Failed,
    /// The next line has more than 4,096 bytes.
    #[error("the line is too long")]
    LongLine,
}

/// Gives the lines of a source, and reads only where it holds no whole line and has not met the end.
#[derive(Drop)]
pub struct LineReader {
    line: Vec<u8>,
    bytes: ByteReader,
    ended: bool,
}

impl Model for LineReader {
    ghost use Rattle.std.specs.Prelude.{◌<◌, length, vec_capacity};
    ghost use Rattle.ppd_ast.specs.declared.limits.TheConstants.{MOST_LINE_BYTES};
    ghost use Rattle.ppd_io.specs.declared.bytes.TheConstants.{CHUNK_BYTES};
    ghost use Rattle.ppd_io.specs.Lines.{Lined};

    ghost Value = { Lined };

    ghost view = { λ s. record { line = s.line.items; held = s.bytes; ended = s.ended } };

    ghost invariant = { λ s. (MOST_LINE_BYTES < vec_capacity s.line) × (length s.bytes < CHUNK_BYTES) };
}

/// Puts the bytes up to the next newline into an empty line, and answers whether the end was met in its place.
fn fill_line<I: Source>(
    line: &mut Vec<u8>,
    bytes: &mut ByteReader,
    source: &mut I,
) -> Result<bool, LineError>
    requires empty { line.old.items ≡ [] }
    requires room { MOST_LINE_BYTES < vec_capacity line.old }
    requires few { length bytes.old < CHUNK_BYTES }
    ensures filled { Fills (I.left source.old) (I.left source.new) bytes.old line.new.items bytes.new result }
    ensures cause { IsErrOf result LineError.Failed → Rose (I.faults source.old) (I.faults source.new) }
    ensures later { I.faults source.old ≤ I.faults source.new }
    ensures quiet { HasNewline bytes.old → source.new ≡ source.old }
    ensures need { (source.new ≡ source.old) ⊎ IsAtNeed (I.left source.old) (I.before_last source.new) bytes.old }
    ensures room { MOST_LINE_BYTES < vec_capacity line.new }
    ensures few { length bytes.new < CHUNK_BYTES }
{
    while line.len() <= MOST_LINE_BYTES {
        match bytes.next(source) {
            Err(_) => return Err(LineError::Failed),
            Ok(None) => return Ok(true),
            Ok(Some(b'\n')) => return Ok(false),
            Ok(Some(byte)) => {
                if line.push(byte).is_err() {
                    unreachable!()
                }
            }
        }
    }
    Err(LineError::LongLine)
}

impl LineReader {
    /// Reserves room for a line. `Memory` is want of memory.
    pub fn new(alloc: Global) -> Result<LineReader, Memory>
        ensures { IfOk result (λ r. r ≡ record { line = []; held = []; ended = false }) }
    {
        let line = Vec::with_capacity(alloc, MOST_LINE_BYTES + 1)?;
        let bytes = ByteReader::new(alloc)?;
        Ok(LineReader {
            line,
            bytes,
            ended: false,
        })
    }

    /// Goes to the next line, and answers whether there is one.
    fn advance<I: Source>(&mut self, source: &mut I) -> Result<bool, LineError>
        ensures given { self.old.ended ≡ false
            → GivesLine (I.left source.old) (I.left source.new) self.old.held self.new result }
        ensures over { self.old.ended ≡ true
            → (result ≡ Ok false) × (source.new ≡ source.old) × StaysOver self.old self.new }
        ensures failed { IsErrOf result LineError.Failed → Rose (I.faults source.old) (I.faults source.new) }
        ensures later { I.faults source.old ≤ I.faults source.new }
        ensures quiet { HasNewline self.old.held → source.new ≡ source.old }
        ensures need { (source.new ≡ source.old)
            ⊎ IsAtNeed (I.left source.old) (I.before_last source.new) self.old.held }
        ensures few { length self.new.held < CHUNK_BYTES }
    {
        self.line.clear();
        if self.ended {
            return Ok(false);
        }
        self.ended = fill_line(&mut self.line, &mut self.bytes, source)?;
        Ok(!self.ended || !self.line.is_empty())
    }

    /// Goes to the next line, which `line` then gives without its newline, and answers whether there is
    /// one. A last line without a newline is one where it is not empty. Once the end was met, nothing is read.
    ///
    /// `Failed` comes only where a read failed and the source's count of faults rose; `LongLine` exactly
    /// where the next line has more than 4,096 bytes. Of the bytes after the line fewer than `CHUNK_BYTES`
    /// are read, and nothing is read where a whole line is held (more than a line's length never is): where
    /// something is read, what is held and what was read before the last read have no newline.
    /// After an error the lines that follow mean nothing.
    pub fn next<I: Source>(&mut self, source: &mut I) -> Result<bool, LineError>
        ensures given { self.old.ended ≡ false
            → GivesLine (I.left source.old) (I.left source.new) self.old.held self.new result }
        ensures told { self.old.ended ≡ false
            → TellsLine (I.left source.old) (I.left source.new) self.old.held self.new result }
        ensures over { self.old.ended ≡ true
            → (result ≡ Ok false) × (source.new ≡ source.old) × StaysOver self.old self.new }
        ensures failed { IsErrOf result LineError.Failed → Rose (I.faults source.old) (I.faults source.new) }
        ensures later { I.faults source.old ≤ I.faults source.new }
        ensures quiet { HasNewline self.old.held → source.new ≡ source.old }
        ensures need { (source.new ≡ source.old)
            ⊎ IsAtNeed (I.left source.old) (I.before_last source.new) self.old.held }
        ensures few { length self.new.held < CHUNK_BYTES }
    {
        self.advance(source)
    }

    /// The line that `next` gave last.
    pub fn line(&self) -> &[u8]
        ensures { result.now ≡ self.now.line }
    {
        &self.line
    }
}

impl fmt::Debug for LineError {
    fn fmt<W: fmt::Write>(&self, f: &mut fmt::Formatter<W>) -> fmt::Result {
        fmt::Display::fmt(self, f)
    }
}
