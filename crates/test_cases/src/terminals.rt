// A terminal, at which a line is typed only where all is shown that it waits for.

use std::alloc::Global;
use std::io;
use std::io::{Read, Write};
use std::sync::atomic::{AtomicU64, Ordering};

/// What is typed, a byte in each read, with how many bytes must be shown before each line and, last, before the end. A
/// read before that fails, and so does one after all of it.
#[derive(Drop)]
pub(crate) struct Keys<'a> {
    bytes: &'a [u8],
    waits: &'a [u32],
    shown: &'a AtomicU64,
    at: usize,
    line: usize,
}

impl<'a> Keys<'a> {
    pub(crate) fn new(bytes: &'a [u8], waits: &'a [u32], shown: &'a AtomicU64) -> Keys<'a> {
        Keys {
            bytes,
            waits,
            shown,
            at: 0,
            line: 0,
        }
    }

    /// Whether each line is typed, and the end was met if it is waited for.
    pub(crate) fn are_typed(&self) -> bool {
        self.line == self.waits.len()
    }
}

impl Read for Keys<'_> {
    fn read(&mut self, buf: &mut [u8]) -> io::Result<usize> {
        match self.waits.get(self.line) {
            Some(least) if self.shown.load(Ordering::SeqCst) >= u64::from(*least) => {}
            _ => return Err(io::Error::from(io::ErrorKind::BrokenPipe)),
        }
        let typed = self.bytes.get(self.at).copied();
        if typed.is_none() || typed == Some(b'\n') {
            self.line = self.line.saturating_add(1);
        }
        match (typed, buf) {
            (Some(byte), [first, ..]) => {
                *first = byte;
                self.at = self.at.saturating_add(1);
                Ok(1)
            }
            _ => Ok(0),
        }
    }
}

/// What is shown, and how many bytes these are.
#[derive(Drop)]
pub(crate) struct Screen<'a> {
    pub(crate) bytes: Vec<u8>,
    shown: &'a AtomicU64,
}

impl<'a> Screen<'a> {
    pub(crate) fn new(alloc: Global, shown: &'a AtomicU64) -> Screen<'a> {
        Screen {
            bytes: Vec::new(alloc),
            shown,
        }
    }
}

impl Write for Screen<'_> {
    fn write(&mut self, buf: &[u8]) -> io::Result<usize> {
        self.bytes.extend_from_slice(buf)?;
        self.shown.fetch_add(buf.len() as u64, Ordering::SeqCst);
        Ok(buf.len())
    }

    fn flush(&mut self) -> io::Result<()> {
        Ok(())
    }
}
