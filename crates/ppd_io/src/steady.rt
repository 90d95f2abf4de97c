ghost use Rattle.std.specs.Prelude.{◌≡◌, ℕ, List, [], ◌<◌, ◌≤◌, length, take, drop, true, vec_len, IfOk, OnErr, IsOk, IsErrOf};
ghost use Rattle.ppd_io.specs.Causes.{HasCause};
ghost use Rattle.ppd_io.specs.Content.{Reads};
ghost use Rattle.ppd_io.specs.Feeds.{new_feed, read_size, after_read, after_vain_read};

use crate::sink::Failed;
use crate::source::Source;
use std::marker::Model;

/// Gives its bytes in chunks, and never fails.
#[derive(Drop)]
pub struct SteadySource {
    bytes: Vec<u8>,
    at: usize,
    began: usize,
    chunk: usize,
}

impl Model for SteadySource {
    ghost use Rattle.std.specs.Prelude.{◌<◌, ◌≤◌, drop, vec_len};
    ghost use Rattle.ppd_io.specs.Feeds.{Feed};

    ghost Value = { Feed };

    ghost view = { λ s.
        record { left = drop s.at s.bytes.items; before = drop s.began s.bytes.items; chunk = s.chunk } };

    ghost invariant = { λ s. (s.at ≤ vec_len s.bytes) × (0 < s.chunk) };
}

impl SteadySource {
    /// Gives at most `chunk` bytes in a call, which is at least 1.
    pub fn new(bytes: Vec<u8>, chunk: usize) -> SteadySource
        requires { 0 < chunk }
        ensures { result ≡ new_feed bytes.items chunk }
    {
        SteadySource {
            bytes,
            at: 0,
            began: 0,
            chunk,
        }
    }

    /// Moves the next bytes to the front of `into`, and answers how many.
    pub fn give(&mut self, into: &mut [u8]) -> usize
        ensures count { result ≡ read_size self.old (length into.old) }
        ensures bytes { take result into.new ≡ take result self.old.left }
        ensures rest { drop result into.new ≡ drop result into.old }
        ensures after { self.new ≡ after_read self.old (length into.old) }
        ensures some { result ≡ 0 → 0 < length into.old → self.old.left ≡ [] }
    {
        let count = into.len().min(self.chunk).min(self.bytes.len() - self.at);
        into[..count].copy_from_slice(&self.bytes[self.at..self.at + count]);
        self.began = self.at;
        self.at += count;
        count
    }

    /// Notes a read that gives nothing.
    pub fn give_nothing(&mut self)
        ensures { self.new ≡ after_vain_read self.old }
    {
        self.began = self.at;
    }
}

impl Source for SteadySource {
    ghost use Rattle.std.specs.Prelude.{Some};

    ghost left = { λ s. Some s.left };

    ghost before_last = { λ s. Some s.before };

    ghost faults = { λ s. 0 };

    fn read(&mut self, into: &mut [u8]) -> Result<usize, Failed>
        ensures bound { IfOk result (λ n. n ≤ length into.new) }
        ensures bytes { Reads (Some self.old.left) (Some self.new.left) result into.new }
        ensures last { Some self.new.before ≡ Some self.old.left }
        ensures cause { HasCause 0 0 result }
        ensures ok { IsOk result }
        ensures count { IfOk result (λ n. n ≡ read_size self.old (length into.old)) }
        ensures after { self.new ≡ after_read self.old (length into.old) }
    {
        Ok(self.give(into))
    }
}
