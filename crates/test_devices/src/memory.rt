ghost use Rattle.std.specs.Prelude.{◌≡◌, ◌↔◌, ℕ, List, [], Some, ◌<◌, ◌≤◌, length, vec_len, is_ok, is_err, IfOk, OnOk, OnErr, IsErrOf, IsTrue};
ghost use Rattle.ppd_io.specs.Causes.{HasCause, Rose};
ghost use Rattle.ppd_io.specs.Content.{Reads, Writes, Loads, Stores, StoreFails};
ghost use Rattle.test_devices.specs.Entries.{find_entry, put_entry};
ghost use Rattle.ppd_io.specs.Feeds.{new_feed, read_size};
ghost use Rattle.test_devices.specs.Forms.{fails_next, after_faulty_read, fails_write, write_size, after_faulty_write, fails_load, after_load, after_store};

use crate::calls::ListedCalls;
use crate::entries::Entries;
use crate::steady::copy_of_first;
use ppd_ast::Memory;
use ppd_io::{Failed, Shelf, ShelfError, Sink, Source, SteadySource};
use std::alloc::Global;
use std::marker::Model;

/// Gives its bytes in chunks, and fails at the calls that are listed.
#[derive(Drop)]
pub struct MemorySource {
    source: SteadySource,
    calls: ListedCalls,
    faults: u64,
}

impl Model for MemorySource {
    ghost use Rattle.test_devices.specs.Forms.{FaultyFeed};

    ghost Value = { FaultyFeed };

    ghost view = { λ s. record { feed = s.source; calls = s.calls; faults = s.faults } };
}

impl MemorySource {
    /// Gives at most `chunk` bytes in a call, which is at least 1, and fails the calls whose numbers,
    /// from 0, are listed.
    pub fn new(bytes: Vec<u8>, chunk: usize, fails: Vec<u32>) -> MemorySource
        requires { 0 < chunk }
        ensures { result ≡ record {
          feed = new_feed bytes.items chunk;
          calls = record { fails = fails.items; next = 0 };
          faults = 0;
        } }
    {
        MemorySource {
            source: SteadySource::new(bytes, chunk),
            calls: ListedCalls::new(fails),
            faults: 0,
        }
    }
}

impl Source for MemorySource {
    ghost use Rattle.std.specs.Prelude.{Some};

    ghost left = { λ s. Some s.feed.left };

    ghost before_last = { λ s. Some s.feed.before };

    ghost faults = { λ s. s.faults };

    /// Fails exactly at the listed calls.
    fn read(&mut self, into: &mut [u8]) -> Result<usize, Failed>
        ensures bound { IfOk result (λ n. n ≤ length into.new) }
        ensures bytes { Reads (Some self.old.feed.left) (Some self.new.feed.left) result into.new }
        ensures last { Some self.new.feed.before ≡ Some self.old.feed.left }
        ensures cause { HasCause self.old.faults self.new.faults result }
        ensures fails { is_err result ≡ fails_next self.old.calls }
        ensures count { IfOk result (λ n. n ≡ read_size self.old.feed (length into.old)) }
        ensures after { self.new ≡ after_faulty_read self.old (length into.old) }
    {
        if self.calls.fails_next() {
            self.source.give_nothing();
            self.faults = self.faults.saturating_add(1);
            return Err(Failed);
        }
        Ok(self.source.give(into))
    }
}

/// Keeps what its room holds, and fails at the calls that are listed.
#[derive(Drop)]
pub struct MemorySink {
    kept: Vec<u8>,
    room: usize,
    calls: ListedCalls,
    faults: u64,
}

impl Model for MemorySink {
    ghost use Rattle.std.specs.Prelude.{◌≤◌, vec_len, vec_capacity};
    ghost use Rattle.test_devices.specs.Forms.{FaultyTank};

    ghost Value = { FaultyTank };

    ghost view = { λ s. record { kept = s.kept.items; room = s.room; calls = s.calls; faults = s.faults } };

    ghost invariant = { λ s. (s.room ≤ vec_capacity s.kept) × (vec_len s.kept ≤ s.room) };
}

impl MemorySink {
    /// Reserves room for that many bytes. The calls whose numbers, from 0, are listed will fail.
    /// `Memory` is want of memory.
    pub fn new(alloc: Global, room: usize, fails: Vec<u32>) -> Result<MemorySink, Memory>
        ensures { IfOk result (λ s.
            s ≡ record { kept = []; room = room; calls = record { fails = fails.items; next = 0 }; faults = 0 }) }
    {
        let kept = Vec::with_capacity(alloc, room)?;
        Ok(MemorySink {
            kept,
            room,
            calls: ListedCalls::new(fails),
            faults: 0,
        })
    }

    /// The bytes that the sink keeps.
    pub fn bytes(&self) -> &[u8]
        ensures { result.now ≡ self.now.kept }
    {
        &self.kept
    }
}

impl Sink for MemorySink {
    ghost use Rattle.std.specs.Prelude.{Some};

    ghost written = { λ s. Some s.kept };

    ghost faults = { λ s. s.faults };

    /// Takes what fits. Fails exactly at the listed calls, and at a piece that is not empty where no
    /// room is left.
    fn write(&mut self, piece: &[u8]) -> Result<usize, Failed>
        ensures bound { IfOk result (λ n. n ≤ length piece.now) }
        ensures some { IfOk result (λ n. 0 < length piece.now → 0 < n) }
        ensures bytes { Writes (Some self.old.kept) (Some self.new.kept) result piece.now }
        ensures cause { HasCause self.old.faults self.new.faults result }
        ensures fails { is_err result ≡ fails_write self.old piece.now }
        ensures count { IfOk result (λ n. n ≡ write_size self.old piece.now) }
        ensures after { self.new ≡ after_faulty_write self.old piece.now }
    {
        let listed = self.calls.fails_next();
        let left = self.room - self.kept.len();
        if listed || (left == 0 && !piece.is_empty()) {
            self.faults = self.faults.saturating_add(1);
            return Err(Failed);
        }
        let count = piece.len().min(left);
        if self.kept.extend_from_slice(&piece[..count]).is_err() {
            unreachable!()
        }
        Ok(count)
    }
}

/// Keeps bytes by name, and fails at the loads and stores that are listed, and at a load of a name
/// that is not there. It counts failed loads and failed stores, each for all names together.
#[derive(Drop)]
pub struct MemoryShelf {
    alloc: Global,
    entries: Entries,
    calls: ListedCalls,
    failed_loads: u64,
    failed_stores: u64,
}

impl Model for MemoryShelf {
    ghost use Rattle.test_devices.specs.Forms.{FaultyShelf};

    ghost Value = { FaultyShelf };

    ghost view = { λ s. record {
      entries = s.entries;
      calls = s.calls;
      failed_loads = s.failed_loads;
      failed_stores = s.failed_stores;
    } };
}

impl MemoryShelf {
    /// An empty shelf. Loads and stores are numbered together from 0, and the listed ones fail.
    pub fn new(alloc: Global, fails: Vec<u32>) -> MemoryShelf
        ensures { result ≡ record {
          entries = [];
          calls = record { fails = fails.items; next = 0 };
          failed_loads = 0;
          failed_stores = 0;
        } }
    {
        MemoryShelf {
            alloc,
            entries: Entries::new(alloc),
            calls: ListedCalls::new(fails),
            failed_loads: 0,
            failed_stores: 0,
        }
    }

    /// Sets the bytes of that name, and counts as no call. `Memory` is want of memory: the shelf is
    /// as before.
    pub fn put(&mut self, name: &str, bytes: &[u8]) -> Result<(), Memory>
        ensures ok { OnOk result
            (self.new ≡ record self.old { entries = put_entry self.old.entries name.now bytes.now }) }
        ensures err { OnErr result (self.new ≡ self.old) }
    {
        self.entries.put(self.alloc, name, bytes)
    }
}

impl Shelf for MemoryShelf {
    ghost use Rattle.std.specs.Prelude.{Some};
    ghost use Rattle.test_devices.specs.Entries.{find_entry};

    ghost held = { λ s. Some (find_entry s.entries) };

    ghost failed_loads = { λ s n. s.failed_loads };

    ghost failed_stores = { λ s n. s.failed_stores };

    /// Fails exactly at the listed calls, and where the name is missing.
    fn load(&mut self, alloc: Global, name: &str, most: usize) -> Result<Vec<u8>, ShelfError>
        ensures bound { IfOk result (λ v. vec_len v ≤ most) }
        ensures bytes { IfOk result (λ v. Loads (Some (find_entry self.old.entries)) name.now most v.items) }
        ensures same { Some (find_entry self.new.entries) ≡ Some (find_entry self.old.entries) }
        ensures failed { IsErrOf result ShelfError.Failed → Rose self.old.failed_loads self.new.failed_loads }
        ensures later { (n : List ℕ) → self.old.failed_loads ≤ self.new.failed_loads }
        ensures stores { (n : List ℕ) → self.new.failed_stores ≡ self.old.failed_stores }
        ensures fails { IsErrOf result ShelfError.Failed ↔ IsTrue (fails_load self.old name.now) }
        ensures after { self.new ≡ after_load self.old name.now }
    {
        if self.calls.fails_next() {
            self.failed_loads = self.failed_loads.saturating_add(1);
            return Err(ShelfError::Failed);
        }
        let Some(bytes) = self.entries.find(name) else {
            self.failed_loads = self.failed_loads.saturating_add(1);
            return Err(ShelfError::Failed);
        };
        copy_of_first(alloc, bytes, most)
    }

    /// Fails exactly at the listed calls. After an error the shelf holds what it held.
    fn store(&mut self, alloc: Global, name: &str, bytes: &[u8]) -> Result<(), ShelfError>
        ensures bytes { OnOk result
            (Stores (Some (find_entry self.old.entries)) (Some (find_entry self.new.entries)) name.now bytes.now) }
        ensures others { StoreFails (Some (find_entry self.old.entries)) (Some (find_entry self.new.entries)) name.now }
        ensures memory { IsErrOf result ShelfError.Memory
            → Some (find_entry self.new.entries) ≡ Some (find_entry self.old.entries) }
        ensures failed { IsErrOf result ShelfError.Failed → Rose self.old.failed_stores self.new.failed_stores }
        ensures later { (n : List ℕ) → self.old.failed_stores ≤ self.new.failed_stores }
        ensures loads { (n : List ℕ) → self.new.failed_loads ≡ self.old.failed_loads }
        ensures fails { IsErrOf result ShelfError.Failed ↔ IsTrue (fails_next self.old.calls) }
        ensures after { self.new ≡ after_store self.old (is_ok result) name.now bytes.now }
    {
        if self.calls.fails_next() {
            self.failed_stores = self.failed_stores.saturating_add(1);
            return Err(ShelfError::Failed);
        }
        self.entries.put(alloc, name, bytes)?;
        Ok(())
    }
}
