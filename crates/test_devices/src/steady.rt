ghost use Rattle.std.specs.Prelude.{◌≡◌, ◌<◌, ◌≤◌, [], length, take, true, vec_len, IfOk, OnErr, IsErrOf};
ghost use Rattle.ppd_io.specs.Causes.{HasCause};
ghost use Rattle.ppd_io.specs.Content.{Writes};
ghost use Rattle.test_devices.specs.Forms.{told_bytes, after_steady_write};

use crate::entries::Entries;
use ppd_ast::Memory;
use ppd_io::{Failed, Shelf, ShelfError, Sink};
use std::alloc::Global;
use std::marker::Model;

/// Keeps the pieces that are written, up to the first for which it has no room, and never fails.
#[derive(Drop)]
pub struct SteadySink {
    kept: Vec<u8>,
    room: usize,
    told: bool,
}

impl Model for SteadySink {
    ghost use Rattle.std.specs.Prelude.{◌≤◌, vec_len, vec_capacity};
    ghost use Rattle.test_devices.specs.Forms.{Tank};

    ghost Value = { Tank };

    ghost view = { λ s. record { kept = s.kept.items; room = s.room; told = s.told } };

    ghost invariant = { λ s. (s.room ≤ vec_capacity s.kept) × (vec_len s.kept ≤ s.room) };
}

impl SteadySink {
    /// Reserves room for that many bytes. `Memory` is want of memory.
    pub fn new(alloc: Global, room: usize) -> Result<SteadySink, Memory>
        ensures { IfOk result (λ s. s ≡ record { kept = []; room = room; told = true }) }
    {
        let kept = Vec::with_capacity(alloc, room)?;
        Ok(SteadySink {
            kept,
            room,
            told: true,
        })
    }

    /// The bytes that the sink keeps.
    pub fn bytes(&self) -> &[u8]
        ensures { result.now ≡ self.now.kept }
    {
        &self.kept
    }
}

impl Sink for SteadySink {
    ghost use Rattle.test_devices.specs.Forms.{told_bytes};

    ghost written = { told_bytes };

    ghost faults = { λ s. 0 };

    /// Takes the piece whole.
    fn write(&mut self, piece: &[u8]) -> Result<usize, Failed>
        ensures bound { IfOk result (λ n. n ≤ length piece.now) }
        ensures some { IfOk result (λ n. 0 < length piece.now → 0 < n) }
        ensures bytes { Writes (told_bytes self.old) (told_bytes self.new) result piece.now }
        ensures cause { HasCause 0 0 result }
        ensures whole { result ≡ Ok (length piece.now) }
        ensures after { self.new ≡ after_steady_write self.old piece.now }
    {
        if self.told && piece.len() <= self.room - self.kept.len() {
            if self.kept.extend_from_slice(piece).is_err() {
                unreachable!()
            }
        } else {
            self.told = false;
        }
        Ok(piece.len())
    }
}

/// Keeps bytes by name, reads a name that is not there as no bytes, and never fails.
#[derive(Drop)]
pub struct SteadyShelf {
    entries: Entries,
}

impl Model for SteadyShelf {
    ghost use Rattle.std.specs.Prelude.{ℕ, List};

    ghost Value = { List (List ℕ × List ℕ) };

    ghost view = { λ s. s.entries };
}

impl SteadyShelf {
    /// An empty shelf, which `store` fills.
    pub fn new(alloc: Global) -> SteadyShelf
        ensures { result ≡ [] }
    {
        SteadyShelf {
            entries: Entries::new(alloc),
        }
    }
}

impl Shelf for SteadyShelf {
    ghost use Rattle.std.specs.Prelude.{Some, [], unwrap_or};
    ghost use Rattle.test_devices.specs.Entries.{find_entry};

    ghost held = { λ s. Some (λ n. Some (unwrap_or (find_entry s n) [])) };

    ghost failed_loads = { λ s n. 0 };

    ghost failed_stores = { λ s n. 0 };

    fn load(&mut self, alloc: Global, name: &str, most: usize) -> Result<Vec<u8>, ShelfError> {
        let found = self.entries.find(name).unwrap_or(&[]);
        copy_of_first(alloc, found, most)
    }

    fn store(&mut self, alloc: Global, name: &str, bytes: &[u8]) -> Result<(), ShelfError> {
        self.entries.put(alloc, name, bytes)?;
        Ok(())
    }
}

/// A copy of the first `most` bytes. The only error is want of memory.
pub(crate) fn copy_of_first(alloc: Global, bytes: &[u8], most: usize) -> Result<Vec<u8>, ShelfError>
    ensures bound { IfOk result (λ v. vec_len v ≤ most) }
    ensures bytes { IfOk result (λ v. v.items ≡ take most bytes.now) }
    ensures memory { OnErr result (IsErrOf result ShelfError.Memory) }
{
    let copy = Vec::from_slice(alloc, &bytes[..most.min(bytes.len())])?;
    Ok(copy)
}
