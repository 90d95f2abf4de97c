ghost use Rattle.std.specs.Prelude.{◌≡◌, ◌≤◌, ◌↔◌, ℕ, IsTrue, List, vec_len, IfOk};
ghost use Rattle.std.specs.IoError.{error_kind};

use crate::shelf::{Shelf, ShelfError};
use std::alloc::Global;
use std::fs::File;
use std::io::{ErrorKind, Read};
use std::rt::Files;
use std::{fs, io};

/// The files of the system, by their paths. It counts failed loads and failed stores, each for all
/// names together, and tells no content.
#[derive(Drop)]
pub struct HostShelf<'a, R> {
    rt: &'a R,
    loads: u64,
    stores: u64,
}

impl<'a, R: Files> HostShelf<'a, R> {
    /// No load and no store has failed yet.
    pub fn new(rt: &'a R) -> HostShelf<'a, R>
        ensures loads { (n : List ℕ) → ⟦<HostShelf<'a, R> as Shelf>⟧.failed_loads result n ≡ 0 }
        ensures stores { (n : List ℕ) → ⟦<HostShelf<'a, R> as Shelf>⟧.failed_stores result n ≡ 0 }
    {
        HostShelf {
            rt,
            loads: 0,
            stores: 0,
        }
    }
}

/// The first `most` bytes of a file.
fn first_bytes<R: Files>(rt: &R, alloc: Global, name: &str, most: usize) -> io::Result<Vec<u8>>
    ensures { IfOk result (λ v. vec_len v ≤ most) }
{
    let mut bytes = Vec::new(alloc);
    let file = File::open(rt, name)?;
    file.take(most as u64).read_to_end(&mut bytes)?;
    // No clause of `take` says that it gave no more.
    bytes.truncate(most);
    Ok(bytes)
}

// Whether it is the system's want of memory, and no fault of the shelf.
fn is_want_of_memory(error: &io::Error) -> bool
    ensures { IsTrue result ↔ (error_kind error.now ≡ ErrorKind.OutOfMemory) }
{
    error.kind() == ErrorKind::OutOfMemory
}

impl<'a, R: Files> Shelf for HostShelf<'a, R> {
    ghost use Rattle.std.specs.Prelude.{None};

    ghost held = { λ s. None };

    ghost failed_loads = { λ s n. s.loads };

    ghost failed_stores = { λ s n. s.stores };

    fn load(&mut self, alloc: Global, name: &str, most: usize) -> Result<Vec<u8>, ShelfError> {
        match first_bytes(self.rt, alloc, name, most) {
            Ok(bytes) => Ok(bytes),
            Err(error) if is_want_of_memory(&error) => Err(ShelfError::Memory),
            Err(_) => {
                self.loads = self.loads.saturating_add(1);
                Err(ShelfError::Failed)
            }
        }
    }

    fn store(&mut self, _alloc: Global, name: &str, bytes: &[u8]) -> Result<(), ShelfError> {
        match fs::write(self.rt, name, bytes) {
            Ok(()) => Ok(()),
            Err(error) if is_want_of_memory(&error) => Err(ShelfError::Memory),
            Err(_) => {
                self.stores = self.stores.saturating_add(1);
                Err(ShelfError::Failed)
            }
        }
    }
}
