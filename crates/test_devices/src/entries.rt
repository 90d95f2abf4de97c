ghost use Rattle.std.specs.Prelude.{◌≡◌, [], OnOk, OnErr};
ghost use Rattle.std.specs.Option.{option_copied};
ghost use Rattle.test_devices.specs.Entries.{find_entry, put_entry, place_of};

use ppd_ast::Memory;
use std::alloc::Global;
use std::marker::Model;

/// A name with its bytes.
#[derive(Drop)]
struct Entry {
    name: String,
    bytes: Vec<u8>,
}

/// Bytes by name, which contracts see as the list of the names with their bytes.
#[derive(Drop)]
pub struct Entries {
    all: Vec<Entry>,
}

impl Model for Entries {
    ghost use Rattle.std.specs.Prelude.{ℕ, List, map};
    ghost use Rattle.std.specs.String.{string_bytes};

    ghost Value = { List (List ℕ × List ℕ) };

    ghost view = { λ s. map (λ e. (string_bytes e.name, e.bytes.items)) s.all.items };
}

impl Entries {
    /// No entries.
    pub fn new(alloc: Global) -> Entries
        ensures { result ≡ [] }
    {
        Entries {
            all: Vec::new(alloc),
        }
    }

    /// Where that name stands, or how many entries there are.
    fn place(&self, name: &str) -> usize
        ensures { result ≡ place_of self.now name.now }
    {
        for (place, entry) in self.all.iter().enumerate() {
            if entry.name.as_str() == name {
                return place;
            }
        }
        self.all.len()
    }

    /// The bytes of that name, if it is there.
    pub fn find(&self, name: &str) -> Option<&[u8]>
        ensures { option_copied result ≡ find_entry self.now name.now }
    {
        let place = self.place(name);
        if place >= self.all.len() {
            return None;
        }
        Some(&self.all[place].bytes)
    }

    /// Sets the bytes of that name. `Memory` is want of memory: the entries are as before.
    pub fn put(&mut self, alloc: Global, name: &str, bytes: &[u8]) -> Result<(), Memory>
        ensures ok { OnOk result (self.new ≡ put_entry self.old name.now bytes.now) }
        ensures err { OnErr result (self.new ≡ self.old) }
    {
        let Ok(bytes) = Vec::from_slice(alloc, bytes) else {
            return Err(Memory);
        };
        let place = self.place(name);
        if place < self.all.len() {
            self.all[place].bytes = bytes;
            return Ok(());
        }
        let Ok(name) = String::from_str(alloc, name) else {
            return Err(Memory);
        };
        let Ok(()) = self.all.push(Entry { name, bytes }) else {
            return Err(Memory);
        };
        Ok(())
    }
}
