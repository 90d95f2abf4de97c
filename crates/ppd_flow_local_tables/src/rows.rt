ghost use Rattle.std.specs.Prelude.{◌≡◌, ◌+◌, ◌&&◌, ℕ, [], OnOk, if◌then◌else◌, map, nat_eq};
ghost use Rattle.ppd_flow_local_tables.specs.Kept.{AllRowsBefore, Notes, row_of};
ghost use Rattle.ppd_flow_local_tables.specs.Rows.{entries_between, last_of};

use crate::row::Row;
use ppd_ast::Memory;
use std::alloc::Global;
use std::collections::HashMap;

/// Rows by a frame and a number, which is of a cell or of a statement.
#[derive(Drop)]
pub(crate) struct Rows<T> {
    kept: HashMap<(u8, u32), Row<T>>,
    alloc: Global,
}

impl<T: Copy> Rows<T> {
    /// No row has a value.
    pub(crate) fn new(alloc: Global) -> Rows<T>
        ensures { (frame number : ℕ) → row_of result frame number ≡ [] }
    {
        Rows {
            kept: HashMap::new(alloc),
            alloc,
        }
    }

    /// Takes a row out, which then has no value.
    fn take_row(&mut self, key: (u8, u32)) -> Row<T>
        ensures taken { result ≡ row_of self.old key.0 key.1 }
        ensures left { (frame number : ℕ) → row_of self.new frame number
            ≡ (if nat_eq key.0 frame && nat_eq key.1 number then [] else row_of self.old frame number) }
    {
        match self.kept.remove(&key) {
            Some(row) => row,
            None => Row::new(self.alloc),
        }
    }

    /// Gives the latest item this value in a row, unless it has one there. `Memory` is want of memory: nothing is
    /// said of the rows.
    pub(crate) fn note(&mut self, key: (u8, u32), item: u32, value: T) -> Result<(), Memory>
        requires { AllRowsBefore (item + 1) self.old }
        ensures { OnOk result (Notes key.0 key.1 item value self.old self.new) }
    {
        let mut row = self.take_row(key);
        let noted = row.note(item, value);
        self.kept.insert(key, row)?;
        noted
    }

    /// The values in a row of the items from one place to before another.
    pub(crate) fn values_between(&self, key: (u8, u32), from: usize, to: usize) -> &[T]
        ensures { result.now ≡ map (λ x. x.1) (entries_between from to (row_of self.now key.0 key.1)) }
    {
        match self.kept.get(&key) {
            Some(row) => row.values_between(from, to),
            None => &[],
        }
    }

    /// The last of these items, with its value.
    pub(crate) fn last_between(&self, key: (u8, u32), from: usize, to: usize) -> Option<(u32, T)>
        ensures { result ≡ last_of (entries_between from to (row_of self.now key.0 key.1)) }
    {
        match self.kept.get(&key) {
            Some(row) => row.last_between(from, to),
            None => None,
        }
    }
}
