ghost use Rattle.std.specs.Prelude.{◌≡◌, ◌≤◌, ◌+◌, [], ◌∷◌, ◌++◌, OnOk, length, map, nat_lt, true, false};
ghost use Rattle.std.specs.List.Sorted.{IsNonDecreasing, IsPartitionPoint};
ghost use Rattle.ppd_flow_local_tables.specs.Rows.{AllBefore, entries_between, is_of, last_of, noted};

use ppd_ast::Memory;
use std::alloc::Global;
use std::marker::Model;

/// Values of one cell or statement, each with the item that it is of; the items rise. Contracts see the pairs.
#[derive(Drop)]
pub(crate) struct Row<T> {
    items: Vec<u32>,
    values: Vec<T>,
}

impl<T> Model for Row<T> {
    ghost use Rattle.std.specs.Prelude.{◌≡◌, List, ℕ, length};
    ghost use Rattle.std.specs.List.{zip};
    ghost use Rattle.std.specs.List.Sorted.{IsNonDecreasing};

    ghost Value = { List (ℕ × T) };

    ghost view = { λ a. zip a.items.items a.values.items };

    ghost invariant = { λ a. (length a.items.items ≡ length a.values.items) × IsNonDecreasing a.items.items };
}

/// How many of these rising items stand before a place.
fn count_before(items: &[u32], place: usize) -> usize
    requires { IsNonDecreasing items.now }
    ensures within { result ≤ length items.now }
    ensures is { IsPartitionPoint (λ n. nat_lt n place ≡ true) (λ n. nat_lt n place ≡ false) items.now result }
{
    items.partition_point(|item| (*item as usize) < place)
}

impl<T: Copy> Row<T> {
    /// No value.
    pub(crate) fn new(alloc: Global) -> Row<T>
        ensures { result ≡ [] }
    {
        Row {
            items: Vec::new(alloc),
            values: Vec::new(alloc),
        }
    }

    /// Whether the last value is of this item.
    fn ends_with(&self, item: u32) -> bool
        ensures { result ≡ is_of item (last_of self.now) }
    {
        let count = self.items.len();
        if count == 0 {
            return false;
        }
        self.items[count - 1] == item
    }

    /// One more value, of the latest item. `Memory` is want of memory: the row is as before.
    fn push(&mut self, item: u32, value: T) -> Result<(), Memory>
        requires { AllBefore (item + 1) self.old }
        ensures { OnOk result (self.new ≡ self.old ++ (item, value) ∷ []) }
    {
        self.values.push(value)?;
        match self.items.push(item) {
            Ok(()) => Ok(()),
            Err(_) => {
                self.values.pop();
                Err(Memory)
            }
        }
    }

    /// Gives the latest item this value, unless it has one. `Memory` is want of memory: the row is as before.
    pub(crate) fn note(&mut self, item: u32, value: T) -> Result<(), Memory>
        requires { AllBefore (item + 1) self.old }
        ensures { OnOk result (self.new ≡ noted item value self.old) }
    {
        if self.ends_with(item) {
            return Ok(());
        }
        self.push(item, value)
    }

    /// The values of the items from one place to before another.
    pub(crate) fn values_between(&self, from: usize, to: usize) -> &[T]
        ensures { result.now ≡ map (λ x. x.1) (entries_between from to self.now) }
    {
        let start = count_before(self.items.as_slice(), from);
        let end = count_before(self.items.as_slice(), to);
        if start < end {
            &self.values.as_slice()[start..end]
        } else {
            &[]
        }
    }

    /// The last of these items, with its value.
    pub(crate) fn last_between(&self, from: usize, to: usize) -> Option<(u32, T)>
        ensures { result ≡ last_of (entries_between from to self.now) }
    {
        let start = count_before(self.items.as_slice(), from);
        let end = count_before(self.items.as_slice(), to);
        if start < end {
            Some((self.items[end - 1], self.values[end - 1]))
        } else {
            None
        }
    }
}
