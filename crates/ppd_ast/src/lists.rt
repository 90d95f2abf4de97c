ghost use Rattle.std.specs.Prelude.{◌≡◌, ◌<◌, ◌==◌, ◌^◌, [], ◌∷◌, ◌++◌, OnOk, OnErr, length, option_copied, slice_get, slice_index_or, slice_set, take};
ghost use Rattle.std.specs.Iterator.Adapters.{IterYieldsInOrder, IterYieldsInReverse};
ghost use Rattle.std.specs.Slice.{IsItemAt};
ghost use Rattle.std.specs.Slice.Iter.{iter_rest};

use std::alloc::{AllocError, AllocFailed, Global};
use std::marker::Model;
use std::ops::Index;
use std::slice::Iter;

/// Want of memory.
#[derive(Clone, Copy, Debug)]
pub struct Memory;

impl From<AllocError> for Memory {
    fn from(_error: AllocError) -> Memory {
        Memory
    }
}

impl<T: Drop> From<AllocFailed<T>> for Memory {
    fn from(_error: AllocFailed<T>) -> Memory {
        Memory
    }
}

/// A list of items, which contracts see as that list.
#[derive(Drop, Clone)]
pub struct Seq<T: Drop> {
    items: Vec<T>,
}

impl<T: Drop> Model for Seq<T> {
    ghost use Rattle.std.specs.Prelude.{List};

    ghost Value = { List T };

    ghost view = { λ s. s.items.items };
}

/// Numbers of statements or expressions.
pub type Ids = Seq<u32>;
/// Values.
pub type Nums = Seq<i64>;
/// Bytes, as of a name.
pub type Bytes = Seq<u8>;
/// Cells of a frame or of the shared store.
pub type Cells = Seq<u16>;

impl<T: Drop> Seq<T> {
    /// The empty list; it grows by this allocator.
    pub fn new(alloc: Global) -> Seq<T>
        ensures { result ≡ [] }
    {
        Seq {
            items: Vec::new(alloc),
        }
    }

    /// The list of a vector's items, without taking memory.
    pub fn from_vec(items: Vec<T>) -> Seq<T>
        ensures { result ≡ items.items }
    {
        Seq { items }
    }

    /// The items as a vector, without taking memory.
    pub fn into_vec(self) -> Vec<T>
        ensures { result.items ≡ self }
    {
        self.items
    }

    /// Appends the item. `Memory` is want of memory: the list is as before and the item is dropped.
    pub fn push(&mut self, item: T) -> Result<(), Memory>
        ensures ok { OnOk result (self.new ≡ self.old ++ item ∷ []) }
        ensures err { OnErr result (self.new ≡ self.old) }
    {
        self.items.push(item)?;
        Ok(())
    }

    /// Appends the vector's items. `Memory` is want of memory: the list is as before and the items
    /// are dropped.
    pub fn append(&mut self, mut items: Vec<T>) -> Result<(), Memory>
        ensures ok { OnOk result (self.new ≡ self.old ++ items.items) }
        ensures err { OnErr result (self.new ≡ self.old) }
    {
        self.items.append(&mut items)?;
        Ok(())
    }

    /// Leaves the first items, so many.
    pub fn truncate(&mut self, count: usize)
        ensures { self.new ≡ take count self.old }
    {
        self.items.truncate(count);
    }

    /// Writes the place with this number, from 0. Past the list's end the item is dropped.
    pub fn set(&mut self, index: usize, item: T)
        ensures { self.new ≡ slice_set self.old index item }
    {
        if index < self.items.len() {
            self.items[index] = item;
        }
    }

    /// Leaves the empty list.
    pub fn clear(&mut self)
        ensures { self.new ≡ [] }
    {
        self.items.clear();
    }

    /// The items in order.
    pub fn as_slice(&self) -> &[T]
        ensures { result.now ≡ self.now }
    {
        self.items.as_slice()
    }

    /// How many items there are.
    pub fn len(&self) -> usize
        ensures { result ≡ length self.now }
    {
        self.items.len()
    }

    /// Whether there is no item.
    pub fn is_empty(&self) -> bool
        ensures { result ≡ (length self.now == 0) }
    {
        self.items.len() == 0
    }

    /// The item with this number, from 0, and none past the list's end.
    pub fn get(&self, index: usize) -> Option<&T>
        ensures item { IsItemAt self.now index result }
        ensures value { option_copied result ≡ slice_get self.now index }
    {
        self.items.as_slice().get(index)
    }

    /// The items one by one, in order or from the end.
    pub fn iter(&self) -> Iter<'_, T>
        ensures rest { iter_rest result ≡ self.now }
        ensures len { length (iter_rest result) ≡ length self.now }
        ensures bound { length (iter_rest result) < 2 ^ 64 }
        ensures runs { IterYieldsInOrder T }
        ensures runs_back { IterYieldsInReverse T }
    {
        self.items.as_slice().iter()
    }
}

impl<T: Drop> Index<usize> for Seq<T> {
    type Output = T;

    ghost can_index = { λ list index. index < length list };

    ghost index_gives = { λ list index item. item ≡ slice_index_or list index item };

    fn index(&self, index: usize) -> &T {
        &self.items.as_slice()[index]
    }
}

impl<'a, T: Drop> IntoIterator for &'a Seq<T> {
    type Item = &'a T;

    type IntoIter = Iter<'a, T>;

    ghost into_iter_gives = { λ list it. (iter_rest it ≡ list.now) × (length (iter_rest it) < 2 ^ 64)
        × IterYieldsInOrder T };

    fn into_iter(self) -> Iter<'a, T> {
        self.iter()
    }
}

impl<T: Drop + PartialEq> PartialEq for Seq<T> {
    ghost use Rattle.std.specs.Cmp.Lexicographic.{pointwise, lists_per};

    ghost eq = { λ a b. pointwise T.eq a b };

    ghost laws = { lists_per T.laws };

    fn eq(&self, other: &Seq<T>) -> bool {
        self.items == other.items
    }
}
