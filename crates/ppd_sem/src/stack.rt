ghost use Rattle.std.specs.Prelude.{◌≡◌, length, [], ◌∷◌, ◌++◌, ◌<◌, drop, OnOk, OnErr, reverse, slice_get, IfSome, IfNone};
ghost use Rattle.std.specs.Bool.{Decides};
ghost use Rattle.std.specs.Option.{option_copied};

use ppd_ast::Memory;
use std::alloc::Global;
use std::marker::Model;

/// A stack, which contracts see as the list from its top.
#[derive(Drop)]
pub struct Stack<T: Drop> {
    pub(crate) items: Vec<T>,
}

impl<T: Drop> Model for Stack<T> {
    ghost use Rattle.std.specs.Prelude.{List, reverse};

    ghost Value = { List T };

    ghost view = { λ s. reverse s.items.items };
}

impl<T: Drop> Stack<T> {
    /// The empty stack; it grows by this allocator.
    pub fn new(alloc: Global) -> Stack<T>
        ensures { result ≡ [] }
    {
        Stack {
            items: Vec::new(alloc),
        }
    }

    /// The stack of a vector's items, the last one at the top, without taking memory.
    pub fn from_vec(items: Vec<T>) -> Stack<T>
        ensures { result ≡ reverse items.items }
    {
        Stack { items }
    }

    /// Puts the item at the top. `Memory` is want of memory: the stack is as before and the
    /// item is dropped.
    pub fn push(&mut self, item: T) -> Result<(), Memory>
        ensures ok { OnOk result (self.new ≡ item ∷ self.old) }
        ensures err { OnErr result (self.new ≡ self.old) }
    {
        self.items.push(item)?;
        Ok(())
    }

    /// Puts the items at the top, the last of them topmost. `Memory` is want of memory: the
    /// stack is as before and the items are dropped.
    pub fn push_all(&mut self, mut items: Vec<T>) -> Result<(), Memory>
        ensures ok { OnOk result (self.new ≡ reverse items.items ++ self.old) }
        ensures err { OnErr result (self.new ≡ self.old) }
    {
        self.items.append(&mut items)?;
        Ok(())
    }

    /// Puts the items in place of the one at the top, the last of them topmost. `Memory` is want
    /// of memory: the stack is as before and the items are dropped.
    pub fn replace_top(&mut self, mut items: Vec<T>) -> Result<(), Memory>
        requires { 0 < length self.old }
        ensures ok { OnOk result (self.new ≡ reverse items.items ++ drop 1 self.old) }
        ensures err { OnErr result (self.new ≡ self.old) }
    {
        let top = self.items.len() - 1;
        if self.items.append(&mut items).is_err() {
            return Err(Memory);
        }
        self.items.remove(top);
        Ok(())
    }

    /// Puts the item in place of the one at the top.
    pub fn set_top(&mut self, item: T)
        requires { 0 < length self.old }
        ensures { self.new ≡ item ∷ drop 1 self.old }
    {
        let top = self.items.len() - 1;
        self.items[top] = item;
    }

    /// The allocator by which the stack grows.
    pub fn allocator(&self) -> Global {
        *self.items.allocator()
    }

    /// The item at the top, if there is one.
    pub fn top(&self) -> Option<&T>
        ensures { option_copied result ≡ slice_get self.now 0 }
    {
        self.items.last()
    }

    /// The item with this number from the top, from 0, if there is one.
    pub fn get(&self, index: usize) -> Option<&T>
        ensures { option_copied result ≡ slice_get self.now index }
    {
        let count = self.items.len();
        if index >= count {
            return None;
        }
        Some(&self.items[count - 1 - index])
    }

    /// How many items there are.
    pub fn len(&self) -> usize
        ensures { result ≡ length self.now }
    {
        self.items.len()
    }

    /// Takes the item at the top off.
    pub fn pop(&mut self) -> Option<T>
        ensures some { IfSome result (λ item. self.old ≡ item ∷ self.new) }
        ensures none { IfNone result ((self.old ≡ []) × (self.new ≡ [])) }
    {
        self.items.pop()
    }
}

impl<T: Drop + PartialEq> Stack<T> {
    /// Whether both stacks hold equal items, where `==` of two items says whether they are equal.
    pub(crate) fn is_same(&self, other: &Stack<T>) -> bool
        requires { (a b : T) → Decides (T.eq a b) (a ≡ b) }
        ensures { Decides result (self.now ≡ other.now) }
    {
        self.items == other.items
    }
}
