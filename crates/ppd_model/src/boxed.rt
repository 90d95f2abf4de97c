ghost use Rattle.std.specs.Prelude.{◌≡◌, [], IfOk, length};

use ppd_sem::{Memory, Seq};
use std::alloc::Global;
use std::marker::Model;

/// A list of items, which contracts see as that list. It takes one word, and more only where it has items.
#[derive(Drop)]
pub struct Boxed<T: Drop> {
    items: Option<Box<Seq<T>>>,
}

impl<T: Drop> Model for Boxed<T> {
    ghost use Rattle.std.specs.Prelude.{List};
    ghost use Rattle.ppd_model.specs.Boxed.{items_in};

    ghost Value = { List T };

    ghost view = { λ s. items_in s.items };
}

/// Values.
pub type BoxedNums = Boxed<i64>;
/// Cells of the shared store.
pub type BoxedCells = Boxed<u16>;

impl<T: Drop> Boxed<T> {
    /// The empty list, which takes no memory.
    pub fn new() -> Boxed<T>
        ensures { result ≡ [] }
    {
        Boxed { items: None }
    }

    /// The list of these items, which takes memory where there is one. `Memory` is want of memory.
    pub fn from_seq(alloc: Global, items: Seq<T>) -> Result<Boxed<T>, Memory>
        ensures { IfOk result (λ boxed. boxed ≡ items) }
    {
        if items.is_empty() {
            return Ok(Boxed::new());
        }
        Ok(Boxed {
            items: Some(Box::new(alloc, items)?),
        })
    }

    /// The items in order.
    pub fn as_slice(&self) -> &[T]
        ensures { result.now ≡ self.now }
    {
        match &self.items {
            Some(items) => items.as_slice(),
            None => &[],
        }
    }

    /// How many items there are.
    pub fn len(&self) -> usize
        ensures { result ≡ length self.now }
    {
        self.as_slice().len()
    }
}

impl<T: Drop + PartialEq> PartialEq for Boxed<T> {
    ghost use Rattle.std.specs.Cmp.Lexicographic.{pointwise, lists_per};

    ghost eq = { λ a b. pointwise T.eq a b };

    ghost laws = { lists_per T.laws };

    fn eq(&self, other: &Boxed<T>) -> bool {
        self.as_slice() == other.as_slice()
    }
}
