ghost use Rattle.std.specs.Prelude.{◌≡◌, ℕ, List, ◌≤◌, vec_len, IfOk, OnOk, IsErrOf};
ghost use Rattle.std.specs.declared.option.Option.{Option};
ghost use Rattle.ppd_io.specs.Causes.{Rose};
ghost use Rattle.ppd_io.specs.Content.{Loads, Stores, StoreFails};

use std::alloc::{AllocError, Global};
use std::fmt;
use thiserror::Error;

/// Why a load or a store was not done.
#[derive(Clone, Copy, Error)]
pub enum ShelfError {
    /// The shelf failed, or has no such name.
    #[error("the shelf failed, or has no such name")]
    Failed,
    /// Want of memory.
    #[error("want of memory")]
    Memory,
}

impl From<ppd_ast::Memory> for ShelfError {
    ghost use Rattle.ppd_io.specs.declared.shelf.ShelfError.TheVariants.{Memory};

    ghost from_gives = { λ _ e. e ≡ Memory };

    fn from(_error: ppd_ast::Memory) -> ShelfError {
        ShelfError::Memory
    }
}

impl From<AllocError> for ShelfError {
    ghost use Rattle.ppd_io.specs.declared.shelf.ShelfError.TheVariants.{Memory};

    ghost from_gives = { λ _ e. e ≡ Memory };

    fn from(_error: AllocError) -> ShelfError {
        ShelfError::Memory
    }
}

/// Bytes by name.
pub trait Shelf {
    /// The bytes by name, where they are told.
    ghost held: { Self → Option (List ℕ → Option (List ℕ)) };

    /// How often a load of a name failed.
    ghost failed_loads: { Self → List ℕ → ℕ };

    /// How often a store of a name failed.
    ghost failed_stores: { Self → List ℕ → ℕ };

    /// The first `most` bytes of that name, or all where there are fewer. What is held stays as it
    /// was. `Failed` comes only where the count of failed loads of that name rose.
    fn load(&mut self, alloc: Global, name: &str, most: usize) -> Result<Vec<u8>, ShelfError>
        ensures bound { IfOk result (λ v. vec_len v ≤ most) }
        ensures bytes { IfOk result (λ v. Loads (held self.old) name.now most v.items) }
        ensures same { held self.new ≡ held self.old }
        ensures failed { IsErrOf result ShelfError.Failed
            → Rose (failed_loads self.old name.now) (failed_loads self.new name.now) }
        ensures later { (n : List ℕ) → failed_loads self.old n ≤ failed_loads self.new n }
        ensures stores { (n : List ℕ) → failed_stores self.new n ≡ failed_stores self.old n };

    /// Sets the bytes of that name. After `Failed` that name may hold anything; the others are as
    /// before. After want of memory the shelf holds what it held. `Failed` comes only where the count of
    /// failed stores of that name rose.
    fn store(&mut self, alloc: Global, name: &str, bytes: &[u8]) -> Result<(), ShelfError>
        ensures bytes { OnOk result (Stores (held self.old) (held self.new) name.now bytes.now) }
        ensures others { StoreFails (held self.old) (held self.new) name.now }
        ensures memory { IsErrOf result ShelfError.Memory → held self.new ≡ held self.old }
        ensures failed { IsErrOf result ShelfError.Failed
            → Rose (failed_stores self.old name.now) (failed_stores self.new name.now) }
        ensures later { (n : List ℕ) → failed_stores self.old n ≤ failed_stores self.new n }
        ensures loads { (n : List ℕ) → failed_loads self.new n ≡ failed_loads self.old n };
}

impl fmt::Debug for ShelfError {
    fn fmt<W: fmt::Write>(&self, f: &mut fmt::Formatter<W>) -> fmt::Result {
        fmt::Display::fmt(self, f)
    }
}
