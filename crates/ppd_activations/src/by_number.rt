ghost use Rattle.std.specs.Prelude.{◌≡◌, OnOk};
ghost use Rattle.std.specs.Coded.{coded_ℕ};
ghost use Rattle.std.specs.FinMap as map;
ghost use Rattle.std.specs.Ordering.{nat_cmp};

use ppd_ast::Memory;
use std::alloc::Global;
use std::collections::HashMap;
use std::marker::Model;

/// What each number has, where it has something. Contracts see the finite map.
#[derive(Drop)]
pub struct ByNumber<V> {
    kept: HashMap<u64, V>,
}

impl<V> Model for ByNumber<V> {
    ghost Value = { map.FinMap nat_cmp V };

    ghost coded = { map.code coded_ℕ V.code };

    ghost view = { λ a. map.from_entries a.kept.entries };
}

impl<V: Copy> ByNumber<V> {
    /// No number has anything.
    pub fn new(alloc: Global) -> Self
        ensures { result ≡ map.empty }
    {
        ByNumber {
            kept: HashMap::new(alloc),
        }
    }

    /// What the number has.
    pub fn get(&self, number: u64) -> Option<V>
        ensures { result ≡ map.get self.now number }
    {
        self.kept.get(&number).copied()
    }

    /// Gives it to the number, in place of what that had. `Memory` is want of memory.
    pub fn set(&mut self, number: u64, value: V) -> Result<(), Memory>
        ensures { OnOk result (self.new ≡ map.insert self.old number value) }
    {
        self.kept.insert(number, value)?;
        Ok(())
    }
}
