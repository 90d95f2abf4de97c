ghost use Rattle.std.specs.Prelude.{◌≡◌, ◌<◌, ℕ, [], nat_eq, ◌||◌, IfOk};
ghost use Rattle.ppd_ast.specs.declared.limits.TheConstants.{MOST_SHARED_CELLS};
ghost use Rattle.ppd_ast.specs.Members.{has, those, with_cell};
ghost use Rattle.ppd_sets.specs.CellSets.{meet, is_held, held, IsSetBelow};

use ppd_ast::limits::MOST_SHARED_CELLS;
use ppd_ast::{Cells, Memory};
use std::alloc::Global;
use std::marker::Model;
use std::simd::prelude::*;

/// A set of cells below 1,024, which contracts see as the list of its cells, rising.
#[derive(Drop)]
pub struct CellSet {
    // Cell c is bit c % 64 of word c / 64.
    words: [u64; 16],
}

impl Model for CellSet {
    ghost use Rattle.std.specs.Prelude.{List, ℕ};
    ghost use Rattle.ppd_sets.specs.CellSets.{held};

    ghost Value = { List ℕ };

    ghost view = { λ s. held s.words };
}

fn is_held(words: &[u64; 16], cell: u16) -> bool
    requires { cell < MOST_SHARED_CELLS }
    ensures { result ≡ is_held words.now cell }
{
    (words[(cell / 64) as usize] >> (cell % 64)) & 1 == 1
}

fn cells_of(alloc: Global, words: &[u64; 16]) -> Result<Cells, Memory>
    ensures { IfOk result (λ cells. cells ≡ held words.now) }
{
    let mut cells = Cells::new(alloc);
    for cell in 0..MOST_SHARED_CELLS as u16 {
        if is_held(words, cell) {
            cells.push(cell)?;
        }
    }
    Ok(cells)
}

// Whether some bit is in both words of some lane.
fn do_meet(left: u64x16, right: u64x16) -> bool
    ensures { result ≡ meet (held left) (held right) }
{
    (left & right).reduce_or() != 0
}

impl CellSet {
    /// The empty set.
    pub fn new() -> CellSet
        ensures { result ≡ [] }
    {
        CellSet { words: [0; 16] }
    }

    /// Leaves the empty set.
    pub fn clear(&mut self)
        ensures { self.new ≡ [] }
    {
        self.words = [0; 16];
    }

    /// Adds the cell, which is below 1,024.
    pub fn insert(&mut self, cell: u16)
        requires { cell < MOST_SHARED_CELLS }
        ensures list { self.new ≡ with_cell cell self.old }
        ensures cells { (other : ℕ) → has self.new other ≡ (nat_eq cell other || has self.old other) }
    {
        self.words[(cell / 64) as usize] |= 1 << (cell % 64);
    }

    /// Whether the cell, which is below 1,024, is in the set.
    pub fn contains(&self, cell: u16) -> bool
        requires { cell < MOST_SHARED_CELLS }
        ensures { result ≡ has self.now cell }
    {
        is_held(&self.words, cell)
    }

    /// Whether some cell is in both sets.
    pub fn meets(&self, other: &CellSet) -> bool
        ensures { result ≡ meet self.now other.now }
    {
        do_meet(
            u64x16::from_array(self.words),
            u64x16::from_array(other.words),
        )
    }

    /// Adds the cells of the other set.
    pub fn insert_all(&mut self, other: &CellSet)
        ensures { (cell : ℕ) → has self.new cell ≡ (has self.old cell || has other.now cell) }
    {
        let either = u64x16::from_array(self.words) | u64x16::from_array(other.words);
        self.words = either.to_array();
    }

    /// The cells, rising, each once. `Memory` is want of memory.
    pub fn to_list(&self, alloc: Global) -> Result<Cells, Memory>
        ensures list { IfOk result (λ cells. cells ≡ self.now) }
        ensures rising { IfOk result (λ cells. IsSetBelow MOST_SHARED_CELLS cells) }
        ensures whole { IfOk result (λ cells. cells ≡ those MOST_SHARED_CELLS (has self.now)) }
    {
        let cells = cells_of(alloc, &self.words)?;
        Ok(cells)
    }
}
