ghost use Rattle.std.specs.Prelude.{◌≡◌, ◌<◌, ◌∷◌, ℕ, ℤ, List, [], length, zip, OnOk};
ghost use Rattle.ppd_emul_values.specs.Held.{looked_up};
ghost use Rattle.ppd_model.specs.Replay.{value_in_force};

use ppd_ast::{Memory, Seq};
use std::alloc::Global;
use std::marker::Model;

/// The shared values in force, as pairs of a cell and a value, which contracts see with the newest
/// first. Reading one looks at one place, and the start of a unit does not look at the cells of the
/// unit before it.
#[derive(Drop)]
pub struct InForce {
    /// The pairs since the last unit, the newest last.
    held: Seq<(u16, i64)>,
    /// The place of the newest pair of each cell. It tells nothing where another pair stands there, or none.
    places: Seq<Option<usize>>,
}

impl Model for InForce {
    ghost use Rattle.std.specs.Prelude.{◌≡◌, ℕ, ℤ, List, reverse};
    ghost use Rattle.ppd_emul_values.specs.Held.{looked_up};
    ghost use Rattle.ppd_model.specs.Replay.{value_in_force};

    ghost Value = { List (ℕ × ℤ) };

    ghost view = { λ s. reverse s.held };

    ghost invariant = { λ s. (c : ℕ) → looked_up s.places s.held c ≡ value_in_force (reverse s.held) c };
}

/// Makes room for the places of the cells up to this one. `Memory` is want of memory.
fn make_room(places: &mut Seq<Option<usize>>, cell: u16) -> Result<(), Memory>
    ensures room { OnOk result (cell < length places.new) }
    ensures same { (held : List (ℕ × ℤ)) (c : ℕ) → looked_up places.new held c ≡ looked_up places.old held c }
{
    let missing = (cell as usize + 1).saturating_sub(places.len());
    for _index in 0..missing {
        places.push(None)?;
    }
    Ok(())
}

impl InForce {
    /// No value in force.
    pub(crate) fn new(alloc: Global) -> InForce
        ensures { result ≡ [] }
    {
        InForce {
            held: Seq::new(alloc),
            places: Seq::new(alloc),
        }
    }

    /// The value of the cell that is in force, and 0 without one.
    pub fn value(&self, cell: u16) -> i64
        ensures { result ≡ value_in_force self.now cell }
    {
        let Some(Some(place)) = self.places.get(cell as usize) else {
            return 0;
        };
        match self.held.get(*place) {
            Some((held, value)) if *held == cell => *value,
            _ => 0,
        }
    }

    /// Puts a value of a cell in force. `Memory` is want of memory.
    pub(crate) fn put(&mut self, cell: u16, value: i64) -> Result<(), Memory>
        ensures { OnOk result (self.new ≡ (cell, value) ∷ self.old) }
    {
        make_room(&mut self.places, cell)?;
        let place = self.held.len();
        self.held.push((cell, value))?;
        self.places.set(cell as usize, Some(place));
        Ok(())
    }

    /// Puts the values of a unit's cells in force, and no others. `Memory` is want of memory.
    pub(crate) fn start(&mut self, cells: &[u16], values: &[i64]) -> Result<(), Memory>
        ensures { OnOk result (self.new ≡ zip cells.now values.now) }
    {
        self.held.clear();
        let count = cells.len().min(values.len());
        for index in 0..count {
            let place = count - 1 - index;
            self.put(cells[place], values[place])?;
        }
        Ok(())
    }
}
