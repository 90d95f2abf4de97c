ghost use Rattle.std.specs.Prelude.{◌≡◌, ◌+◌, ◌<◌, ◌≤◌, ◌^◌, OnOk};
ghost use Rattle.ppd_emul_values.specs.Emulated.{replaying};
ghost use Rattle.ppd_model.specs.Replay.{counted, past_piece, with_item, with_write as with_write_of};

use crate::in_force::InForce;
use crate::pieces::Pieces;
use ppd_ast::{Memory, Plan, Program, Seq, Steps};
use ppd_index::Item;
use ppd_sem::{Need, Proc};
use std::alloc::Global;
use std::sync::ledger::Ledger;

/// What a replay reads and never changes, and where its memory comes from.
#[derive(Clone, Copy)]
pub struct Code<'a> {
    pub alloc: Global,
    pub program: &'a Program,
    pub plan: &'a Plan,
}

/// A replay on its way: the process state, the shared values in force, the pieces that are left, the
/// steps since the last piece and all steps, and the items so far.
#[derive(Drop)]
pub struct Replayer<'a> {
    pub proc: Proc,
    pub in_force: InForce,
    pub pieces: Pieces<'a>,
    pub since: u64,
    pub steps: u64,
    pub items: Seq<Item>,
}

/// Whether a replay goes on after a turn.
#[derive(Clone, Copy)]
pub enum Turned {
    More,
    Done,
}

impl<'a> Replayer<'a> {
    /// Goes past the next piece.
    pub fn pass(&mut self)
        ensures { replaying self.new ≡ past_piece (replaying self.old) }
    {
        self.pieces.pass();
        self.since = 0;
    }

    /// Counts one step more.
    pub fn count<L: Ledger>(&mut self, steps: &mut Steps<L>)
        requires since { self.old.since ≤ self.old.steps }
        requires few { self.old.steps < 2 ^ 40 }
        ensures counted { replaying self.new ≡ counted (replaying self.old) }
        ensures ticks { steps.new ≡ steps.old + 1 }
    {
        self.since += 1;
        self.steps += 1;
        steps.tick();
    }

    /// Adds an item. `Memory` is want of memory.
    pub fn push(&mut self, item: Item) -> Result<(), Memory>
        ensures pushed { OnOk result (replaying self.new ≡ with_item item (replaying self.old)) }
        ensures rest { self.new ≡ record self.old { items = self.new.items } }
    {
        self.items.push(item)
    }

    /// Puts what the step writes in force. `Memory` is want of memory.
    pub fn write(&mut self, need: Need) -> Result<(), Memory>
        ensures written { OnOk result (replaying self.new ≡ with_write_of need (replaying self.old)) }
        ensures rest { self.new ≡ record self.old { in_force = self.new.in_force } }
    {
        match need {
            Need::Write(cell, value) => self.in_force.put(cell, value),
            _ => Ok(()),
        }
    }
}
