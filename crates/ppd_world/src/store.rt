ghost use Rattle.std.specs.Prelude.{◌≡◌, OnOk, OnErr};
ghost use Rattle.std.specs.List.{All};
ghost use Rattle.ppd_model.specs.Story.{number_of as number_of_need};
ghost use Rattle.ppd_model.specs.World.{answer as answer_of, can};
ghost use Rattle.ppd_world.specs.Parts.{finished, sent, unsent, IsReceivable};
ghost use Rattle.ppd_world_steps.specs.Objects.{IsSmallChan, IsSmallSem};

use crate::objects::{complete, drop_last, give, push_value, receive, take};
use ppd_ast::{Memory, Nums};
use ppd_model::{Channel, Counts, value_at};
use ppd_sem::{Answer, Need};
use ppd_world_steps::{can_complete, can_receive, can_send, can_take, next_value, number_of};
use std::marker::Model;

/// The shared cells, semaphores and channels of a run: its world without the processes.
#[derive(Drop)]
pub(crate) struct Store {
    pub(crate) shared: Nums,
    pub(crate) sems: Vec<Counts>,
    pub(crate) chans: Vec<Channel>,
}

impl Model for Store {
    ghost use Rattle.ppd_model.specs.World.{World};
    ghost use Rattle.ppd_world_steps.specs.Objects.{store};

    ghost Value = { World };

    ghost view = { λ s. store s.shared s.sems.items s.chans.items };
}

impl Store {
    /// The values of the shared cells.
    pub(crate) fn cells(&self) -> &[i64]
        ensures { result.now ≡ self.now.shared }
    {
        self.shared.as_slice()
    }

    /// Whether a step of this need can be taken.
    pub(crate) fn is_met(&self, need: Need) -> bool
        ensures { result ≡ can self.now need }
    {
        match need {
            Need::Stopped => false,
            Need::P { sem, .. } => can_take(&self.sems, sem),
            Need::Send { chan, .. } | Need::Offer { chan, .. } => can_send(&self.chans, chan),
            Need::Done { chan, .. } => can_complete(&self.chans, chan),
            Need::Recv { chan, .. } => can_receive(&self.chans, chan),
            _ => true,
        }
    }

    /// What a step of this need is given.
    pub(crate) fn answer_to(&self, need: Need) -> Answer
        ensures { result ≡ answer_of self.now need }
    {
        match need {
            Need::Read(cell) => Answer::Value(value_at(self.shared.as_slice(), cell as usize)),
            Need::Recv { chan, .. } => Answer::Value(next_value(&self.chans, chan)),
            _ => Answer::Go,
        }
    }

    /// The number that a synchronization of this need takes.
    pub(crate) fn number_of(&self, need: Need) -> Option<u32>
        requires sems { All IsSmallSem self.now.sems }
        requires chans { All IsSmallChan self.now.chans }
        ensures { result ≡ number_of_need self.now need }
    {
        number_of(&self.sems, &self.chans, need)
    }

    /// Appends the value that the step sends, where it sends one. `Memory` is want of memory: nothing
    /// changes.
    pub(crate) fn send(&mut self, need: Need) -> Result<(), Memory>
        ensures ok { OnOk result (self.new ≡ sent self.old need) }
        ensures err { OnErr result (self.new ≡ self.old) }
    {
        match need {
            Need::Send { chan, value, .. } => push_value(&mut self.chans, chan, value),
            Need::Offer { chan, value } => push_value(&mut self.chans, chan, value),
            _ => Ok(()),
        }
    }

    /// Takes the value back that the step sent, where it sent one.
    pub(crate) fn take_back(&mut self, need: Need)
        ensures { self.new ≡ unsent self.old need }
    {
        match need {
            Need::Send { chan, .. } | Need::Offer { chan, .. } => drop_last(&mut self.chans, chan),
            _ => {}
        }
    }

    /// Does all else that a step of this need does to the shared state.
    pub(crate) fn finish(&mut self, need: Need)
        requires sems { All IsSmallSem self.old.sems }
        requires chans { All IsReceivable self.old.chans }
        ensures { self.new ≡ finished self.old need }
    {
        match need {
            Need::Write(cell, value) => self.shared.set(cell as usize, value),
            Need::P { sem, .. } => take(&mut self.sems, sem),
            Need::V { sem, .. } => give(&mut self.sems, sem),
            Need::Recv { chan, .. } => receive(&mut self.chans, chan),
            Need::Done { chan, .. } => complete(&mut self.chans, chan),
            _ => {}
        }
    }
}
