ghost use Rattle.std.specs.Prelude.{◌≡◌, ◌≤◌, ◌+◌, ◌-◌, length, is_some, IfNone};
ghost use Rattle.std.specs.List.{range_with_len};
ghost use Rattle.ppd_graph.specs.ByNumber.{greatest_kept, node_kept, numbered_kept};
ghost use Rattle.ppd_graph.specs.Spending.{chan_numbers, done_numbers, missing_cost, object_numbers, objects_cost, sem_numbers};
ghost use Rattle.ppd_graph.specs.Refusals.{absent as absent_by, first_missing, missing_by, missing_of_places as missing_of_room, object_count, object_misses};
ghost use Rattle.ppd_model.specs.Tables.{capacity_of as capacity_in_program};

use crate::by_number::{ByNumber, start_of};
use crate::greatest::Greatest;
use ppd_ast::limits::MOST_NAMED;
use ppd_ast::{Program, Steps, SyncKind};
use ppd_model::capacity_of;
use std::sync::ledger::Ledger;

/// A synchronization that is not there: its kind, its object and its number.
pub(crate) type Missing = (SyncKind, u8, u32);

/// Which synchronizations of a program there are, and the greatest numbers.
#[derive(Drop)]
pub(crate) struct Numbers<'a> {
    pub(crate) program: &'a Program,
    pub(crate) nodes: &'a ByNumber,
    pub(crate) greatest: &'a Greatest,
}

/// The objects of synchronizations.
#[derive(Clone, Copy)]
pub(crate) enum Objects {
    Semaphores,
    Channels,
}

// How many of these the program has.
fn count_of(program: &Program, objects: Objects) -> usize
    ensures { result ≡ object_count objects program.now }
{
    match objects {
        Objects::Semaphores => program.sems.len(),
        Objects::Channels => program.chans.len(),
    }
}

impl<'a> Numbers<'a> {
    // The first of the numbers after `first` through `last` that is not there.
    fn absent<L: Ledger>(
        &self,
        kind: SyncKind,
        object: u8,
        first: u32,
        last: u32,
        steps: &mut Steps<L>,
    ) -> Option<u32>
        ensures cost { steps.new ≤ steps.old + (last - first) }
        ensures taken { IfNone result (steps.new ≡ steps.old + (last - first)) }
        ensures value { result ≡ absent_by first last (λ n. is_some (node_kept self.now.nodes.now kind object n)) }
    {
        for before in first..last {
            steps.tick();
            let number = before + 1;
            if self.nodes.find(kind, object, number).is_none() {
                return Some(number);
            }
        }
        None
    }

    fn missing_of_sem<L: Ledger>(&self, sem: u8, steps: &mut Steps<L>) -> Option<Missing>
        ensures cost { steps.new ≤ steps.old + sem_numbers self.now.program.now self.now.greatest.now sem }
        ensures taken { IfNone result
            (steps.new ≡ steps.old + sem_numbers self.now.program.now self.now.greatest.now sem) }
        ensures value { result
            ≡ object_misses Objects.Semaphores self.now.program.now
            (numbered_kept self.now.nodes.now self.now.greatest.now) sem }
    {
        let start = start_of(self.program, sem);
        let taken = self.greatest.of(SyncKind::P, sem);
        let given = start.max(self.greatest.of(SyncKind::V, sem));
        if let Some(number) = self.absent(SyncKind::P, sem, 0, taken, steps) {
            return Some((SyncKind::P, sem, number));
        }
        if let Some(number) = self.absent(SyncKind::V, sem, start, given, steps) {
            return Some((SyncKind::V, sem, number));
        }
        if given < taken {
            return Some((SyncKind::V, sem, given + 1));
        }
        None
    }

    // Of a channel of capacity 0, with so many sent and received.
    fn missing_of_handover<L: Ledger>(
        &self,
        chan: u8,
        sent: u32,
        received: u32,
        steps: &mut Steps<L>,
    ) -> Option<Missing>
        ensures cost { steps.new ≤ steps.old + greatest_kept self.now.greatest.now SyncKind.Done chan }
        ensures taken { IfNone result (steps.new ≡ steps.old + greatest_kept self.now.greatest.now SyncKind.Done chan) }
        ensures value { result
            ≡ missing_of_room 0 chan sent received
            (numbered_kept self.now.nodes.now self.now.greatest.now SyncKind.Done chan) }
    {
        let completed = self.greatest.of(SyncKind::Done, chan);
        if received < completed {
            return Some((SyncKind::Recv, chan, received + 1));
        }
        if let Some(number) = self.absent(SyncKind::Done, chan, 0, completed, steps) {
            return Some((SyncKind::Done, chan, number));
        }
        if completed < sent && completed + 1 < sent {
            return Some((SyncKind::Done, chan, completed + 1));
        }
        None
    }

    // What a send finds no place without.
    fn missing_of_places<L: Ledger>(
        &self,
        chan: u8,
        sent: u32,
        received: u32,
        steps: &mut Steps<L>,
    ) -> Option<Missing>
        ensures cost { steps.new
            ≤ steps.old + done_numbers (capacity_in_program self.now.program.now chan) self.now.greatest.now chan }
        ensures taken { IfNone result
            (steps.new
            ≡ steps.old + done_numbers (capacity_in_program self.now.program.now chan) self.now.greatest.now chan) }
        ensures value { result
            ≡ missing_of_room (capacity_in_program self.now.program.now chan) chan sent received
            (numbered_kept self.now.nodes.now self.now.greatest.now SyncKind.Done chan) }
    {
        let capacity = u32::from(capacity_of(self.program, chan));
        if capacity == 0 {
            return self.missing_of_handover(chan, sent, received, steps);
        }
        if received < sent && capacity < sent - received {
            return Some((SyncKind::Recv, chan, received + 1));
        }
        None
    }

    fn missing_of_chan<L: Ledger>(&self, chan: u8, steps: &mut Steps<L>) -> Option<Missing>
        ensures cost { steps.new ≤ steps.old + chan_numbers self.now.program.now self.now.greatest.now chan }
        ensures taken { IfNone result
            (steps.new ≡ steps.old + chan_numbers self.now.program.now self.now.greatest.now chan) }
        ensures value { result
            ≡ object_misses Objects.Channels self.now.program.now
            (numbered_kept self.now.nodes.now self.now.greatest.now) chan }
    {
        let sent = self.greatest.of(SyncKind::Send, chan);
        let received = self.greatest.of(SyncKind::Recv, chan);
        if let Some(number) = self.absent(SyncKind::Send, chan, 0, sent, steps) {
            return Some((SyncKind::Send, chan, number));
        }
        if sent < received {
            return Some((SyncKind::Send, chan, sent + 1));
        }
        if let Some(number) = self.absent(SyncKind::Recv, chan, 0, received, steps) {
            return Some((SyncKind::Recv, chan, number));
        }
        self.missing_of_places(chan, sent, received, steps)
    }

    // Of one of the objects.
    fn missing_of<L: Ledger>(
        &self,
        objects: Objects,
        object: u8,
        steps: &mut Steps<L>,
    ) -> Option<Missing>
        ensures cost { steps.new
            ≤ steps.old + object_numbers objects self.now.program.now self.now.greatest.now object }
        ensures taken { IfNone result
            (steps.new ≡ steps.old + object_numbers objects self.now.program.now self.now.greatest.now object) }
        ensures value { result
            ≡ object_misses objects self.now.program.now
            (numbered_kept self.now.nodes.now self.now.greatest.now) object }
    {
        match objects {
            Objects::Semaphores => self.missing_of_sem(object, steps),
            Objects::Channels => self.missing_of_chan(object, steps),
        }
    }

    fn missing_among<L: Ledger>(&self, objects: Objects, steps: &mut Steps<L>) -> Option<Missing>
        requires { object_count objects self.now.program.now ≤ MOST_NAMED }
        ensures cost { steps.new ≤ steps.old + objects_cost objects self.now.program.now self.now.greatest.now }
        ensures taken { IfNone result
            (steps.new ≡ steps.old + objects_cost objects self.now.program.now self.now.greatest.now) }
        ensures value { result
            ≡ first_missing (object_misses objects self.now.program.now
            (numbered_kept self.now.nodes.now self.now.greatest.now))
            (range_with_len 0 (object_count objects self.now.program.now)) }
    {
        let count = count_of(self.program, objects);
        for object in 0..count {
            steps.tick();
            let missing = self.missing_of(objects, object as u8, steps);
            if missing.is_some() {
                return missing;
            }
        }
        None
    }

    /// The first missing synchronization, semaphores before channels.
    pub(crate) fn missing<L: Ledger>(&self, steps: &mut Steps<L>) -> Option<Missing>
        requires sems { length self.now.program.now.sems ≤ MOST_NAMED }
        requires chans { length self.now.program.now.chans ≤ MOST_NAMED }
        ensures cost { steps.new ≤ steps.old + missing_cost self.now.program.now self.now.greatest.now }
        ensures taken { IfNone result
            (steps.new ≡ steps.old + missing_cost self.now.program.now self.now.greatest.now) }
        ensures value { result
            ≡ missing_by self.now.program.now (numbered_kept self.now.nodes.now self.now.greatest.now) }
    {
        if let Some(missing) = self.missing_among(Objects::Semaphores, steps) {
            return Some(missing);
        }
        self.missing_among(Objects::Channels, steps)
    }
}
