ghost use Rattle.std.specs.Prelude.{◌≡◌, IfOk, slice_get, take, option_and_then};
ghost use Rattle.ppd_ast.specs.declared.plan.BlockKind.TheVariants as block;
ghost use Rattle.ppd_ast.specs.Lookups.{kind_of};
ghost use Rattle.ppd_flow_local.specs.Searches.{IsControlFound, IsFound, IsPlace, IsSearch, plan_in, program_in, seen};
ghost use Rattle.std.specs.Option.{option_or};
ghost use Rattle.ppd_graph.specs.Control.{call_or_entry as call_or_entry_of, control_above as control_above_of, control_in as control_in_of, control_outside as control_outside_of, last_test as last_test_among, leaf_call_at, test_of_run as test_of_run_by, test_round as test_round_by};
ghost use Rattle.ppd_graph.specs.Seen.{kind_at};

use crate::search::{Place, Search};
use crate::testing::last_test;
use ppd_ast::{BlockKind, Memory, Steps};
use ppd_flow_local_tables::frame_in;
use ppd_flow_tables::FlowError;
use ppd_graph::{LastTest, LeafCall};
use ppd_model::Origin;
use std::sync::ledger::Ledger;

fn first_of(first: Option<Origin>, second: Option<Origin>) -> Option<Origin>
    ensures { result ≡ option_or first second }
{
    match first {
        Some(_) => first,
        None => second,
    }
}

impl<'a> Search<'a> {
    /// The latest test of a statement before a place in the activation of a frame.
    fn last_test(&self, place: &Place, frame: u8, stmt: u32) -> Result<Option<LastTest>, Memory>
        requires past { IsSearch self.now }
        requires place { IsPlace self.now place.now }
        ensures { IfOk result (λ found. found
            ≡ last_test_among (program_in self.now) (plan_in self.now) frame stmt
            (take place.now.item place.now.items.now)) }
    {
        if let Some(tables) = self.tables_of(place.interval) {
            return Ok(tables.locals.last_test(frame, stmt, place.item));
        }
        last_test(&self.code(), frame, stmt, &place.items[..place.item])
    }

    /// The previous test of a loop run that goes on at a place.
    fn test_of_run(&self, place: &Place, frame: u8, stmt: u32) -> Result<Option<Origin>, Memory>
        requires past { IsSearch self.now }
        requires place { IsPlace self.now place.now }
        ensures { IfOk result (λ origin. origin ≡ test_of_run_by self.now.process place.now.interval
            (kind_of (program_in self.now) stmt)
            (last_test_among (program_in self.now) (plan_in self.now) frame stmt
            (take place.now.item place.now.items.now))) }
    {
        if !self.past.program.is_while(stmt) {
            return Ok(None);
        }
        match self.last_test(place, frame, stmt)? {
            Some(test) if test.passed => Ok(Some(self.origin(place.interval, test.item))),
            _ => Ok(None),
        }
    }

    /// The latest test before a place of the statement in which this one directly stands.
    fn test_round(&self, place: &Place, frame: u8, stmt: u32) -> Result<Option<Origin>, Memory>
        requires past { IsSearch self.now }
        requires place { IsPlace self.now place.now }
        ensures { IfOk result (λ origin. origin
            ≡ test_round_by (program_in self.now) (plan_in self.now) self.now.process place.now.interval frame
            (take place.now.item place.now.items.now)
            (option_and_then (λ x. x.parent) (slice_get (program_in self.now).stmts stmt))) }
    {
        let Some(outer) = self.past.program.parent_of(stmt) else {
            return Ok(None);
        };
        match self.last_test(place, frame, outer)? {
            Some(test) => Ok(Some(self.origin(place.interval, test.item))),
            None => Ok(None),
        }
    }

    /// The call of an activation without an interval of its own.
    fn leaf_call(&self, interval: u32, leaf: Option<LeafCall>) -> Option<Origin>
        ensures { result ≡ leaf_call_at self.now.process interval leaf }
    {
        match leaf {
            Some(call) => Some(self.origin(interval, call.item)),
            None => None,
        }
    }

    /// The control parent of a statement in an interval before a place.
    fn control_in(&self, place: &Place, stmt: u32) -> Result<Option<Origin>, Memory>
        requires past { IsSearch self.now }
        requires place { IsPlace self.now place.now }
        ensures { IfOk result (λ origin. origin
            ≡ control_in_of (program_in self.now) (plan_in self.now) (seen self.now) self.now.process
            place.now.interval place.now.item stmt) }
    {
        let leaf = self.leaf_at(place)?;
        let frame = frame_in(leaf);
        let run = self.test_of_run(place, frame, stmt)?;
        let round = self.test_round(place, frame, stmt)?;
        let call = self.leaf_call(place.interval, leaf);
        Ok(first_of(run, first_of(round, call)))
    }

    /// The call that began an interval of a function; else the process.
    fn call_or_entry<L: Ledger>(
        &self,
        interval: u32,
        steps: &mut Steps<L>,
    ) -> Result<Origin, FlowError>
        requires { IsSearch self.now }
        ensures { let kind = kind_at (plan_in self.now) (seen self.now) interval in
            IsFound self.now (call_or_entry_of (seen self.now) self.now.process interval kind)
            steps.old steps.new result }
    {
        match self.kind(interval) {
            BlockKind::Function(_) => self.call_of(interval, steps),
            _ => Ok(Origin::Entry),
        }
    }

    /// The control parent of a statement in an interval before a place, or what began the interval.
    fn control_outside<L: Ledger>(
        &self,
        place: &Place,
        stmt: u32,
        steps: &mut Steps<L>,
    ) -> Result<Origin, FlowError>
        requires past { IsSearch self.now }
        requires place { IsPlace self.now place.now }
        ensures { IsFound self.now
            (control_outside_of (program_in self.now) (plan_in self.now) (seen self.now) self.now.process
            place.now.interval place.now.item stmt)
            steps.old steps.new result }
    {
        match self.control_in(place, stmt)? {
            Some(origin) => Ok(origin),
            None => self.call_or_entry(place.interval, steps),
        }
    }

    /// What let an interval of a loop run: the control parent of the loop in the interval round it.
    fn control_round<L: Ledger>(
        &self,
        interval: u32,
        stmt: u32,
        steps: &mut Steps<L>,
    ) -> Result<Origin, FlowError>
        requires { IsSearch self.now }
        ensures { IsFound self.now
            (control_above_of (program_in self.now) (plan_in self.now) (seen self.now) self.now.process interval
            (block.Loop stmt))
            steps.old steps.new result }
    {
        let outer = self.outer(interval);
        let items = self.items(outer, steps)?;
        let place = Place {
            interval: outer,
            items: items.as_slice(),
            item: self.place_of(outer, items.as_slice(), interval),
        };
        self.control_outside(&place, stmt, steps)
    }

    /// What let an interval run.
    fn control_above<L: Ledger>(
        &self,
        interval: u32,
        steps: &mut Steps<L>,
    ) -> Result<Origin, FlowError>
        requires { IsSearch self.now }
        ensures { let kind = kind_at (plan_in self.now) (seen self.now) interval in
            IsFound self.now
            (control_above_of (program_in self.now) (plan_in self.now) (seen self.now) self.now.process interval kind)
            steps.old steps.new result }
    {
        match self.kind(interval) {
            BlockKind::Loop(stmt) => self.control_round(interval, stmt, steps),
            _ => self.call_or_entry(interval, steps),
        }
    }

    /// The control parent of a statement at a place: the previous test of its loop run, the latest test of the
    /// statement in which it directly stands, the call, or the process. The interval of the place is not replayed. The
    /// counter rises by the own steps of the intervals that are replayed, each once.
    ///
    /// `Diverged`: the replay of one of these intervals fails, the first that does. `Memory` is want of memory, also
    /// for items that have no 32-bit numbers. No other error comes.
    pub fn control_origin<L: Ledger>(
        &self,
        place: &Place,
        stmt: u32,
        steps: &mut Steps<L>,
    ) -> Result<Origin, FlowError>
        requires past { IsSearch self.now }
        requires place { IsPlace self.now place.now }
        ensures { IsControlFound self.now place.now stmt steps.old steps.new result }
    {
        match self.control_in(place, stmt)? {
            Some(origin) => Ok(origin),
            None => self.control_above(place.interval, steps),
        }
    }
}
