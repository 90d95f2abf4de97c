// The intervals of a process as a run goes on, with its events.
ghost use Rattle.std.specs.Prelude.{◌≡◌, true, drop, Some, IfOk, OnOk};
ghost use Rattle.ppd_model.specs.FullTrace.{event_of as event_of_step};
ghost use Rattle.ppd_model.specs.Marks.{marked};
ghost use Rattle.ppd_model.specs.World.{change};
ghost use Rattle.ppd_sem.specs.Described.{is_event};
ghost use Rattle.ppd_sem.specs.Process.{need_of};
ghost use Rattle.ppd_sem.specs.Runs.{IsNumbered, IsRunnable, IsRunning};
ghost use Rattle.ppd_rerun_ran.specs.Holding.{begun_in, change_inner, entered_by, hold_entered, hold_event, hold_left, hold_step, left_with, new_kept as new_kept_of, with_one};
ghost use Rattle.ppd_rerun_ran.specs.Seeing.{seen};

use ppd_ast::{Memory, Nums, Seq};
use ppd_model::{Taken, closed_block};
use ppd_rerun_guide::Setting;
use ppd_sem::{Event, Need, Proc, Stack, describe};
use std::alloc::Global;

/// What stands in an interval: an event of its own, or an interval directly inside it, by number.
#[derive(Clone, Copy)]
pub enum Part {
    Own(u32),
    Nested(u32),
}

/// An interval: its block, its parts, and the values of its postlog, none where it was not left.
#[derive(Drop)]
pub struct Kept {
    pub block: u16,
    pub parts: Seq<Part>,
    pub values: Nums,
    pub closed: bool,
}

/// The events of a process so far, its intervals, and the numbers of those that run, the innermost at the top.
#[derive(Drop)]
pub struct Held {
    pub events: Seq<Event>,
    pub spans: Vec<Kept>,
    pub running: Stack<u32>,
}

/// A number in 32 bits. `Memory` where it has more.
pub fn number(n: usize) -> Result<u32, Memory>
    ensures { IfOk result (λ small. small ≡ n) }
{
    u32::try_from(n).map_err(|_| Memory)
}

/// The block that a step of this need enters.
fn entered(need: Need) -> Option<u16>
    ensures { result ≡ entered_by need }
{
    match need {
        Need::Enter { block, .. } => Some(block),
        Need::Invoke { block, .. } => block,
        _ => None,
    }
}

/// An interval of this block that begins.
fn new_kept(alloc: Global, block: u16) -> Kept
    ensures { result ≡ new_kept_of block }
{
    Kept {
        block,
        parts: Seq::new(alloc),
        values: Nums::new(alloc),
        closed: false,
    }
}

/// One more part of an interval.
fn put_part(kept: &mut Kept, part: Part) -> Result<(), Memory>
    ensures { OnOk result (kept.new ≡ with_one part kept.old) }
{
    kept.parts.push(part)
}

/// The same of the interval of this number.
fn put_at(spans: &mut Vec<Kept>, place: usize, part: Part) -> Result<(), Memory>
    ensures { OnOk result (spans.new.items ≡ change (with_one part) place spans.old.items) }
{
    if place >= spans.len() {
        return Ok(());
    }
    put_part(&mut spans[place], part)
}

/// An interval is left with these values of its postlog.
fn leave_with(kept: &mut Kept, values: Nums)
    ensures { kept.new ≡ left_with values kept.old }
{
    kept.values = values;
    kept.closed = true;
}

/// The same of the interval of this number.
fn leave_at(spans: &mut Vec<Kept>, place: usize, values: Nums)
    ensures { spans.new.items ≡ change (left_with values) place spans.old.items }
{
    if place < spans.len() {
        leave_with(&mut spans[place], values);
    }
}

/// The event of a step from this state, with the number of a synchronization.
fn event_of(setting: &Setting, proc: &Proc, taken: &Taken) -> Result<Event, Memory>
    requires program { IsRunnable setting.now.program.now }
    requires plan { IsNumbered setting.now.plan.now }
    requires proc { IsRunning setting.now.program.now proc.now }
    requires need { taken.now.need ≡ need_of setting.now.program.now setting.now.plan.now proc.now }
    requires event { is_event taken.now.need ≡ true }
    ensures { IfOk result
        (λ event. event
        ≡ event_of_step setting.now.program.now setting.now.plan.now proc.now taken.now proc.now.todo) }
{
    let mut event = describe(
        setting.alloc,
        setting.program,
        setting.plan,
        proc,
        &taken.answer,
    )?;
    event.number = taken.number;
    Ok(event)
}

impl Held {
    /// Interval 0, of this block, runs and has no part yet.
    pub(crate) fn new(alloc: Global, block: u16) -> Result<Held, Memory>
        ensures { IfOk result (λ held. seen held ≡ begun_in block) }
    {
        let mut spans = Vec::new(alloc);
        spans.push(new_kept(alloc, block))?;
        let mut running = Stack::new(alloc);
        running.push(0)?;
        Ok(Held {
            events: Seq::new(alloc),
            spans,
            running,
        })
    }

    /// One more part of the innermost interval.
    fn put(&mut self, part: Part) -> Result<(), Memory>
        ensures spans { OnOk result
            (self.new.spans.items ≡ change_inner (with_one part) self.old.running self.old.spans.items) }
        ensures events { self.new.events ≡ self.old.events }
        ensures running { self.new.running ≡ self.old.running }
    {
        match self.running.top() {
            Some(top) => put_at(&mut self.spans, *top as usize, part),
            None => Ok(()),
        }
    }

    /// The event is a part of the innermost interval.
    fn put_event(&mut self, event: Event) -> Result<(), Memory>
        ensures { OnOk result (seen self.new ≡ hold_event true event (seen self.old)) }
    {
        let place = number(self.events.len())?;
        self.put(Part::Own(place))?;
        self.events.push(event)
    }

    /// A step that finishes or traps a statement is an event.
    fn tell(&mut self, setting: &Setting, proc: &Proc, taken: &Taken) -> Result<(), Memory>
        requires program { IsRunnable setting.now.program.now }
        requires plan { IsNumbered setting.now.plan.now }
        requires proc { IsRunning setting.now.program.now proc.now }
        requires need { taken.now.need ≡ need_of setting.now.program.now setting.now.plan.now proc.now }
        ensures { OnOk result
            (seen self.new
            ≡ hold_event (is_event taken.now.need)
            (event_of_step setting.now.program.now setting.now.plan.now proc.now taken.now proc.now.todo)
            (seen self.old)) }
    {
        if !taken.need.is_event() {
            return Ok(());
        }
        let event = event_of(setting, proc, taken)?;
        self.put_event(event)
    }

    /// The innermost interval is left, with the values of its postlog.
    fn leave(&mut self, values: Nums)
        ensures spans { self.new.spans.items ≡ change_inner (left_with values) self.old.running self.old.spans.items }
        ensures events { self.new.events ≡ self.old.events }
        ensures running { self.new.running ≡ drop 1 self.old.running }
    {
        match self.running.pop() {
            Some(top) => leave_at(&mut self.spans, top as usize, values),
            None => {}
        }
    }

    /// The same where a step leaves a block.
    fn leave_if(&mut self, left: Option<(u16, Nums)>)
        ensures { seen self.new ≡ hold_left (marked left) (seen self.old) }
    {
        match left {
            Some((_, values)) => self.leave(values),
            None => {}
        }
    }

    /// An interval begins inside the innermost one.
    fn enter(&mut self, alloc: Global, block: u16) -> Result<(), Memory>
        ensures { OnOk result (seen self.new ≡ hold_entered (Some block) (seen self.old)) }
    {
        let place = number(self.spans.len())?;
        self.put(Part::Nested(place))?;
        self.spans.push(new_kept(alloc, block))?;
        self.running.push(place)
    }

    /// The same where a step enters a block.
    fn enter_if(&mut self, alloc: Global, block: Option<u16>) -> Result<(), Memory>
        ensures { OnOk result (seen self.new ≡ hold_entered block (seen self.old)) }
    {
        match block {
            Some(block) => self.enter(alloc, block),
            None => Ok(()),
        }
    }

    /// The step that the process takes from this state: its event, then the intervals that it leaves and enters.
    pub(crate) fn step(
        &mut self,
        setting: &Setting,
        proc: &Proc,
        taken: &Taken,
    ) -> Result<(), Memory>
        requires program { IsRunnable setting.now.program.now }
        requires plan { IsNumbered setting.now.plan.now }
        requires proc { IsRunning setting.now.program.now proc.now }
        requires need { taken.now.need ≡ need_of setting.now.program.now setting.now.plan.now proc.now }
        ensures { OnOk result
            (seen self.new
            ≡ hold_step setting.now.program.now setting.now.plan.now proc.now (seen self.old) taken.now) }
    {
        self.tell(setting, proc, taken)?;
        let left = closed_block(
            setting.alloc,
            setting.program,
            setting.plan,
            proc,
            taken.need,
        )?;
        self.leave_if(left);
        self.enter_if(setting.alloc, entered(taken.need))
    }
}
