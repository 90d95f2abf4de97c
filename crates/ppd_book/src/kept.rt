ghost use Rattle.std.specs.Prelude.{◌≡◌, ℕ, ◌++◌, ◌∷◌, List, [], replicate, true, IfNone, IfOk, IfSome, OnErr, OnOk};
ghost use Rattle.ppd_model.specs.Schedule.{IsOver};
ghost use Rattle.ppd_world.specs.Plain.{ComesPrinting, stepped_times};
ghost use Rattle.ppd_world.specs.Running.{IsHeld, IsLowest, IsOf, IsReached, Takes, can_step, stepped};

use crate::commit::Commit;
use crate::going::Going;
use crate::job::Job;
use crate::turn::{Ran, Turn};
use crate::view::View;
use ppd_ast::{Bytes, Memory};
use ppd_book_steps::{is_current, step_down};
use ppd_model::schedules_are_bounded;
use ppd_sem::{Need, Proc};
use ppd_world::World;
use std::alloc::Global;
use std::marker::{Model, PhantomData};

/// Appends this number so many times. `Memory` is want of memory: the list is as before.
fn write_down(schedule: &mut Bytes, number: u8, count: u32) -> Result<(), Memory>
    ensures ok { OnOk result (schedule.new ≡ schedule.old ++ replicate count number) }
    ensures err { OnErr result (schedule.new ≡ schedule.old) }
{
    let first = schedule.len();
    for _index in 0..count {
        if schedule.push(number).is_err() {
            schedule.truncate(first);
            return Err(Memory);
        }
    }
    Ok(())
}

/// Puts the state that process `p` comes to by so many steps in its place, and writes its number down once for
/// each. `Memory` is want of memory: nothing changes.
fn put_down(
    world: &mut World<'_>,
    schedule: &mut Bytes,
    p: u8,
    after: Proc,
    steps: u32,
) -> Result<(), Memory>
    requires reached { IsReached world.old }
    requires comes { ComesPrinting world.old p steps after }
    ensures world { OnOk result (world.new ≡ stepped_times world.old p steps) }
    ensures schedule { OnOk result (schedule.new ≡ schedule.old ++ replicate steps p) }
    ensures same_world { OnErr result (world.new ≡ world.old) }
    ensures same_schedule { OnErr result (schedule.new ≡ schedule.old) }
    ensures comes { OnOk result (Takes world.old (replicate steps p) world.new) }
    ensures kept { IsReached world.new }
{
    let first = schedule.len();
    match write_down(schedule, p, steps) {
        Ok(()) => match world.put_printing(p, after, steps) {
            Ok(()) => Ok(()),
            Err(_) => {
                schedule.truncate(first);
                Err(Memory)
            }
        },
        Err(error) => {
            drop(after);
            Err(error)
        }
    }
}

/// What lies under the lock: a world of the run that `J` names, and the schedule that led to it: the
/// numbers of the processes that were stepped. The world and its logs are always those of this schedule.
#[derive(Drop)]
pub struct Kept<'a, J: Job> {
    pub world: World<'a>,
    pub schedule: Bytes,
    of: PhantomData<J>,
}

impl<'a, J: Job> Model for Kept<'a, J> {
    ghost use Rattle.ppd_book.specs.Held.{Held};
    ghost use Rattle.ppd_world.specs.Running.{IsHeld};

    ghost Value = { Held };

    ghost view = { λ k. record { world = k.world; schedule = k.schedule } };

    ghost invariant = { λ k. IsHeld J.setting k.world k.schedule };
}

impl<'a, J: Job> Kept<'a, J> {
    ghost use Rattle.ppd_book.specs.Gone.{HasGone, IsOfWorker, WantsToGo};
    ghost use Rattle.ppd_book.specs.Turns.{CanGoOn, ClosesFrom, GoesLowest, IsOfProcess, IsTurn, KeepsBudget, RanToEnd};
    ghost use Rattle.ppd_book.specs.Views.{IsCommit, IsCurrent, IsViewed, need_in};
    ghost use Rattle.ppd_sem.specs.declared.proc.Need.TheVariants.{Plain};

    /// A world before its first step, with the empty schedule. Its program, plan and budget are those
    /// that `J` names.
    pub fn new(alloc: Global, world: World<'a>) -> Kept<'a, J>
        requires setting { world.setting ≡ J.setting }
        requires first { IsOf [] world }
        requires reached { IsReached world }
        ensures schedule { result.schedule ≡ [] }
        ensures world { result.world ≡ world.entry }
    {
        Kept {
            world,
            schedule: Bytes::new(alloc),
            of: PhantomData,
        }
    }

    /// The lowest process that can take a step.
    fn lowest(&self) -> Option<u8>
        ensures some { IfSome result (IsLowest self.now.world) }
        ensures none { IfNone result
            (IsOver self.now.world.setting.program self.now.world.setting.plan self.now.world.world) }
        ensures held { IsHeld J.setting self.now.world self.now.schedule }
    {
        self.world.lowest()
    }

    /// Takes the step of process `p`, which can take one, and writes its number down. `Memory` is want
    /// of memory: nothing changes.
    fn take(&mut self, p: u8) -> Result<(), Memory>
        requires { can_step self.old.world p ≡ true }
        ensures world { OnOk result (self.new.world ≡ stepped self.old.world p) }
        ensures schedule { OnOk result (self.new.schedule ≡ self.old.schedule ++ p ∷ []) }
        ensures same { OnErr result (self.new ≡ self.old) }
        ensures held { IsHeld J.setting self.new.world self.new.schedule }
    {
        step_down(&mut self.world, &mut self.schedule, p)
    }

    /// Steps the worker's process where that can take a step, else the lowest process that can.
    /// `Memory` is want of memory: nothing changes, and some process can take a step.
    pub fn turn(&mut self, worker: u8) -> Result<Turn, Memory>
        ensures turn { IfOk result (IsTurn self.old self.new worker) }
        ensures process { IfOk result (IsOfProcess J.setting.program) }
        ensures same { OnErr result (self.new ≡ self.old) }
        ensures cause { OnErr result (CanGoOn self.old.world) }
    {
        if self.world.enabled(worker) {
            self.take(worker)?;
            return Ok(Turn::Stepped(worker));
        }
        match self.lowest() {
            Some(p) => {
                self.take(p)?;
                Ok(Turn::Stepped(p))
            }
            None => Ok(Turn::Over),
        }
    }

    /// The process of this worker on a copy, as it is now but for what it printed, where its next step needs
    /// nothing but the process itself; none where it needs more. `Memory` is want of memory, and the next step
    /// needs nothing else.
    pub fn view(&self, worker: u8) -> Result<Option<View<'a, J>>, Memory>
        ensures view { IfOk result (IsViewed self.now worker) }
        ensures cause { OnErr result (need_in self.now worker ≡ Plain) }
    {
        if !matches!(self.world.next(worker).need, Need::Plain) {
            return Ok(None);
        }
        let proc = self.world.proc(worker);
        Ok(Some(View {
            program: self.world.program(),
            plan: self.world.plan(),
            worker,
            before: proc.copy_unprinted()?,
            after: proc.copy_unprinted()?,
            need: Need::Plain,
            count: 0,
            of: PhantomData,
        }))
    }

    /// A view of this worker's process where there is one, else its turn: `Kept::view`, and where that gives none
    /// `Kept::turn`. `Memory` is want of memory: nothing changes.
    pub fn go(&mut self, worker: u8) -> Result<Going<'a, J>, Memory>
        ensures going { IfOk result (HasGone self.old self.new worker) }
        ensures worker { IfOk result (IsOfWorker J.setting.program worker) }
        ensures same { OnErr result (self.new ≡ self.old) }
        ensures cause { OnErr result (WantsToGo self.old worker) }
    {
        match self.view(worker)? {
            Some(view) => Ok(Going::Viewed(view)),
            None => Ok(Going::Turned(self.turn(worker)?)),
        }
    }

    /// Takes the steps of a view at once, and writes its worker's number down once for each, where the process
    /// is still in the state that was copied; else changes nothing. `Memory` is want of memory: nothing
    /// changes, and the process is in that state.
    pub fn commit(&mut self, view: View<'a, J>) -> Result<Commit, Memory>
        ensures commit { IfOk result (IsCommit self.old self.new view.entry) }
        ensures same { OnErr result (self.new ≡ self.old) }
        ensures cause { OnErr result (IsCurrent self.old view.entry) }
    {
        let View {
            program: _,
            plan: _,
            worker,
            before,
            after,
            need: _,
            count,
            of: _,
        } = view;
        let current = is_current(&self.world, worker, &before);
        drop(before);
        if !current {
            drop(after);
            return Ok(Commit::Stale);
        }
        match put_down(&mut self.world, &mut self.schedule, worker, after, count) {
            Ok(()) => Ok(Commit::Done),
            Err(error) => Err(error),
        }
    }

    /// Takes the turns that are left, lowest process first. `Memory` is want of memory: some were taken.
    fn take_rest(&mut self) -> Result<(), Memory>
        ensures over { OnOk result
            (IsOver self.new.world.setting.program self.new.world.setting.plan self.new.world.world) }
        ensures taken { OnOk result ((rest : List ℕ) × (self.new.schedule ≡ self.old.schedule ++ rest)
            × GoesLowest self.old.world rest self.new.world) }
    {
        while let Some(p) = self.lowest() {
            self.take(p)?;
        }
        Ok(())
    }

    /// The schedule with its closed state, where nobody can take a step. `Memory` is want of memory: the value is
    /// gone.
    fn hand_out(self) -> Result<Ran, Memory>
        requires { IsOver self.world.setting.program self.world.setting.plan self.world.world }
        ensures end { IfOk result (RanToEnd J.setting) }
        ensures schedule { IfOk result (λ ran. ran.schedule ≡ self.entry.schedule) }
        ensures bounded { IfOk result (λ ran. KeepsBudget J.setting.program J.setting.budget ran.schedule) }
    {
        schedules_are_bounded();
        let Kept {
            world,
            schedule,
            of: _,
        } = self;
        match world.close() {
            Ok(closed) => Ok(Ran { schedule, closed }),
            Err(error) => {
                drop(schedule);
                Err(error)
            }
        }
    }

    /// Takes the turns that are left, lowest process first, and hands out the schedule with its closed
    /// state. Where nobody can take a step, none are left. `Memory` is want of memory: the value is gone.
    pub fn close(mut self) -> Result<Ran, Memory>
        ensures closes { IfOk result (ClosesFrom J.setting self.entry) }
        ensures bounded { IfOk result (λ ran. KeepsBudget J.setting.program J.setting.budget ran.schedule) }
        ensures none_left { IfOk result
            (λ ran. IsOver self.entry.world.setting.program self.entry.world.setting.plan self.entry.world.world
            → ran.schedule ≡ self.entry.schedule) }
    {
        match self.take_rest() {
            Ok(()) => self.hand_out(),
            Err(error) => {
                drop(self);
                Err(error)
            }
        }
    }
}
