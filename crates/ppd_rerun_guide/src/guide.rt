// The guided run: the world that it came to, and what is left of the record.
ghost use Rattle.ppd_model.specs.Setting.{setting_of};
ghost use Rattle.std.specs.Prelude.{◌≡◌, ◌≤◌, ◌<◌, ◌-◌, ◌∷◌, [], Some, drop, get_or, length, map, slice_get, IfOk, OnOk};
ghost use Rattle.std.specs.Bool.{Decides};
ghost use Rattle.ppd_ast.specs.Valid.{IsValid};
ghost use Rattle.ppd_ast.specs.ValidPlan.{IsValidPlan};
ghost use Rattle.ppd_ast.specs.declared.limits.TheConstants.{MOST_BUDGET};
ghost use Rattle.ppd_rerun_guide.specs.Guided.{chosen as chosen_of, guide, guiding, may_step as may_step_of};
ghost use Rattle.ppd_model.specs.Laws.{logged_moment};
ghost use Rattle.ppd_model.specs.RecordedSets.{record_in};
ghost use Rattle.ppd_model.specs.Schedule.{IsOver};
ghost use Rattle.ppd_model.specs.World.{change};
ghost use Rattle.ppd_world.specs.Running.{IsHeld, IsReached, Takes};
ghost use Rattle.ppd_rerun_guide.specs.Guides.{AreEmpty, AreUsedUp, guiding_of, left_of, passed, plain_if};

use crate::setting::Setting;
use crate::synced::{Due, Synced, is_let, sync_of};
use ppd_ast::{Memory, Seq};
use ppd_model::{Entry, Logs, Taken};
use ppd_sem::Proc;
use ppd_world::World;
use std::alloc::Global;

/// The world of the guided run, and for each process what is left of its record.
#[derive(Drop)]
pub struct Guide<'a> {
    pub world: World<'a>,
    pub dues: Vec<Due>,
}

/// The records of these logs, none of which is taken yet.
fn all_due(alloc: Global, lists: &[Seq<Entry>]) -> Result<Vec<Due>, Memory>
    ensures { IfOk result (λ dues. map left_of dues.items ≡ record_in (record { lists = lists.now })) }
{
    let mut dues = Vec::new(alloc);
    for list in lists {
        let due = Due::new(alloc, list.as_slice())?;
        dues.push(due)?;
    }
    Ok(dues)
}

/// A synchronization is taken off the record of a process that is there.
fn pass(dues: &mut Vec<Due>, process: usize)
    ensures { map left_of dues.new.items ≡ change (drop 1) process (map left_of dues.old.items) }
{
    if process < dues.len() {
        dues[process].pass();
    }
}

/// The same where the step is a synchronization.
fn pass_if(syncs: bool, dues: &mut Vec<Due>, process: usize)
    ensures { map left_of dues.new.items ≡ passed syncs process (map left_of dues.old.items) }
{
    if syncs {
        pass(dues, process);
    }
}

/// Whether nothing is left of any of these.
fn are_over(dues: &[Due]) -> bool
    ensures { Decides result (AreEmpty (map left_of dues.now)) }
{
    for due in dues {
        if !due.is_over() {
            return false;
        }
    }
    true
}

impl<'a> Guide<'a> {
    /// Before the first step all of the record is left.
    pub fn new(setting: &Setting<'a>, logs: &Logs, budget: u32) -> Result<Guide<'a>, Memory>
        requires program { IsValid setting.now.program.now }
        requires plan { IsValidPlan setting.now.program.now setting.now.plan.now }
        requires budget { budget ≤ MOST_BUDGET }
        ensures guiding { IfOk result
            (λ g. guiding_of g.world g.dues.items
            ≡ guiding (setting_of setting.now.program.now setting.now.plan.now budget) (record_in logs.now)) }
        ensures begun { IfOk result
            (λ g. IsHeld (setting_of setting.now.program.now setting.now.plan.now budget) g.world []) }
    {
        let world = World::new(setting.alloc, setting.program, setting.plan, budget)?;
        let dues = all_due(setting.alloc, logs.lists.as_slice())?;
        Ok(Guide { world, dues })
    }

    /// What is next of the record of process `p`, if something is left.
    fn due(&self, p: u8) -> Option<Synced>
        ensures { plain_if result ≡ slice_get (get_or (map left_of self.now.dues.items) p []) 0 }
    {
        match self.dues.get(p as usize) {
            Some(due) => due.next(),
            None => None,
        }
    }

    /// Whether process `p` can take a step, and the record lets it.
    fn may_step(&self, p: u8) -> bool
        requires { IsReached self.now.world }
        ensures { result
            ≡ may_step_of self.now.world.setting.program self.now.world.setting.plan
            (guiding_of self.now.world self.now.dues.items) p }
    {
        self.world.enabled(p) && is_let(sync_of(&self.world.next(p)), self.due(p))
    }

    /// The lowest process that may take a step.
    pub fn chosen(&self) -> Option<u8>
        requires { IsReached self.now.world }
        ensures { result
            ≡ chosen_of self.now.world.setting.program self.now.world.setting.plan
            (guiding_of self.now.world self.now.dues.items) }
    {
        for p in 0..self.world.process_count() {
            if self.may_step(p) {
                return Some(p);
            }
        }
        None
    }

    /// How many processes there are.
    pub fn process_count(&self) -> u8
        requires { IsReached self.now.world }
        ensures { result ≡ length self.now.world.setting.program.bodies - self.now.world.setting.program.functions }
    {
        self.world.process_count()
    }

    /// What the next step of process `p` is.
    pub fn next(&self, p: u8) -> Taken
        requires { IsReached self.now.world }
        ensures { result
            ≡ (logged_moment self.now.world.setting.program self.now.world.setting.plan self.now.world.world p).taken }
    {
        self.world.next(p)
    }

    /// The state of process `p`, which is there.
    pub fn proc(&self, p: u8) -> &Proc
        requires { p < length self.now.world.world.procs }
        ensures { slice_get self.now.world.world.procs p ≡ Some result.now }
    {
        self.world.proc(p)
    }

    /// Process `p`, which may, takes its step.
    pub fn step(&mut self, p: u8) -> Result<(), Memory>
        requires reached { IsReached self.old.world }
        requires may { chosen_of self.old.world.setting.program self.old.world.setting.plan
            (guiding_of self.old.world self.old.dues.items) ≡ Some p }
        ensures stepped { OnOk result
            (guiding_of self.new.world self.new.dues.items
            ≡ guide self.old.world.setting.program self.old.world.setting.plan
            (guiding_of self.old.world self.old.dues.items) p) }
        ensures comes { OnOk result (Takes self.old.world (p ∷ []) self.new.world) }
        ensures kept { OnOk result (IsReached self.new.world) }
    {
        let syncs = sync_of(&self.world.next(p)).is_some();
        self.world.step(p)?;
        pass_if(syncs, &mut self.dues, p as usize);
        Ok(())
    }

    /// Whether nothing is left of any process's record, and there is a record for just the processes.
    fn is_used_up(&self) -> bool
        requires { IsReached self.now.world }
        ensures { Decides result
            (AreUsedUp (length self.now.world.world.procs) (map left_of self.now.dues.items)) }
    {
        self.dues.len() == self.world.process_count() as usize && are_over(self.dues.as_slice())
    }

    /// Whether the run is whole with the record of the logs.
    pub fn has_record(&self) -> bool
        requires { IsReached self.now.world }
        ensures { Decides result
            (IsOver self.now.world.setting.program self.now.world.setting.plan self.now.world.world
            × AreUsedUp (length self.now.world.world.procs) (map left_of self.now.dues.items)) }
    {
        self.world.over() && self.is_used_up()
    }
}
