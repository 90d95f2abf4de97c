ghost use Rattle.ppd_model.specs.Setting.{setting_of};
ghost use Rattle.std.specs.Prelude.{◌≡◌, ◌+◌, ◌-◌, ◌<◌, ◌≤◌, ◌↔◌, ◌∷◌, [], length, replicate, slice_get, true, IsTrue, IfErr, IfNone, IfOk, IfSome, OnOk, OnErr, List, ℕ, Some};
ghost use Rattle.ppd_ast.specs.Valid.{IsValid};
ghost use Rattle.ppd_ast.specs.ValidPlan.{IsValidPlan};
ghost use Rattle.ppd_model.specs.Laws.{logged_moment};
ghost use Rattle.ppd_model.specs.Logs.{close as close_of};
ghost use Rattle.ppd_model.specs.Schedule.{IsOver};
ghost use Rattle.ppd_world.specs.Plain.{ComesPlainly, ComesPrinting, stepped_times};
ghost use Rattle.ppd_world.specs.Running.{IsCause, IsDriven, IsFollowed, IsLowest, IsOf, IsPaidStep, IsReached, Takes, begun, can_step, closed_run as closed_of, stepped};

use crate::closing::close_all;
use crate::logging::{go_on, go_on_printing};
use crate::needs::{look_at, need_at, set_need, start_needs};
use crate::starting::{start_chans, start_logs, start_sems};
use crate::stepping::{next_step, take_step};
use crate::store::Store;
use ppd_ast::limits::MOST_BUDGET;
use ppd_ast::{Memory, Nums, Plan, Program};
use ppd_model::{Closed, DriveError, Logging, Taken};
use ppd_sem::{Need, Proc};
use ppd_world_steps::Code;
use std::alloc::Global;
use std::marker::Model;

/// The shared state of a program's run with all its processes and their logs. What each process needs is kept
/// from its last step on, so that no statement is evaluated twice for it.
#[derive(Drop)]
pub struct World<'a> {
    code: Code<'a>,
    budget: u32,
    store: Store,
    loggings: Vec<Logging>,
    needs: Vec<Need>,
}

impl<'a> Model for World<'a> {
    ghost use Rattle.std.specs.Prelude.{◌≡◌};
    ghost use Rattle.ppd_world.specs.Parts.{needs_of, world_of};
    ghost use Rattle.ppd_world.specs.Running.{Running};
    ghost use Rattle.ppd_model.specs.Setting.{setting_of};

    ghost Value = { Running };

    ghost view = { λ w. record {
      setting = setting_of w.code.program.now w.code.plan.now w.budget;
      world = world_of w.store w.loggings.items;
      loggings = w.loggings.items;
    } };

    ghost invariant = { λ w. w.needs.items ≡ needs_of w.code.program.now w.code.plan.now w.loggings.items };
}

fn copy_values(values: &Nums) -> Result<Nums, Memory>
    ensures { IfOk result (λ copy. copy ≡ values.now) }
{
    Ok(values.clone()?)
}

/// How many processes a valid program has.
fn process_count(program: &Program) -> u8
    requires { IsValid program.now }
    ensures is { result ≡ length program.now.bodies - program.now.functions }
    ensures within { program.now.functions + result ≤ length program.now.bodies }
{
    (program.bodies.len() - program.functions as usize) as u8
}

impl<'a> World<'a> {
    /// The world of a valid program with a valid plan before the first step. The budget, at most
    /// 500,000, is that of each process. `Memory` is want of memory.
    pub fn new(
        alloc: Global,
        program: &'a Program,
        plan: &'a Plan,
        budget: u32,
    ) -> Result<World<'a>, Memory>
        requires program { IsValid program.now }
        requires plan { IsValidPlan program.now plan.now }
        requires budget { budget ≤ MOST_BUDGET }
        ensures world { IfOk result (λ world. world ≡ begun (setting_of program.now plan.now budget)) }
        ensures comes { IfOk result (λ world. IsOf [] world) }
        ensures reached { IfOk result (λ world. IsReached world) }
    {
        let count = process_count(program);
        let loggings = start_logs(alloc, program, plan, budget, count)?;
        let store = Store {
            shared: copy_values(&program.starts)?,
            sems: start_sems(alloc, program)?,
            chans: start_chans(alloc, program)?,
        };
        let code = Code {
            alloc,
            program,
            plan,
        };
        let needs = start_needs(alloc, &code, loggings.as_slice())?;
        Ok(World {
            code,
            budget,
            store,
            loggings,
            needs,
        })
    }

    /// Whether process `p` can take a step; false for a number that is no process.
    pub fn enabled(&self, p: u8) -> bool
        requires { IsReached self.now }
        ensures { result ≡ can_step self.now p }
    {
        self.store
            .is_met(need_at(self.needs.as_slice(), p as usize))
    }

    /// How many processes there are, at most 16: those of the program.
    pub fn process_count(&self) -> u8
        requires { IsReached self.now }
        ensures procs { result ≡ length self.now.world.procs }
        ensures program { result ≡ length self.now.setting.program.bodies - self.now.setting.program.functions }
    {
        process_count(self.code.program)
    }

    /// The lowest process that can take a step, and none where nobody can.
    pub fn lowest(&self) -> Option<u8>
        requires { IsReached self.now }
        ensures some { IfSome result (IsLowest self.now) }
        ensures none { IfNone result (IsOver self.now.setting.program self.now.setting.plan self.now.world) }
    {
        for p in 0..self.process_count() {
            if self.enabled(p) {
                return Some(p);
            }
        }
        None
    }

    /// Whether no process can take a step.
    pub fn over(&self) -> bool
        requires { IsReached self.now }
        ensures { IsTrue result ↔ IsOver self.now.setting.program self.now.setting.plan self.now.world }
    {
        match self.lowest() {
            Some(_) => false,
            None => true,
        }
    }

    /// What the next step of process `p` needs, `Stopped` for a number that is no process, what it is
    /// given, and the number that it takes as a synchronization. The writer of a `Read` is left out.
    pub fn next(&self, p: u8) -> Taken
        requires { IsReached self.now }
        ensures { result ≡ (logged_moment self.now.setting.program self.now.setting.plan self.now.world p).taken }
    {
        next_step(&self.store, need_at(self.needs.as_slice(), p as usize))
    }

    /// The program that is run.
    pub fn program(&self) -> &'a Program
        ensures { result.now ≡ self.now.setting.program }
    {
        self.code.program
    }

    /// Its plan.
    pub fn plan(&self) -> &'a Plan
        ensures { result.now ≡ self.now.setting.plan }
    {
        self.code.plan
    }

    /// The state of process `p`, which is there.
    pub fn proc(&self, p: u8) -> &Proc
        requires { p < length self.now.world.procs }
        ensures { slice_get self.now.world.procs p ≡ Some result.now }
    {
        &self.loggings[p as usize].proc
    }

    /// The values of the shared cells.
    pub fn cells(&self) -> &[i64]
        ensures { result.now ≡ self.now.world.shared }
    {
        self.store.cells()
    }

    /// Takes the step of process `p`.
    fn take(&mut self, p: u8) -> Result<(), Memory>
        requires { IsReached self.old }
        ensures ok { OnOk result (self.new ≡ stepped self.old p) }
        ensures err { OnErr result (self.new ≡ self.old) }
    {
        let place = p as usize;
        take_step(
            &self.code,
            &mut self.store,
            &mut self.loggings,
            &mut self.needs,
            place,
        )
    }

    /// Process `p`, which is enabled, takes its step and writes its entries. The step costs 1 and the count
    /// of the values in the prelog, unit and postlog entries that it writes, and a stop for the budget
    /// nothing, where the plan lists all parameters of its functions' blocks. `Memory` is want of memory:
    /// the world is as before.
    pub fn step(&mut self, p: u8) -> Result<(), Memory>
        requires reached { IsReached self.old }
        requires enabled { can_step self.old p ≡ true }
        ensures ok { OnOk result (self.new ≡ stepped self.old p) }
        ensures comes { OnOk result (Takes self.old (p ∷ []) self.new) }
        ensures cost { OnOk result (IsPaidStep self.old p self.new) }
        ensures err { OnErr result (self.new ≡ self.old) }
        ensures kept { IsReached self.new }
    {
        self.take(p)
    }

    /// Takes so many steps of process `p` at once, each of which needs nothing but the process itself: this is
    /// the state that it comes to by them. It takes no memory.
    pub fn put(&mut self, p: u8, proc: Proc, steps: u32)
        requires reached { IsReached self.old }
        requires comes { ComesPlainly self.old p steps proc }
        ensures steps { self.new ≡ stepped_times self.old p steps }
        ensures comes { Takes self.old (replicate steps p) self.new }
        ensures kept { IsReached self.new }
    {
        let place = p as usize;
        go_on(&mut self.loggings, place, proc, steps);
        let need = look_at(&self.code, self.loggings.as_slice(), place);
        set_need(&mut self.needs, place, need);
    }

    /// Takes so many steps of process `p` at once, each of which needs nothing but the process itself: this is
    /// the state that it would come to by them if it had printed nothing before. Only what they print is
    /// appended to its prints. `Memory` is want of memory: the world is as before.
    pub fn put_printing(&mut self, p: u8, after: Proc, steps: u32) -> Result<(), Memory>
        requires reached { IsReached self.old }
        requires comes { ComesPrinting self.old p steps after }
        ensures steps { OnOk result (self.new ≡ stepped_times self.old p steps) }
        ensures comes { OnOk result (Takes self.old (replicate steps p) self.new) }
        ensures err { OnErr result (self.new ≡ self.old) }
        ensures kept { IsReached self.new }
    {
        let place = p as usize;
        go_on_printing(&mut self.loggings, place, after, steps)?;
        let need = look_at(&self.code, self.loggings.as_slice(), place);
        set_need(&mut self.needs, place, need);
        Ok(())
    }

    /// Takes the step of process `p`, which is number `index` of a schedule.
    fn follow(&mut self, p: u8, index: u32) -> Result<(), DriveError>
        requires { IsReached self.old }
        ensures ok { OnOk result (IsFollowed self.old p self.new) }
        ensures err { OnErr result (self.new ≡ self.old) }
        ensures cause { IfErr result (IsCause self.new p index) }
        ensures kept { IsReached self.new }
    {
        if !self.enabled(p) {
            return Err(DriveError::NotEnabled(index));
        }
        self.step(p)?;
        Ok(())
    }

    /// Takes the steps of a schedule, as far as each number names an enabled process.
    /// `NotEnabled(n)`: the first `n` steps were taken, and number `n`, from 0, is the first that
    /// names none. `Memory` is want of memory: some first steps were taken, and the next number names
    /// an enabled process.
    pub fn drive(&mut self, schedule: &[u8]) -> Result<(), DriveError>
        requires { IsReached self.old }
        ensures driven { IsDriven self.old schedule.now self.new result }
        ensures kept { IsReached self.new }
    {
        for index in 0..schedule.len() {
            let p = schedule[index];
            self.follow(p, index as u32)?;
        }
        Ok(())
    }

    /// The logs of a run in which nobody can take a step, and how each process ended. `Memory` is
    /// want of memory: the world is gone.
    pub fn close(self) -> Result<Closed, Memory>
        requires reached { IsReached self }
        requires over { IsOver self.setting.program self.setting.plan self.world }
        ensures closed { IfOk result (λ closed. closed ≡ closed_of self.entry) }
        ensures whole { IfOk result
            (λ closed. (h : List ℕ) → IsOf h self.entry
            → closed ≡ close_of self.entry.setting h) }
    {
        close_all(self.code.alloc, self.code.program, self.loggings)
    }
}
