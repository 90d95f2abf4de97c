ghost use Rattle.ppd_model.specs.Setting.{setting_of};
ghost use Rattle.std.specs.Prelude.{◌≡◌, ◌+◌, ◌<◌, ◌≤◌, Some};
ghost use Rattle.law_steps.specs.Theorem.Laws.{GivesIntervals};
ghost use Rattle.ppd_ast.specs.declared.limits.TheConstants.{MOST_CALLS};
ghost use Rattle.ppd_ast.specs.Valid.{IsValid};
ghost use Rattle.ppd_ast.specs.ValidPlan.{IsValidPlan};
ghost use Rattle.ppd_emul.specs.Spending.{HasFewItems};
ghost use Rattle.ppd_emul.specs.Turns.{ended};
ghost use Rattle.ppd_emul_values.specs.Emulated.{IfTold, IsGoing, IsSound, replaying};
ghost use Rattle.ppd_model.specs.Replay.{go_on, replay, replay_from, take_unit as take_unit_of};

use crate::turning::turn;
use law_steps::emulations_give_intervals;
use ppd_ast::{Plan, Program, Steps};
use ppd_emul_values::{Code, IntervalLog, Replayer, Turned, begin, fail, take_unit};
use ppd_model::{BlockTrace, EmulError, Wanted};
use ppd_sem::{block_kind, block_unit, valid_can_run, valid_is_numbered};
use std::alloc::Global;
use std::marker::Brand;
use std::sync::ledger::{Blank, Ledger};

/// What a replay counts: the steps that the interval itself takes, and the turns in which it takes them.
#[derive(Drop)]
pub struct Counters<L: Ledger, T: Ledger> {
    pub own: Steps<L>,
    pub turns: Steps<T>,
}

/// Takes turns until the replay is over, at most one more than the budget, since each that goes on
/// costs at least 1.
fn run<L: Ledger, T: Ledger>(
    code: &Code,
    state: &mut Replayer,
    budget: u32,
    steps: &mut Steps<L>,
    turns: &mut Steps<T>,
) -> Result<(), EmulError>
    requires code { IsSound code.now }
    requires state { IsGoing code.now state.old }
    requires few { state.old.steps ≡ 0 }
    ensures told { IfTold result
        (ended result state.new
        ≡ replay_from code.now.program.now code.now.plan.now (budget + 1) (replaying state.old)) }
    ensures ticks { steps.new + state.old.steps ≡ steps.old + state.new.steps }
    ensures turns { IfTold result (turns.new ≤ turns.old + state.new.steps + 1) }
{
    for _turn in 0..u64::from(budget) + 1 {
        turns.tick();
        match turn(code, state, steps)? {
            Turned::More => {}
            Turned::Done => return Ok(()),
        }
    }
    Err(fail(code.alloc, state, Wanted::Fewer))
}

/// The same from the unit of the block's own start.
fn run_from_unit<L: Ledger, T: Ledger>(
    code: &Code,
    state: &mut Replayer,
    unit: u16,
    budget: u32,
    steps: &mut Steps<L>,
    turns: &mut Steps<T>,
) -> Result<(), EmulError>
    requires code { IsSound code.now }
    requires state { IsGoing code.now state.old }
    requires few { state.old.steps ≡ 0 }
    ensures told { IfTold result
        (ended result state.new
        ≡ go_on (take_unit_of code.now.plan.now (Some unit) (replaying state.old))
        (replay_from code.now.program.now code.now.plan.now (budget + 1))) }
    ensures ticks { steps.new + state.old.steps ≡ steps.old + state.new.steps }
    ensures turns { IfTold result (turns.new ≤ turns.old + state.new.steps + 1) }
{
    match take_unit(code, state, unit)? {
        Turned::More => run(code, state, budget, steps, turns),
        Turned::Done => Ok(()),
    }
}

/// The replay of an interval's log, as it is defined.
fn emulate_log<L: Ledger, T: Ledger>(
    code: &Code,
    log: &IntervalLog,
    budget: u32,
    steps: &mut Steps<L>,
    turns: &mut Steps<T>,
) -> Result<BlockTrace, EmulError>
    requires program { IsValid code.now.program.now }
    requires plan { IsValidPlan code.now.program.now code.now.plan.now }
    requires depth { log.now.depth ≤ MOST_CALLS }
    ensures answer { IfTold result
        (result ≡ (replay code.now.program.now code.now.plan.now log.now budget).answer) }
    ensures steps { IfTold result
        (steps.new ≡ steps.old + (replay code.now.program.now code.now.plan.now log.now budget).steps) }
    ensures turns { IfTold result (turns.new + steps.old ≤ turns.old + steps.new + 1) }
{
    valid_can_run();
    valid_is_numbered();
    let mut state = begin(code, log, budget)?;
    let unit = block_unit(code.plan, block_kind(code.plan, log.block()));
    run_from_unit(code, &mut state, unit, budget, steps, turns)?;
    Ok(BlockTrace { items: state.items })
}

/// The same, with turns that nobody reads.
fn emulate_from<L: Ledger, T: Ledger>(
    code: &Code,
    log: &IntervalLog,
    budget: u32,
    steps: &mut Steps<L>,
    blank: Blank,
) -> Result<BlockTrace, EmulError>
    requires name { blank.name ≡ T.name }
    requires parts { blank.parts ≡ T.parts }
    requires some { 0 < blank.parts }
    requires program { IsValid code.now.program.now }
    requires plan { IsValidPlan code.now.program.now code.now.plan.now }
    requires depth { log.now.depth ≤ MOST_CALLS }
    ensures answer { IfTold result
        (result ≡ (replay code.now.program.now code.now.plan.now log.now budget).answer) }
    ensures steps { IfTold result
        (steps.new ≡ steps.old + (replay code.now.program.now code.now.plan.now log.now budget).steps) }
{
    let mut turns: Steps<T> = Steps::new(blank);
    emulate_log(code, log, budget, steps, &mut turns)
}

/// The replay of one interval, as `emulate` answers it, with its turns counted beside its own steps.
///
/// A turn lets the next statement be evaluated once, looks at the next piece of the log, and takes one step or
/// ends the replay; it goes past at most two pieces, whose values are copied, compared or put in force once. There
/// is at most one turn more than own steps, so the replay's work is linear in its own steps and the values of the
/// log.
pub fn emulate_in<L: Ledger, T: Ledger>(
    alloc: Global,
    program: &Program,
    plan: &Plan,
    log: &IntervalLog,
    budget: u32,
    counters: &mut Counters<L, T>,
) -> Result<BlockTrace, EmulError>
    requires program { IsValid program.now }
    requires plan { IsValidPlan program.now plan.now }
    requires depth { log.now.depth ≤ MOST_CALLS }
    ensures answer { IfTold result (result ≡ (replay program.now plan.now log.now budget).answer) }
    ensures steps { IfTold result
        (counters.new.own ≡ counters.old.own + (replay program.now plan.now log.now budget).steps) }
    ensures turns { IfTold result
        (counters.new.turns + counters.old.own ≤ counters.old.turns + counters.new.own + 1) }
    ensures items { HasFewItems counters.old.own counters.new.own result }
    ensures intervals { GivesIntervals (setting_of program.now plan.now budget) log.now
        counters.old.own counters.new.own result }
{
    emulations_give_intervals();
    let code = Code {
        alloc,
        program,
        plan,
    };
    emulate_log(&code, log, budget, &mut counters.own, &mut counters.turns)
}

/// The replay of one interval from its own log: the local replay of its block. It knows no schedule
/// and no other process. The process begins at the block with the values of the log's prelog; each
/// synchronization, each nested interval and each start of a unit takes the next piece of the log,
/// and a read of a shared cell is answered by the last own write since the unit's start, else by the
/// unit's value. A nested interval is not run: its postlog is applied.
///
/// The answer is the interval's items. The counter rises by one for each step that the interval
/// itself takes. The budget is 1 to 500,000, for the interval alone. It is made in the turns that
/// `emulate_in` counts.
///
/// Of an interval of a whole run without a race, under the plan of a policy, these are the items that
/// the interval has in the run, and the steps that it took itself; `Diverged` then never comes (Choi,
/// Miller and Netzer 1991: a log interval is replayed from its log alone).
///
/// `Diverged`: the log is not one of this interval: at this entry the replay needs another piece, or
/// a further step exceeds the budget or comes after the process's end (`Fewer`). `Memory` is want of
/// memory.
pub fn emulate<L: Ledger>(
    alloc: Global,
    program: &Program,
    plan: &Plan,
    log: &IntervalLog,
    budget: u32,
    steps: &mut Steps<L>,
) -> Result<BlockTrace, EmulError>
    requires program { IsValid program.now }
    requires plan { IsValidPlan program.now plan.now }
    requires depth { log.now.depth ≤ MOST_CALLS }
    ensures answer { IfTold result (result ≡ (replay program.now plan.now log.now budget).answer) }
    ensures steps { IfTold result (steps.new ≡ steps.old + (replay program.now plan.now log.now budget).steps) }
    ensures items { HasFewItems steps.old steps.new result }
    ensures intervals { GivesIntervals (setting_of program.now plan.now budget) log.now steps.old steps.new result }
{
    emulations_give_intervals();
    let code = Code {
        alloc,
        program,
        plan,
    };
    emulate_from::<L, Brand>(&code, log, budget, steps, Blank::new(1))
}
