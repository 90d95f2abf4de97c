ghost use Rattle.std.specs.Prelude.{◌≡◌, ◌+◌, ◌<◌, ◌≤◌, ◌^◌, true, false, None, Some, OnOk};
ghost use Rattle.ppd_emul.specs.Turns.{Meets, alone};
ghost use Rattle.ppd_emul_values.specs.Emulated.{IfMore, IfTold, IsAtNeed, IsGoing, IsSound, IsTurn, replaying, turned};
ghost use Rattle.ppd_model.specs.Fits.{wanted_of as wanted_of_need};
ghost use Rattle.ppd_model.specs.Replay.{counted, finished, is_budget, past_piece, received as received_by, step_with as step_with_of, step_without as step_without_of, stepped, take_unit as take_unit_of, with_call, with_event, with_item};
ghost use Rattle.ppd_model.specs.Pieces.{nested as nested_piece, piece_of, unfinished};
ghost use Rattle.ppd_model.specs.declared.flow.Item.TheVariants.{Nested};
ghost use Rattle.ppd_model.specs.Story.{unit_started as unit_started_by};
ghost use Rattle.ppd_sem.specs.Described.{is_event};
ghost use Rattle.ppd_sem.specs.Entries.{Begins};
ghost use Rattle.ppd_sem.specs.Process.{need_of};
ghost use Rattle.ppd_sem.specs.Runs.{IsRunning};
ghost use Rattle.ppd_sem.specs.declared.proc.Answer.TheVariants.{Go};
ghost use Rattle.ppd_sem.specs.declared.proc.Need.TheVariants.{Read};

use ppd_ast::{Memory, Steps};
use ppd_emul_values::{Code, Replayer, Turned, copied, fail, skip_over, take_unit};
use ppd_model::{EmulError, Item, Piece, Wanted, unit_started};
use ppd_sem::{Answer, Need, describe, meet};
use std::alloc::Global;
use std::sync::ledger::Ledger;

/// Adds the event of the next step as an item, with the number of a synchronization. `Memory` is want
/// of memory.
fn add_event(
    code: &Code,
    state: &mut Replayer,
    answer: Answer,
    number: Option<u32>,
) -> Result<(), Memory>
    requires code { IsSound code.now }
    requires proc { IsRunning code.now.program.now state.old.proc }
    requires event { is_event (need_of code.now.program.now code.now.plan.now state.old.proc) ≡ true }
    ensures added { OnOk result
        (replaying state.new
        ≡ with_event code.now.program.now code.now.plan.now answer number (replaying state.old)) }
    ensures rest { state.new ≡ record state.old { items = state.new.items } }
{
    let mut event = describe(code.alloc, code.program, code.plan, &state.proc, &answer)?;
    event.number = number;
    state.push(Item::Own(event))
}

/// Takes the next step of the process, which needs this, and counts it. `Memory` is want of memory: none is
/// counted.
fn take_step<L: Ledger>(
    code: &Code,
    state: &mut Replayer,
    need: Need,
    answer: Answer,
    steps: &mut Steps<L>,
) -> Result<(), Memory>
    requires code { IsSound code.now }
    requires state { IsGoing code.now state.old }
    requires few { state.old.steps < 2 ^ 40 }
    requires need { need ≡ need_of code.now.program.now code.now.plan.now state.old.proc }
    ensures stepped { OnOk result
        (replaying state.new ≡ stepped code.now.program.now code.now.plan.now answer (replaying state.old)) }
    ensures going { OnOk result (IsGoing code.now state.new) }
    ensures one { state.new.steps ≤ state.old.steps + 1 }
    ensures ticks { steps.new + state.old.steps ≡ steps.old + state.new.steps }
{
    meet(code.program, code.plan, &mut state.proc, need, &answer)?;
    state.count(steps);
    Ok(())
}

/// The same where a unit starts at all.
fn take_unit_if(code: &Code, state: &mut Replayer, unit: Option<u16>) -> Result<Turned, EmulError>
    requires { IsGoing code.now state.old }
    ensures told { IfTold result
        (turned result state.new ≡ take_unit_of code.now.plan.now unit (replaying state.old)) }
    ensures going { IfMore result (IsGoing code.now state.new) }
    ensures steps { state.new.steps ≡ state.old.steps }
{
    match unit {
        Some(unit) => take_unit(code, state, unit),
        None => Ok(Turned::More),
    }
}

/// What a step is given by the piece of a synchronization: a receive its value.
fn received(need: Need, value: i64) -> Answer
    ensures { result ≡ received_by need value }
{
    match need {
        Need::Recv { .. } => Answer::Value(value),
        _ => Answer::Go,
    }
}

/// A synchronization, with its number and the value of its piece.
fn synchronize<L: Ledger>(
    code: &Code,
    state: &mut Replayer,
    need: Need,
    number: u32,
    value: i64,
    steps: &mut Steps<L>,
) -> Result<Turned, EmulError>
    requires next { IsAtNeed code.now state.old need }
    requires event { is_event need ≡ true }
    ensures { IsTurn code.now state.old state.new steps.old steps.new result
        (take_unit_of code.now.plan.now (unit_started_by need)
        (past_piece (stepped code.now.program.now code.now.plan.now (received_by need value)
        (with_event code.now.program.now code.now.plan.now (received_by need value) (Some number)
        (replaying state.old))))) }
{
    let answer = received(need, value);
    add_event(code, state, answer, Some(number))?;
    take_step(code, state, need, answer, steps)?;
    state.pass();
    take_unit_if(code, state, unit_started(need))
}

/// The call of a nested interval is an event, the entry of a loop is none. `Memory` is want of memory.
fn add_call(code: &Code, state: &mut Replayer, need: Need) -> Result<(), Memory>
    requires code { IsSound code.now }
    requires proc { IsRunning code.now.program.now state.old.proc }
    requires need { need ≡ need_of code.now.program.now code.now.plan.now state.old.proc }
    ensures added { OnOk result
        (replaying state.new ≡ with_call code.now.program.now code.now.plan.now need (replaying state.old)) }
    ensures rest { state.new ≡ record state.old { items = state.new.items } }
{
    match need {
        Need::Invoke { .. } => add_event(code, state, Answer::Go, None),
        _ => Ok(()),
    }
}

/// Adds an interval inside as an item. `Memory` is want of memory.
fn add_nested(
    alloc: Global,
    state: &mut Replayer,
    interval: u32,
    block: u16,
    values: &[i64],
    closed: bool,
) -> Result<(), Memory>
    ensures added { OnOk result
        (replaying state.new ≡ with_item (Nested interval block values.now closed) (replaying state.old)) }
    ensures rest { state.new ≡ record state.old { items = state.new.items } }
{
    let values = copied(alloc, values)?;
    state.push(Item::Nested {
        interval,
        block,
        values,
        closed,
    })
}

/// A nested interval that was left: its postlog is applied in its place, and the unit after it starts.
fn skip_nested<L: Ledger>(
    code: &Code,
    state: &mut Replayer,
    need: Need,
    nested: (u32, u16, &[i64]),
    steps: &mut Steps<L>,
) -> Result<Turned, EmulError>
    requires next { IsAtNeed code.now state.old need }
    requires begins { Begins need }
    ensures { IsTurn code.now state.old state.new steps.old steps.new result
        (step_with_of code.now.program.now code.now.plan.now need
        (nested_piece nested.entry.0 nested.entry.1 nested.entry.2.now) (replaying state.old)) }
{
    let (interval, block, values) = nested;
    add_call(code, state, need)?;
    add_nested(code.alloc, state, interval, block, values, true)?;
    skip_over(code, state, need, values, steps)
}

/// A nested interval that was not left ends the replay.
fn stop_nested<L: Ledger>(
    code: &Code,
    state: &mut Replayer,
    need: Need,
    interval: u32,
    block: u16,
    steps: &mut Steps<L>,
) -> Result<Turned, EmulError>
    requires { IsAtNeed code.now state.old need }
    ensures { IsTurn code.now state.old state.new steps.old steps.new result
        (step_with_of code.now.program.now code.now.plan.now need
        (unfinished interval block) (replaying state.old)) }
{
    add_call(code, state, need)?;
    add_nested(code.alloc, state, interval, block, &[], false)?;
    state.count(steps);
    Ok(Turned::Done)
}

/// The last step of a replay, which is an event.
pub(crate) fn end_with_event<L: Ledger>(
    code: &Code,
    state: &mut Replayer,
    steps: &mut Steps<L>,
) -> Result<Turned, EmulError>
    requires code { IsSound code.now }
    requires state { IsGoing code.now state.old }
    requires few { state.old.steps < 2 ^ 40 }
    requires event { is_event (need_of code.now.program.now code.now.plan.now state.old.proc) ≡ true }
    ensures { IsTurn code.now state.old state.new steps.old steps.new result
        (finished
        (counted (with_event code.now.program.now code.now.plan.now Go None (replaying state.old)))) }
{
    add_event(code, state, Answer::Go, None)?;
    state.count(steps);
    Ok(Turned::Done)
}

/// A step whose piece is there.
pub(crate) fn step_with<L: Ledger>(
    code: &Code,
    state: &mut Replayer,
    need: Need,
    piece: Piece,
    steps: &mut Steps<L>,
) -> Result<Turned, EmulError>
    requires next { IsAtNeed code.now state.old need }
    requires meets { Meets code.now state.old need (piece_of piece) }
    ensures { IsTurn code.now state.old state.new steps.old steps.new result
        (step_with_of code.now.program.now code.now.plan.now need
        (piece_of piece.entry) (replaying state.old)) }
{
    match piece {
        Piece::Sync(_, _, number, value) => synchronize(code, state, need, number, value, steps),
        Piece::Nested(interval, block, values) => {
            skip_nested(code, state, need, (interval, block, values), steps)
        }
        Piece::Unfinished(interval, block) => {
            stop_nested(code, state, need, interval, block, steps)
        }
        Piece::Unit(..) | Piece::Postlog(_) | Piece::End(..) => end_with_event(code, state, steps),
    }
}

/// A step that needs no piece and is an event. It may start a unit.
fn step_alone<L: Ledger>(
    code: &Code,
    state: &mut Replayer,
    need: Need,
    steps: &mut Steps<L>,
) -> Result<Turned, EmulError>
    requires next { IsAtNeed code.now state.old need }
    requires event { is_event need ≡ true }
    ensures { IsTurn code.now state.old state.new steps.old steps.new result
        (alone code.now.program.now code.now.plan.now need (replaying state.old)) }
{
    add_event(code, state, Answer::Go, None)?;
    state.write(need)?;
    take_step(code, state, need, Answer::Go, steps)?;
    take_unit_if(code, state, unit_started(need))
}

/// A read, which is answered by the values in force.
fn read<L: Ledger>(
    code: &Code,
    state: &mut Replayer,
    cell: u16,
    steps: &mut Steps<L>,
) -> Result<Turned, EmulError>
    requires { IsAtNeed code.now state.old (Read cell) }
    ensures { IsTurn code.now state.old state.new steps.old steps.new result
        (step_without_of code.now.program.now code.now.plan.now (Read cell) (replaying state.old)) }
{
    let value = state.in_force.value(cell);
    take_step(code, state, Need::Read(cell), Answer::Value(value), steps)?;
    Ok(Turned::More)
}

/// A step that needs no piece.
pub(crate) fn step_without<L: Ledger>(
    code: &Code,
    state: &mut Replayer,
    need: Need,
    steps: &mut Steps<L>,
) -> Result<Turned, EmulError>
    requires next { IsAtNeed code.now state.old need }
    requires free { wanted_of_need code.now.program.now code.now.plan.now state.old.proc need ≡ None }
    requires paid { is_budget need ≡ false }
    ensures { IsTurn code.now state.old state.new steps.old steps.new result
        (step_without_of code.now.program.now code.now.plan.now need (replaying state.old)) }
{
    match need {
        Need::Read(cell) => read(code, state, cell, steps),
        Need::Stopped => Err(fail(code.alloc, state, Wanted::Fewer)),
        _ => step_alone(code, state, need, steps),
    }
}
