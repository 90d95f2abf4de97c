ghost use Rattle.std.specs.Prelude.{◌≡◌, ◌<◌, Some, None, length, slice_get, IfOk, unwrap_or, ℕ, ℤ, List, Option};
ghost use Rattle.ppd_ast.specs.declared.plan.BlockKind.TheVariants.{Function, Loop, Process};
ghost use Rattle.ppd_sem.specs.declared.proc.Need.TheVariants.{Back, End};
ghost use Rattle.ppd_sem.specs.Asked.{outcome};
ghost use Rattle.ppd_sem.specs.Effects.{HasRange, head_deed_if, head_deed_of};
ghost use Rattle.ppd_sem.specs.Process.{call_unit as call_unit_of, entry_of, head_deed, need_of, need_of_deed, need_of_head, need_of_leaving, need_of_send, offer_of, top_frame};
ghost use Rattle.ppd_sem.specs.Tables.{block_of, capacity_of};
ghost use Rattle.ppd_sem.specs.Runs.{IsHead, IsNumbered, IsRunnable, IsRunning};
ghost use Rattle.ppd_ast.specs.declared.program.Program.{Program};
ghost use Rattle.ppd_sem.specs.Deed.{invoke};

use crate::asking::Pause;
use crate::cost::within_budget;
use crate::effect::{Effect, effect_of};
use crate::proc::{Frame, Need, Proc, Todo};
use crate::stack::Stack;
use crate::tables::{find_block, find_unit, kind_at};
use ppd_ast::limits::MOST_CALLS;
use ppd_ast::{BlockKind, Kind, Plan, Program, Start, Trap};

/// The body of the top frame.
pub(crate) fn body_of(frames: &Stack<Frame>) -> u16
    ensures { result ≡ (top_frame frames.now).body }
{
    match frames.top() {
        Some(frame) => frame.body,
        None => 0,
    }
}

fn call_of(frames: &Stack<Frame>) -> Option<u32>
    ensures { result ≡ (top_frame frames.now).call }
{
    match frames.top() {
        Some(frame) => frame.call,
        None => None,
    }
}

/// The cells of the top frame.
pub(crate) fn top_cells(frames: &Stack<Frame>) -> &[i64]
    ensures { result.now ≡ (top_frame frames.now).cells }
{
    match frames.top() {
        Some(frame) => frame.cells.as_slice(),
        None => &[],
    }
}

/// The head statement, if any is still to do.
pub(crate) fn head(proc: &Proc) -> Option<Todo>
    ensures { result ≡ slice_get proc.now.todo 0 }
{
    match proc.todo.top() {
        Some(todo) => Some(*todo),
        None => None,
    }
}

/// What the head statement does, or why a value is not there yet.
pub(crate) fn head_effect(program: &Program, todo: Todo, proc: &Proc) -> Result<Effect, Pause>
    requires { IsHead program.now proc.now todo }
    ensures deed { outcome (head_deed program.now todo proc.now) ≡ head_deed_if program.now todo proc.now result }
    ensures range { IfOk result HasRange }
{
    effect_of(
        program.exprs.as_slice(),
        kind_at(program, todo.stmt),
        top_cells(&proc.frames),
        proc.answers.as_slice(),
    )
}

fn call_need(plan: &Plan, function: u16, proc: &Proc) -> Need
    requires plan { IsNumbered plan.now }
    ensures { (program : Program) (stmt : ℕ) (values : List ℤ) (into : Option ℕ)
        → result ≡ need_of_deed program plan.now stmt proc.now (invoke function values into) }
{
    let below = proc.below as usize;
    if proc.frames.len() > MOST_CALLS || below + proc.frames.len() > MOST_CALLS {
        return Need::Trap(Trap::Depth);
    }
    Need::Invoke {
        block: find_block(plan, BlockKind::Function(function)),
        unit: find_unit(plan, Start::Entry(function)),
    }
}

fn leaving_need(plan: &Plan, stmt: u32) -> Need
    requires plan { IsNumbered plan.now }
    ensures { result ≡ need_of_leaving plan.now stmt (block_of plan.now (Loop stmt)) }
{
    match find_block(plan, BlockKind::Loop(stmt)) {
        Some(block) => Need::Leave {
            block,
            unit: find_unit(plan, Start::Exit(stmt)),
        },
        None => Need::Plain,
    }
}

fn call_unit(plan: &Plan, call: Option<u32>) -> Option<u16>
    requires plan { IsNumbered plan.now }
    ensures { result ≡ call_unit_of plan.now call }
{
    match call {
        Some(call) => Some(find_unit(plan, Start::After(call))),
        None => None,
    }
}

fn return_need(plan: &Plan, frames: &Stack<Frame>) -> Need
    requires plan { IsNumbered plan.now }
    ensures { result
        ≡ Back (block_of plan.now (Function (top_frame frames.now).body))
        (call_unit_of plan.now (top_frame frames.now).call) }
{
    Need::Back {
        block: find_block(plan, BlockKind::Function(body_of(frames))),
        unit: call_unit(plan, call_of(frames)),
    }
}

fn ending_need(plan: &Plan, body: u16) -> Need
    requires plan { IsNumbered plan.now }
    ensures { result ≡ End (unwrap_or (block_of plan.now (Process body)) 0) }
{
    match find_block(plan, BlockKind::Process(body)) {
        Some(block) => Need::End { block },
        None => Need::End { block: 0 },
    }
}

/// How many values the channel with this number, from 0, holds at most, and 0 past the table.
pub fn capacity_of(program: &Program, chan: u8) -> u8
    ensures { result ≡ capacity_of program.now chan }
{
    match program.chans.get(chan as usize) {
        Some(chan) => chan.capacity,
        None => 0,
    }
}

fn send_need(plan: &Plan, stmt: u32, capacity: u8, chan: u8, value: i64) -> Need
    requires plan { IsNumbered plan.now }
    ensures { result ≡ need_of_send plan.now stmt capacity chan value }
{
    if capacity == 0 {
        return Need::Offer { chan, value };
    }
    Need::Send {
        chan,
        value,
        unit: find_unit(plan, Start::After(stmt)),
    }
}

/// What a statement needs whose values are all there.
fn effect_need(program: &Program, plan: &Plan, todo: Todo, proc: &Proc, effect: Effect) -> Need
    requires plan { IsNumbered plan.now }
    ensures { result
        ≡ need_of_deed program.now plan.now todo.stmt proc.now (head_deed_of program.now todo proc.now effect) }
{
    let after = Start::After(todo.stmt);
    match effect {
        Effect::SetShared(cell, value) => Need::Write(cell, value),
        Effect::Leave => leaving_need(plan, todo.stmt),
        Effect::Invoke(function, _) => call_need(plan, function, proc),
        Effect::Back(_) => return_need(plan, &proc.frames),
        Effect::Take(sem) => Need::P {
            sem,
            unit: find_unit(plan, after),
        },
        Effect::Give(sem) => Need::V {
            sem,
            unit: find_unit(plan, after),
        },
        Effect::Send(chan, value) => {
            send_need(plan, todo.stmt, capacity_of(program, chan), chan, value)
        }
        Effect::Receive(chan, _) => Need::Recv {
            chan,
            unit: find_unit(plan, after),
        },
        Effect::Finish => ending_need(plan, body_of(&proc.frames)),
        Effect::SetLocal(..)
        | Effect::Clear(..)
        | Effect::Branch(_)
        | Effect::Turn
        | Effect::Print(_)
        | Effect::Pass => Need::Plain,
    }
}

/// The block of a loop that the process has yet to enter.
fn entry_block(program: &Program, plan: &Plan, todo: Todo) -> Option<u16>
    requires plan { IsNumbered plan.now }
    requires todo { todo.stmt < length program.now.stmts }
    ensures { result ≡ entry_of program.now plan.now todo }
{
    if todo.entered {
        return None;
    }
    match kind_at(program, todo.stmt) {
        Kind::While(..) => find_block(plan, BlockKind::Loop(todo.stmt)),
        _ => None,
    }
}

/// The channel of a send whose offer was taken.
fn offered_chan(program: &Program, todo: Todo) -> Option<u8>
    requires todo { todo.stmt < length program.now.stmts }
    ensures { result ≡ offer_of program.now todo }
{
    if !todo.offered {
        return None;
    }
    match kind_at(program, todo.stmt) {
        Kind::Send(chan, _) => Some(*chan),
        _ => None,
    }
}

/// What the head statement needs.
fn head_need(program: &Program, plan: &Plan, todo: Todo, proc: &Proc) -> Need
    requires plan { IsNumbered plan.now }
    requires head { IsHead program.now proc.now todo }
    ensures { result ≡ need_of_head program.now plan.now todo proc.now }
{
    if let Some(chan) = offered_chan(program, todo) {
        return Need::Done {
            chan,
            unit: find_unit(plan, Start::After(todo.stmt)),
        };
    }
    if let Some(block) = entry_block(program, plan, todo) {
        return Need::Enter {
            block,
            unit: find_unit(plan, Start::Enter(todo.stmt)),
        };
    }
    match head_effect(program, todo, proc) {
        Ok(effect) => effect_need(program, plan, todo, proc, effect),
        Err(Pause::Wants(cell)) => Need::Read(cell),
        Err(Pause::Traps(trap)) => Need::Trap(trap),
    }
}

/// What the next step of a process needs.
pub fn look(program: &Program, plan: &Plan, proc: &Proc) -> Need
    requires program { IsRunnable program.now }
    requires plan { IsNumbered plan.now }
    requires proc { IsRunning program.now proc.now }
    ensures { result ≡ need_of program.now plan.now proc.now }
{
    if proc.status.is_some() {
        return Need::Stopped;
    }
    match head(proc) {
        Some(todo) => within_budget(plan, proc, head_need(program, plan, todo, proc)),
        None => Need::Stopped,
    }
}
