ghost use Rattle.std.specs.Prelude.{◌≡◌, ◌+◌, ◌<◌, ◌≤◌, ◌^◌, true, Some, None, if◌then◌else◌, [], ◌∷◌, length, slice_get, IfOk, IsSomeAnd, replicate, pos};
ghost use Rattle.ppd_ast.specs.Lookups.{kind_of};
ghost use Rattle.ppd_sem.specs.Described.{described, evaluates as evaluates_of, ends_body as ends_body_of, frame_of as frame_number, is_block as is_block_of, is_event as is_event_of, is_in_loop as is_in_loop_of, trap_of as trap_of_need, value_at, valued as valued_of, writes_by, writes_of_deed};
ghost use Rattle.ppd_sem.specs.Effects.{HasRange, head_deed_of};
ghost use Rattle.ppd_sem.specs.Process.{head_deed, need_of, top_frame};
ghost use Rattle.ppd_sem.specs.Reads.{reads_of_kind, local_accesses};
ghost use Rattle.ppd_sem.specs.Runs.{IsHead, IsNumbered, IsRunnable, IsRunning};

use crate::asking::ask;
use crate::effect::{Effect, valued};
use crate::event::{Access, Event, Spot};
use crate::feeding::argument_values;
use crate::looking::{body_of, head, head_effect, look, top_cells};
use crate::proc::{Answer, Need, Proc, Todo};
use crate::reading::push_kind_reads;
use crate::stack::Stack;
use crate::tables::{find_block, kind_at};
use ppd_ast::{BlockKind, Kind, Memory, Plan, Program, Seq, Trap};
use std::alloc::Global;

/// Whether the statement ends its body; a number past the table does.
fn ends_body(program: &Program, stmt: u32) -> bool
    ensures { result ≡ ends_body_of (kind_of program.now stmt) }
{
    match program.stmts.get(stmt as usize) {
        Some(stmt) => matches!(stmt.kind, Kind::Return(_) | Kind::End),
        None => true,
    }
}

/// Whether an entered block loop is running in the top frame.
fn is_in_loop(program: &Program, todo: &Stack<Todo>) -> bool
    ensures { result ≡ is_in_loop_of program.now todo.now }
{
    let count = todo.items.len();
    for index in 0..count {
        let entry = todo.items[count - 1 - index];
        if ends_body(program, entry.stmt) {
            return false;
        }
        if entry.entered {
            return true;
        }
    }
    false
}

fn is_block(plan: &Plan, body: u16) -> bool
    requires { length plan.now.blocks ≤ 2 ^ 16 }
    ensures { result ≡ is_block_of plan.now body }
{
    find_block(plan, BlockKind::Function(body)).is_some()
        || find_block(plan, BlockKind::Process(body)).is_some()
}

/// The number of the top frame, counted from the frame of the innermost interval.
fn frame_of(program: &Program, plan: &Plan, proc: &Proc) -> u8
    requires plan { IsNumbered plan.now }
    ensures is { result ≡ frame_number program.now plan.now proc.now }
    ensures small { result < 2 }
{
    if is_in_loop(program, &proc.todo) || is_block(plan, body_of(&proc.frames)) {
        0
    } else {
        1
    }
}

fn local_write(frame: u8, cell: u16, value: i64) -> Access
    ensures { result ∷ [] ≡ local_accesses frame cell (value ∷ []) }
{
    let spot = Spot::Local { frame, cell };
    Access { spot, value }
}

/// The list of one access.
fn one(alloc: Global, access: Access) -> Result<Seq<Access>, Memory>
    ensures { IfOk result (λ list. list ≡ access ∷ []) }
{
    let mut list = Seq::new(alloc);
    list.push(access)?;
    Ok(list)
}

/// The writes of zeros to these cells.
#[tactic(auto, using(crate::proofs::Zeros::one_more_accessed))]
fn cleared(alloc: Global, frame: u8, base: u16, len: u16) -> Result<Seq<Access>, Memory>
    requires { base + len < 2 ^ 16 }
    ensures { IfOk result (λ writes. writes ≡ local_accesses frame base (replicate len (pos 0))) }
{
    let mut writes = Seq::new(alloc);
    for index in 0..len {
        writes.push(local_write(frame, base + index, 0))?;
    }
    Ok(writes)
}

/// The writes of a call's arguments to its parameters.
fn parameters(alloc: Global, frame: u8, values: &[i64]) -> Result<Seq<Access>, Memory>
    requires { length values.now < 2 ^ 16 }
    ensures { IfOk result (λ writes. writes ≡ local_accesses frame 0 values.now) }
{
    let mut writes = Seq::new(alloc);
    for index in 0..values.len() {
        writes.push(local_write(frame, index as u16, values[index]))?;
    }
    Ok(writes)
}

/// What a statement whose values are there writes.
fn effect_writes(
    program: &Program,
    proc: &Proc,
    todo: Todo,
    frame: u8,
    effect: Effect,
    answer: &Answer,
) -> Result<Seq<Access>, Memory>
    requires head { IsHead program.now proc.now todo }
    requires frame { frame < 2 }
    requires range { HasRange effect }
    ensures { IfOk result
        (λ writes. writes
        ≡ writes_of_deed frame answer.now
        (head_deed_of program.now todo proc.now effect)) }
{
    let alloc = proc.frames.allocator();
    match effect {
        Effect::SetLocal(cell, value) => one(alloc, local_write(frame, cell, value)),
        Effect::SetShared(cell, value) => {
            let spot = Spot::Shared(cell);
            one(alloc, Access { spot, value })
        }
        Effect::Clear(base, len) => cleared(alloc, frame, base, len),
        Effect::Invoke(..) => {
            let values = argument_values(program, todo, proc)?;
            parameters(alloc, frame + 1, values.as_slice())
        }
        Effect::Receive(_, into) => one(alloc, local_write(frame, into, answer.value_given())),
        // a return has no write: its value is written by the caller's receiving local
        Effect::Back(_)
        | Effect::Branch(_)
        | Effect::Turn
        | Effect::Leave
        | Effect::Take(_)
        | Effect::Give(_)
        | Effect::Send(..)
        | Effect::Print(_)
        | Effect::Pass
        | Effect::Finish => Ok(Seq::new(alloc)),
    }
}

/// What the head statement's step writes: nothing where it traps.
fn head_writes(
    program: &Program,
    proc: &Proc,
    todo: Todo,
    frame: u8,
    trap: Option<Trap>,
    answer: &Answer,
) -> Result<Seq<Access>, Memory>
    requires head { IsHead program.now proc.now todo }
    requires frame { frame < 2 }
    ensures { IfOk result
        (λ writes. writes
        ≡ writes_by trap frame answer.now
        (head_deed program.now todo proc.now)) }
{
    if trap.is_some() {
        return Ok(Seq::new(proc.frames.allocator()));
    }
    match head_effect(program, todo, proc) {
        Ok(effect) => effect_writes(program, proc, todo, frame, effect, answer),
        Err(_) => Ok(Seq::new(proc.frames.allocator())),
    }
}

/// The reads of the head statement.
fn head_reads(
    alloc: Global,
    program: &Program,
    proc: &Proc,
    todo: Todo,
    frame: u8,
) -> Result<Seq<Access>, Memory>
    requires { IsHead program.now proc.now todo }
    ensures { IfOk result
        (λ reads. reads
        ≡ reads_of_kind frame program.now.exprs
        (kind_of program.now todo.stmt)
        (top_frame proc.now.frames).cells proc.now.answers) }
{
    let mut reads = Seq::new(alloc);
    push_kind_reads(
        &mut reads,
        frame,
        program.exprs.as_slice(),
        kind_at(program, todo.stmt),
        top_cells(&proc.frames),
        proc.answers.as_slice(),
    )?;
    Ok(reads)
}

/// The event's value, where the head statement has one and it is there.
#[tactic(auto, using(crate::proofs::Leads::valued_used))]
fn head_value(program: &Program, proc: &Proc, todo: Todo) -> Option<i64>
    requires { IsHead program.now proc.now todo }
    ensures { result
        ≡ value_at program.now.exprs (top_frame proc.now.frames).cells
        proc.now.answers (valued_of (kind_of program.now todo.stmt)) }
{
    let value = valued(kind_at(program, todo.stmt))?;
    let exprs = program.exprs.as_slice();
    match ask(
        exprs,
        value,
        top_cells(&proc.frames),
        proc.answers.as_slice(),
    ) {
        Ok((value, _)) => Some(value),
        Err(_) => None,
    }
}

fn trap_of(need: Need) -> Option<Trap>
    ensures { result ≡ trap_of_need need }
{
    match need {
        Need::Trap(trap) => Some(trap),
        _ => None,
    }
}

/// Whether a step of this need evaluates its statement; a completion does not.
fn evaluates(need: Need) -> bool
    ensures { result ≡ evaluates_of need }
{
    !matches!(need, Need::Done { .. })
}

/// The reads of a step of this need.
fn step_reads(
    alloc: Global,
    program: &Program,
    proc: &Proc,
    todo: Todo,
    frame: u8,
    need: Need,
) -> Result<Seq<Access>, Memory>
    requires { IsHead program.now proc.now todo }
    ensures { IfOk result
        (λ reads. reads
        ≡ (if evaluates_of need
        then reads_of_kind frame program.now.exprs
        (kind_of program.now todo.stmt)
        (top_frame proc.now.frames).cells proc.now.answers else [])) }
{
    if evaluates(need) {
        head_reads(alloc, program, proc, todo, frame)
    } else {
        Ok(Seq::new(alloc))
    }
}

/// The value of a step of this need.
fn step_value(program: &Program, proc: &Proc, todo: Todo, need: Need) -> Option<i64>
    requires { IsHead program.now proc.now todo }
    ensures { result
        ≡ (if evaluates_of need
        then value_at program.now.exprs (top_frame proc.now.frames).cells
        proc.now.answers (valued_of (kind_of program.now todo.stmt)) else None) }
{
    if evaluates(need) {
        head_value(program, proc, todo)
    } else {
        None
    }
}

/// The event of the head statement's step.
fn event_at(
    alloc: Global,
    program: &Program,
    plan: &Plan,
    proc: &Proc,
    todo: Todo,
    answer: &Answer,
) -> Result<Event, Memory>
    requires program { IsRunnable program.now }
    requires plan { IsNumbered plan.now }
    requires proc { IsRunning program.now proc.now }
    requires head { slice_get proc.now.todo 0 ≡ Some todo }
    ensures { IfOk result (λ event. event ≡ described program.now plan.now proc.now todo answer.now) }
{
    let need = look(program, plan, proc);
    let trap = trap_of(need);
    let frame = frame_of(program, plan, proc);
    let reads = step_reads(alloc, program, proc, todo, frame, need)?;
    let writes = head_writes(program, proc, todo, frame, trap, answer)?;
    Ok(Event {
        stmt: todo.stmt,
        reads,
        writes,
        value: step_value(program, proc, todo, need),
        number: None,
        trap,
    })
}

impl Need {
    /// Whether a step of this need finishes or traps a statement.
    pub fn is_event(self) -> bool
        ensures { result ≡ is_event_of self }
    {
        !matches!(
            self,
            Need::Read(_) | Need::Enter { .. } | Need::Budget | Need::Stopped
        )
    }
}

/// The event of the next step of a process, which finishes or traps a statement. Its number is
/// None: it is told by the world alone. `Memory` is want of memory.
pub fn describe(
    alloc: Global,
    program: &Program,
    plan: &Plan,
    proc: &Proc,
    answer: &Answer,
) -> Result<Event, Memory>
    requires program { IsRunnable program.now }
    requires plan { IsNumbered plan.now }
    requires proc { IsRunning program.now proc.now }
    requires event { is_event_of (need_of program.now plan.now proc.now) ≡ true }
    ensures { IfOk result
        (λ event. IsSomeAnd (slice_get proc.now.todo 0)
        (λ todo. event ≡ described program.now plan.now proc.now todo answer.now)) }
{
    match head(proc) {
        Some(todo) => event_at(alloc, program, plan, proc, todo, answer),
        None => unreachable!(),
    }
}
