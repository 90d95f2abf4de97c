ghost use Rattle.std.specs.Prelude.{◌≡◌, ◌+◌, ◌-◌, ◌*◌, ◌<◌, ◌≤◌, ◌^◌, ◌++◌, ◌∷◌, [], get_or, length, replicate, true, IfErr, IfOk, OnOk, None};
ghost use Rattle.ppd_ast.specs.Valid.{IsValid};
ghost use Rattle.ppd_model.specs.World.{change};
ghost use Rattle.ppd_world.specs.Running.{IsCause, IsReached, can_step};
ghost use Rattle.ppd_trace.specs.Telling.{HasTold, Tells, counts_after, with_writer, writers_set};
ghost use Rattle.ppd_trace.specs.Traced.{IsStoryOf, IsTraceable};

use crate::setting::Setting;
use ppd_activations::{push_copies, tag_in};
use ppd_ast::{Ids, Memory, Nums, Program, Seq, Steps};
use ppd_model::{DriveError, EventId, Story, Taken};
use ppd_sem::Need;
use ppd_world::World;
use std::alloc::Global;
use std::sync::ledger::Ledger;

/// A world with how many events each process had, the event that last wrote each shared cell, and
/// the steps of each process.
#[derive(Drop)]
struct Teller<'a> {
    world: World<'a>,
    counts: Ids,
    writers: Seq<Option<EventId>>,
    steps: Vec<Seq<Taken>>,
}

fn count_in(counts: &[u32], process: usize) -> u32
    ensures { result ≡ get_or counts.now process 0 }
{
    match counts.get(process) {
        Some(count) => *count,
        None => 0,
    }
}

/// Counts the step of a process, where it is an event.
fn count<L: Ledger>(counts: &mut Ids, process: usize, need: Need, steps: &mut Steps<L>)
    requires { get_or counts.old process 0 + 1 < 2 ^ 32 }
    ensures value { counts.new ≡ counts_after counts.old process need }
    ensures cost { steps.new ≤ steps.old + 1 }
{
    if need.is_event() {
        steps.tick();
        let count = count_in(counts.as_slice(), process);
        counts.set(process, count + 1);
    }
}

/// The event is the last one that wrote the cell, where the step writes one.
fn set_writer<L: Ledger>(
    writers: &mut Seq<Option<EventId>>,
    need: Need,
    event: EventId,
    steps: &mut Steps<L>,
)
    ensures cost { steps.new ≤ steps.old + 1 }
    ensures value { writers.new ≡ writers_set writers.old event need }
{
    if let Need::Write(cell, _) = need {
        steps.tick();
        writers.set(cell as usize, Some(event));
    }
}

/// The step with the event that last wrote the cell of a `Read`.
fn tagged(writers: &[Option<EventId>], taken: Taken) -> Taken
    ensures { result ≡ with_writer writers.now taken }
{
    let writer = match taken.need {
        Need::Read(cell) => tag_in(writers, cell as usize),
        _ => None,
    };
    Taken {
        need: taken.need,
        answer: taken.answer,
        writer,
        number: taken.number,
    }
}

fn push_one(own: &mut Seq<Taken>, taken: Taken) -> Result<(), Memory>
    ensures { OnOk result (own.new ≡ own.old ++ taken ∷ []) }
{
    own.push(taken)
}

/// Appends a step to those of its process.
fn push_step<L: Ledger>(
    lists: &mut Vec<Seq<Taken>>,
    process: usize,
    taken: Taken,
    steps: &mut Steps<L>,
) -> Result<(), Memory>
    ensures value { OnOk result (lists.new.items ≡ change (λ xs. xs ++ taken ∷ []) process lists.old.items) }
    ensures cost { steps.new ≤ steps.old + 1 }
{
    if process >= lists.len() {
        return Ok(());
    }
    steps.tick();
    push_one(&mut lists[process], taken)
}

impl<'a> Teller<'a> {
    /// Takes the step of process `p`, which is enabled, and tells of it.
    fn tell<L: Ledger>(&mut self, p: u8, steps: &mut Steps<L>) -> Result<(), Memory>
        requires reached { IsReached self.old.world }
        requires enabled { can_step self.old.world p ≡ true }
        requires few { get_or self.old.counts p 0 + 1 < 2 ^ 32 }
        ensures cost { steps.new ≤ steps.old + 5 }
        ensures told { OnOk result
            (HasTold self.old.world self.old.counts self.old.writers self.old.steps.items p
            self.new.world self.new.counts self.new.writers self.new.steps.items) }
    {
        let process = p as usize;
        let event = EventId {
            process: p,
            number: count_in(self.counts.as_slice(), process),
        };
        steps.tick();
        let taken = tagged(self.writers.as_slice(), self.world.next(p));
        steps.tick();
        self.world.step(p)?;
        push_step(&mut self.steps, process, taken, steps)?;
        set_writer(&mut self.writers, taken.need, event, steps);
        count(&mut self.counts, process, taken.need, steps);
        Ok(())
    }

    /// Takes the step of process `p`, which is number `index` of a schedule, and tells of it.
    fn follow<L: Ledger>(
        &mut self,
        p: u8,
        index: u32,
        steps: &mut Steps<L>,
    ) -> Result<(), DriveError>
        requires reached { IsReached self.old.world }
        requires few { get_or self.old.counts p 0 + 1 < 2 ^ 32 }
        ensures enabled { OnOk result (can_step self.old.world p ≡ true) }
        ensures told { OnOk result
            (HasTold self.old.world self.old.counts self.old.writers self.old.steps.items p
            self.new.world self.new.counts self.new.writers self.new.steps.items) }
        ensures cause { IfErr result (IsCause self.old.world p index) }
        ensures cost { steps.new ≤ steps.old + 6 }
    {
        steps.tick();
        if !self.world.enabled(p) {
            return Err(DriveError::NotEnabled(index));
        }
        self.tell(p, steps)?;
        Ok(())
    }
}

/// Appends so many zeros.
fn push_zeros<L: Ledger>(counts: &mut Ids, count: usize, steps: &mut Steps<L>) -> Result<(), Memory>
    ensures cost { steps.new ≤ steps.old + 2 * count }
    ensures value { OnOk result (counts.new ≡ counts.old ++ replicate count 0) }
{
    for _index in 0..count {
        steps.tick();
        steps.tick();
        counts.push(0)?;
    }
    Ok(())
}

/// Appends so many empty lists.
fn push_empty<L: Ledger>(
    alloc: Global,
    lists: &mut Vec<Seq<Taken>>,
    count: usize,
    steps: &mut Steps<L>,
) -> Result<(), Memory>
    ensures value { OnOk result (lists.new.items ≡ lists.old.items ++ replicate count []) }
    ensures cost { steps.new ≤ steps.old + 2 * count }
{
    for _index in 0..count {
        steps.tick();
        steps.tick();
        lists.push(Seq::new(alloc))?;
    }
    Ok(())
}

/// How many processes a valid program has.
fn process_count(program: &Program) -> usize
    requires { IsValid program.now }
    ensures { result ≡ length program.now.bodies - program.now.functions }
{
    program.bodies.len() - program.functions as usize
}

impl<'a> Teller<'a> {
    /// A world of which nothing is told, with no process yet.
    fn of_world(alloc: Global, world: World<'a>) -> Teller<'a>
        ensures world { result.world ≡ world.entry }
        ensures counts { result.counts ≡ [] }
        ensures writers { result.writers ≡ [] }
        ensures steps { result.steps.items ≡ [] }
    {
        Teller {
            world,
            counts: Seq::new(alloc),
            writers: Seq::new(alloc),
            steps: Vec::new(alloc),
        }
    }

    /// Appends so many processes that took no step and so many cells that nothing wrote.
    fn fill<L: Ledger>(
        &mut self,
        alloc: Global,
        count: usize,
        cells: usize,
        steps: &mut Steps<L>,
    ) -> Result<(), Memory>
        ensures world { self.new.world ≡ self.old.world }
        ensures counts { OnOk result (self.new.counts ≡ self.old.counts ++ replicate count 0) }
        ensures writers { OnOk result (self.new.writers ≡ self.old.writers ++ replicate cells None) }
        ensures steps { OnOk result (self.new.steps.items ≡ self.old.steps.items ++ replicate count []) }
        ensures cost { steps.new ≤ steps.old + 4 * count + 2 * cells }
    {
        push_zeros(&mut self.counts, count, steps)?;
        push_copies(&mut self.writers, None, cells, steps)?;
        push_empty(alloc, &mut self.steps, count, steps)
    }
}

/// Before the first step nothing is told.
fn begin<'a, L: Ledger>(setting: &Setting<'a>, steps: &mut Steps<L>) -> Result<Teller<'a>, Memory>
    ensures cost { steps.new
        ≤ steps.old + 4 * (length setting.now.program.starts + length setting.now.program.bodies) }
    ensures told { IfOk result
        (λ t. Tells setting.now [] t.world t.counts t.writers
        t.steps.items) }
{
    let alloc = setting.alloc;
    let world = World::new(alloc, setting.program, setting.plan, setting.budget)?;
    let count = process_count(setting.program);
    let cells = world.cells().len();
    let mut teller = Teller::of_world(alloc, world);
    match teller.fill(alloc, count, cells, steps) {
        Ok(()) => Ok(teller),
        Err(error) => {
            drop(teller);
            Err(error)
        }
    }
}

fn push_values<L: Ledger>(
    values: &mut Nums,
    cells: &[i64],
    steps: &mut Steps<L>,
) -> Result<(), Memory>
    ensures cost { steps.new ≤ steps.old + 2 * length cells.now }
    ensures value { OnOk result (values.new ≡ values.old ++ cells.now) }
{
    match cells {
        [] => Ok(()),
        [first, rest @ ..] => {
            steps.tick();
            steps.tick();
            values.push(*first)?;
            push_values(values, rest, steps)
        }
    }
}

/// The story of the steps that were taken.
fn close<L: Ledger>(alloc: Global, teller: Teller, steps: &mut Steps<L>) -> Result<Story, Memory>
    ensures cost { steps.new ≤ steps.old + 2 * length teller.entry.world.world.shared }
    ensures value { IfOk result
        (λ story. story
        ≡ record {
          steps = teller.entry.steps.items;
          cells = teller.entry.world.world.shared;
          writers = teller.entry.writers;
        }) }
{
    let mut cells = Nums::new(alloc);
    push_values(&mut cells, teller.world.cells(), steps)?;
    Ok(Story {
        steps: Seq::from_vec(teller.steps),
        cells,
        writers: teller.writers,
    })
}

/// The story of a schedule. `NotEnabled(n)`: the first `n` steps can be taken, and number `n`, from 0,
/// is the first that names no enabled process. `Memory` is want of memory. It is told in at most 7
/// steps for each number of the schedule and for each shared cell and body of the program, also
/// where it ends in an error. A step is a turn of a loop, an item that is put into a list, or a call
/// that lets one statement be evaluated; so the memory that is taken is bounded by as much, but for
/// what the world takes.
pub fn tell_story_in<L: Ledger>(
    setting: &Setting,
    schedule: &[u8],
    steps: &mut Steps<L>,
) -> Result<Story, DriveError>
    ensures story { IsStoryOf setting.now schedule.now result }
    ensures traceable { IfOk result
        (IsTraceable setting.now) }
    ensures cost { steps.new
        ≤ steps.old
        + 7 * (length schedule.now + length setting.now.program.starts + length setting.now.program.bodies) }
{
    let alloc = setting.alloc;
    let mut teller = begin(setting, steps)?;
    for (index, number) in schedule.iter().enumerate() {
        steps.tick();
        teller.follow(*number, index as u32, steps)?;
    }
    Ok(close(alloc, teller, steps)?)
}
