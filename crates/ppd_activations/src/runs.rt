// The runs of bodies, before their first event, and the tags in them.
ghost use Rattle.std.specs.Prelude.{◌≡◌, ◌+◌, ◌*◌, ◌≤◌, ◌++◌, get_or, replicate, None, IfOk, OnOk};
ghost use Rattle.ppd_activations.specs.Runs.{begun_run as begun_run_of, called, top_tags as top_tags_of};
ghost use Rattle.ppd_ast.specs.Lookups.{body_numbered};

use crate::by_number::ByNumber;
use ppd_ast::{Memory, Program, Seq, Steps};
use ppd_model::{EventId, Test};
use ppd_sem::{Stack, size_at};
use std::alloc::Global;
use std::sync::ledger::Ledger;

/// A body's run as it is followed: the event of the call that began it, none in a process, the event that last wrote
/// each local cell, which is the cell's tag, and the latest test of each statement.
#[derive(Drop)]
pub struct Run {
    pub(crate) call: Option<EventId>,
    pub(crate) tags: Seq<Option<EventId>>,
    pub(crate) latest: ByNumber<Test>,
}

/// Appends the tag so many times, in two steps for each. `Memory` is want of memory.
pub fn push_copies<L: Ledger>(
    tags: &mut Seq<Option<EventId>>,
    tag: Option<EventId>,
    count: usize,
    steps: &mut Steps<L>,
) -> Result<(), Memory>
    ensures value { OnOk result (tags.new ≡ tags.old ++ replicate count tag) }
    ensures cost { steps.new ≤ steps.old + 2 * count }
{
    for _index in 0..count {
        steps.tick();
        steps.tick();
        tags.push(tag)?;
    }
    Ok(())
}

/// The run of a process's body with so many local cells, none of which is written, in two steps for each. `Memory` is
/// want of memory.
pub fn begun_run<L: Ledger>(
    alloc: Global,
    count: usize,
    steps: &mut Steps<L>,
) -> Result<Run, Memory>
    ensures value { IfOk result (λ run. run ≡ begun_run_of count) }
    ensures cost { steps.new ≤ steps.old + 2 * count }
{
    let mut tags = Seq::new(alloc);
    push_copies(&mut tags, None, count, steps)?;
    Ok(Run {
        call: None,
        tags,
        latest: ByNumber::new(alloc),
    })
}

/// The run that a call begins: its parameters, so many, have the call's tag. It takes two steps for each parameter and
/// each local cell at most. `Memory` is want of memory.
pub fn called_run<L: Ledger>(
    alloc: Global,
    program: &Program,
    function: u16,
    count: usize,
    call: Option<EventId>,
    steps: &mut Steps<L>,
) -> Result<Run, Memory>
    ensures value { IfOk result (λ run. run ≡ called program.now function count call) }
    ensures cost { steps.new ≤ steps.old + 2 * (count + (body_numbered program.now function).cells) }
{
    let others = (size_at(program, function) as usize).saturating_sub(count);
    let mut tags = Seq::new(alloc);
    push_copies(&mut tags, call, count, steps)?;
    push_copies(&mut tags, None, others, steps)?;
    Ok(Run {
        call,
        tags,
        latest: ByNumber::new(alloc),
    })
}

/// The tags of the local cells of the top run.
pub fn top_tags(runs: &Stack<Run>) -> &[Option<EventId>]
    ensures { result.now ≡ top_tags_of runs.now }
{
    match runs.top() {
        Some(own) => own.tags.as_slice(),
        None => &[],
    }
}

/// The tag at this place, and None past the end.
pub fn tag_in(tags: &[Option<EventId>], place: usize) -> Option<EventId>
    ensures { result ≡ get_or tags.now place None }
{
    match tags.get(place) {
        Some(tag) => *tag,
        None => None,
    }
}
