// The text of the whole trace.
ghost use Rattle.std.specs.Prelude.{◌≡◌, ◌<◌, IfOk};
ghost use Rattle.std.specs.Result.{result_map_both};
ghost use Rattle.std.specs.List.{flat_map};
ghost use Rattle.law_flow.specs.Linked.{joined_trace};
ghost use Rattle.ppd_flow_past.specs.Pasts.{IsPast};
ghost use Rattle.ppd_flow.specs.SharedCells.{seens_in};
ghost use Rattle.ppd_whole.specs.Answers.{GivesWhole, IsWholeOf};
ghost use Rattle.ppd_whole.specs.WholeText.{whole_text};

use crate::in_turn::whole_in;
use crate::laws::wholes_are_of_runs;
use crate::marks::marks_of_all;
use crate::processes::{are_few, events_of_all};
use crate::replays::{all_items, drop_all};
use crate::text::{joined, lines_of_all};
use ppd_ast::{Bytes, Memory, Seq, Steps};
use ppd_flow_past::Past;
use ppd_model::Item;
use ppd_whole_link::{linkers_are_linked, marks_are_writers};
use ppd_whole_origins::{LinkedPast, WholeError, writing_edges};
use std::alloc::Global;
use std::marker::Brand;
use std::sync::ledger::{Blank, Ledger};
use std::thread::Threads;

/// The lines of each process, whose events are joined from the items of all intervals.
fn parts_of(
    rt: &(impl Threads + Sync),
    alloc: Global,
    past: &Past,
    rows: &[Seq<Item>],
    workers: u32,
) -> Result<Vec<Bytes>, Memory>
    requires past { IsPast past.now }
    requires uncut { past.now.cut.now ≡ past.now.logs.now }
    requires rows { rows.now ≡ flat_map (λ x. x.items) (seens_in past.now) }
    requires workers { 0 < workers }
    ensures { IfOk result (λ parts. flat_map (λ part. part) parts.items
        ≡ whole_text past.now.program.now (joined_trace past.now.program.now past.now.logs.now (seens_in past.now))) }
{
    marks_are_writers();
    linkers_are_linked();
    let events = events_of_all(rt, alloc, past, rows, workers)?;
    if !are_few(&events) {
        return Err(Memory);
    }
    let marks = marks_of_all(rt, alloc, &events, workers)?;
    let writing = writing_edges(alloc, past)?;
    let linked = LinkedPast {
        past,
        marks: &marks,
        writing: &writing,
    };
    lines_of_all(rt, alloc, &linked, &events, workers)
}

// The whole trace in one thread, with steps that nobody reads.
fn whole_from<L: Ledger>(alloc: Global, past: &Past, blank: Blank) -> Result<Vec<u8>, WholeError>
    requires name { blank.name ≡ L.name }
    requires parts { blank.parts ≡ L.parts }
    requires some { 0 < blank.parts }
    requires past { IsPast past.now }
    requires uncut { past.now.cut.now ≡ past.now.logs.now }
    ensures is { IsWholeOf past.now (result_map_both (λ text. text.items) (λ e. e) result) }
    ensures gives { GivesWhole past.now (result_map_both (λ text. text.items) (λ e. e) result) }
{
    let mut steps: Steps<L> = Steps::new(blank);
    whole_in(alloc, past, &mut steps)
}

fn whole_alone(alloc: Global, past: &Past) -> Result<Vec<u8>, WholeError>
    requires past { IsPast past.now }
    requires uncut { past.now.cut.now ≡ past.now.logs.now }
    ensures is { IsWholeOf past.now (result_map_both (λ text. text.items) (λ e. e) result) }
    ensures gives { GivesWhole past.now (result_map_both (λ text. text.items) (λ e. e) result) }
{
    whole_from::<Brand>(alloc, past, Blank::new(1))
}

// The whole trace, shared among workers: each replays, marks and tells by the functions that `whole_in` counts.
fn whole_shared(
    rt: &(impl Threads + Sync),
    alloc: Global,
    past: &Past,
    workers: u32,
) -> Result<Vec<u8>, WholeError>
    requires past { IsPast past.now }
    requires uncut { past.now.cut.now ≡ past.now.logs.now }
    requires workers { 0 < workers }
    ensures is { IsWholeOf past.now (result_map_both (λ text. text.items) (λ e. e) result) }
    ensures gives { GivesWhole past.now (result_map_both (λ text. text.items) (λ e. e) result) }
{
    wholes_are_of_runs();
    let rows = all_items(rt, alloc, past, workers)?;
    let parts = parts_of(rt, alloc, past, rows.as_slice(), workers)?;
    drop_all(rt, rows, workers);
    let text = joined(alloc, parts)?;
    Ok(text)
}

/// The text of the full trace of what is kept of a whole run without a race, for every number of workers: every
/// interval is replayed, and the items are joined. The intervals are split among the workers, and then the processes;
/// one worker is `whole_in`, which is counted, and more call what it calls.
/// `Diverged` is the first interval, by process and number, of which the replay fails; `Memory` is want of memory.
pub fn whole(
    rt: &(impl Threads + Sync),
    alloc: Global,
    past: &Past,
    workers: u32,
) -> Result<Vec<u8>, WholeError>
    requires past { IsPast past.now }
    requires uncut { past.now.cut.now ≡ past.now.logs.now }
    requires workers { 0 < workers }
    ensures is { IsWholeOf past.now (result_map_both (λ text. text.items) (λ e. e) result) }
    ensures gives { GivesWhole past.now (result_map_both (λ text. text.items) (λ e. e) result) }
{
    if workers == 1 {
        whole_alone(alloc, past)
    } else {
        whole_shared(rt, alloc, past, workers)
    }
}
