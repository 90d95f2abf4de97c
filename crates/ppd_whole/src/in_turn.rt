// The whole trace in one thread, counted.
ghost use Rattle.std.specs.Prelude.{◌≡◌, ◌≤◌, ◌+◌, map, IfOk, OnOk};
ghost use Rattle.std.specs.Result.{result_map_both};
ghost use Rattle.std.specs.List.{flat_map};
ghost use Rattle.law_flow.specs.Linked.{joined_trace};
ghost use Rattle.ppd_flow_past.specs.Pasts.{IsPast};
ghost use Rattle.ppd_flow.specs.SharedCells.{seens_in};
ghost use Rattle.ppd_whole.specs.Answers.{GivesWhole, IsWholeOf};
ghost use Rattle.ppd_whole.specs.Costs.{lines_cost, whole_cost};
ghost use Rattle.ppd_whole_origins.specs.LinkedPasts.{IsLinked};
ghost use Rattle.ppd_whole_origins.specs.Origins.{all_events};
ghost use Rattle.ppd_whole.specs.Told.{told_processes};
ghost use Rattle.ppd_whole.specs.WholeText.{whole_text};

use crate::laws::wholes_are_of_runs;
use crate::lines::put_process;
use crate::marks::marks_in_turn;
use crate::processes::{are_few, events_in_turn};
use crate::replays_in_turn::all_items_in;
use ppd_ast::{Memory, Seq, Steps};
use ppd_flow_past::Past;
use ppd_model::Item;
use ppd_sem::Event;
use ppd_whole_link::{linkers_are_linked, marks_are_writers};
use ppd_whole_origins::{LinkedPast, WholeError, writing_edges};
use std::alloc::Global;
use std::sync::ledger::Ledger;

// The lines of the events of all processes.
fn lines_in<L: Ledger>(
    alloc: Global,
    linked: &LinkedPast,
    events: &[Vec<&Event>],
    steps: &mut Steps<L>,
) -> Result<Vec<u8>, Memory>
    requires { IsLinked linked.now }
    ensures text { IfOk result
        (λ text. text.items ≡ told_processes linked.now.past.now 0 (map (λ es. map (λ e. e.now) es.items) events.now)) }
    ensures cost { steps.new
        ≤ steps.old + lines_cost linked.now.past.now (map (λ es. map (λ e. e.now) es.items) events.now) }
{
    let mut text = Vec::new(alloc);
    for p in 0..events.len() {
        let Ok(process) = u8::try_from(p) else {
            return Err(Memory);
        };
        put_process(&mut text, alloc, linked, process, &events[p], steps)?;
    }
    Ok(text)
}

// The text of the events that are joined from the items of all intervals.
fn text_in<L: Ledger>(
    alloc: Global,
    past: &Past,
    rows: &[Seq<Item>],
    steps: &mut Steps<L>,
) -> Result<Vec<u8>, Memory>
    requires past { IsPast past.now }
    requires uncut { past.now.cut.now ≡ past.now.logs.now }
    requires rows { rows.now ≡ flat_map (λ x. x.items) (seens_in past.now) }
    ensures text { IfOk result (λ text. text.items
        ≡ whole_text past.now.program.now (joined_trace past.now.program.now past.now.logs.now (seens_in past.now))) }
    ensures cost { steps.new ≤ steps.old + lines_cost past.now (all_events past.now) }
{
    marks_are_writers();
    linkers_are_linked();
    let events = events_in_turn(alloc, past, rows)?;
    if !are_few(&events) {
        return Err(Memory);
    }
    let marks = marks_in_turn(alloc, &events)?;
    let writing = writing_edges(alloc, past)?;
    let linked = LinkedPast {
        past,
        marks: &marks,
        writing: &writing,
    };
    lines_in(alloc, &linked, &events, steps)
}

/// What `whole` answers, found in one thread. Every interval is replayed once, in its own steps; an event takes one
/// step, and each of its reads at most 65 for each process.
pub fn whole_in<L: Ledger>(
    alloc: Global,
    past: &Past,
    steps: &mut Steps<L>,
) -> Result<Vec<u8>, WholeError>
    requires past { IsPast past.now }
    requires uncut { past.now.cut.now ≡ past.now.logs.now }
    ensures is { IsWholeOf past.now (result_map_both (λ text. text.items) (λ e. e) result) }
    ensures gives { GivesWhole past.now (result_map_both (λ text. text.items) (λ e. e) result) }
    ensures cost { OnOk result (steps.new ≤ steps.old + whole_cost past.now) }
{
    wholes_are_of_runs();
    let rows = all_items_in(alloc, past, steps)?;
    let text = text_in(alloc, past, rows.as_slice(), steps)?;
    Ok(text)
}
