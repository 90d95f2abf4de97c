// What an event came from in other edges and other processes.
ghost use Rattle.std.specs.Prelude.{◌≡◌, ◌≤◌, ◌+◌, option_map};
ghost use Rattle.law_flow.specs.Linked.{pair_tag};
ghost use Rattle.law_flow.specs.Writers.{written_in as written_in_events};
ghost use Rattle.ppd_sem.specs.declared.event.Spot.TheVariants.{Shared};
ghost use Rattle.ppd_whole_origins.specs.Costs.{read_cost};
ghost use Rattle.ppd_whole_origins.specs.LinkedPasts.{IsLinked};
ghost use Rattle.ppd_whole_origins.specs.Origins.{across, all_events, pair_by, writer_by};

use crate::linked_past::LinkedPast;
use crate::point::Point;
use ppd_ast::Steps;
use ppd_graph::Paired;
use ppd_model::{EdgeId, EventId, NodeId};
use ppd_sem::Spot;
use ppd_whole_link::{sync_event, written_in};
use std::sync::ledger::Ledger;

fn written_in_edge(linked: &LinkedPast, cell: u16, edge: Option<EdgeId>) -> Option<EventId>
    requires { IsLinked linked.now }
    ensures { result ≡ option_map (written_in_events (all_events linked.now.past.now) cell) edge }
{
    match edge {
        Some(edge) => Some(written_in(linked.marks, cell, edge.process, edge.edge)),
        None => None,
    }
}

fn written_across<L: Ledger>(
    linked: &LinkedPast,
    edge: EdgeId,
    cell: u16,
    steps: &mut Steps<L>,
) -> Option<EventId>
    requires { IsLinked linked.now }
    ensures is { result ≡ across linked.now.past.now edge.process edge.edge cell }
    ensures cost { steps.new ≤ steps.old + read_cost linked.now.past.now }
{
    let greatest = linked
        .writing
        .greatest_before(linked.past, edge, cell, steps);
    written_in_edge(linked, cell, greatest)
}

fn shared_writer<L: Ledger>(point: &Point, cell: u16, steps: &mut Steps<L>) -> Option<EventId>
    requires { IsLinked point.now.linked.now }
    ensures is { result
        ≡ writer_by point.now.linked.now.past.now point.now.process point.now.linker.now (Shared cell) }
    ensures cost { steps.new ≤ steps.old + read_cost point.now.linked.now.past.now }
{
    let process = point.process;
    match point.linker.written(cell) {
        Some(number) => Some(EventId { process, number }),
        None => {
            let edge = point.linker.edge();
            written_across(point.linked, EdgeId { process, edge }, cell, steps)
        }
    }
}

/// The event that wrote what the next event of a process reads in this spot, in at most 65 steps for each process.
pub fn writer_of<L: Ledger>(point: &Point, spot: Spot, steps: &mut Steps<L>) -> Option<EventId>
    requires { IsLinked point.now.linked.now }
    ensures is { result ≡ writer_by point.now.linked.now.past.now point.now.process point.now.linker.now spot }
    ensures cost { steps.new ≤ steps.old + read_cost point.now.linked.now.past.now }
{
    match spot {
        Spot::Local { cell, .. } => point.linker.local(cell),
        Spot::Shared(cell) => shared_writer(point, cell, steps),
    }
}

fn paired_event(linked: &LinkedPast, paired: Paired) -> Option<EventId>
    requires { IsLinked linked.now }
    ensures { result ≡ pair_tag (all_events linked.now.past.now) paired }
{
    match paired {
        Paired::Node(from) => Some(sync_event(linked.marks, from)),
        Paired::Initial => None,
        Paired::Nothing => None,
    }
}

/// What leads to the next event of a process, if it is a synchronization.
pub fn pair_of(point: &Point, number: Option<u32>) -> Option<EventId>
    requires { IsLinked point.now.linked.now }
    ensures { result ≡ pair_by point.now.linked.now.past.now point.now.process point.now.linker.now number }
{
    match number {
        Some(_) => {
            let node = NodeId {
                process: point.process,
                sync: point.linker.edge(),
            };
            paired_event(point.linked, point.linked.past.graph.paired(node))
        }
        None => None,
    }
}
