ghost use Rattle.std.specs.Prelude.{◌≡◌, ◌<◌, ◌≤◌, ◌+◌, ◌-◌, ◌*◌, ◌^◌, ℕ, filter, length};
ghost use Rattle.ppd_race_found.specs.Search.{IsRising, AreInOrder, AreParted, IsCut, IsElsewhere, is_apart, is_on as is_on_by};

use crate::busy::Accessor;
use ppd_ast::Steps;
use ppd_graph::SyncGraph;
use ppd_model::EdgeId;
use std::sync::ledger::Ledger;

/// Where an edge can stand to an edge of another process.
#[derive(Clone, Copy)]
pub(crate) enum Side {
    Before,
    NotAfter,
}

fn is_on(graph: &SyncGraph, side: Side, a: EdgeId, b: EdgeId) -> bool
    ensures { result ≡ is_on_by graph.now side b a }
{
    match side {
        Side::Before => graph.before(a, b),
        Side::NotAfter => !graph.before(b, a),
    }
}

fn count_of(list: &[Accessor]) -> usize
    ensures count { result ≡ length list.now }
    ensures fits { length list.now < 2 ^ 64 }
{
    list.len()
}

// How many of the edges, the first ones, stand on this side of an edge: by halves, of which there are at most 64, and
// as many as leave none.
fn count_on<L: Ledger>(
    graph: &SyncGraph,
    side: Side,
    list: &[Accessor],
    b: EdgeId,
    steps: &mut Steps<L>,
) -> usize
    ensures within { result ≤ length list.now }
    ensures cut { AreParted (is_on_by graph.now side b) list.now → IsCut (is_on_by graph.now side b) list.now result }
    ensures cost { steps.new ≤ steps.old + 64 }
    ensures on { steps.old ≤ steps.new }
    ensures least { length list.now + 2 ≤ 2 * 2 ^ (steps.new - steps.old) }
{
    let mut low = 0;
    let mut high = count_of(list);
    while low < high {
        steps.tick();
        let middle = low + (high - low) / 2;
        if is_on(graph, side, list[middle].edge, b) {
            low = middle + 1;
        } else {
            high = middle;
        }
    }
    low
}

/// Of the edges of a process, which rise, those that are neither before an edge of another process nor after it: since
/// what is before an edge is before the later ones of its process, they stand together.
pub(crate) fn window<'a, L: Ledger>(
    graph: &SyncGraph,
    list: &'a [Accessor],
    b: EdgeId,
    steps: &mut Steps<L>,
) -> &'a [Accessor]
    ensures apart { IsRising graph.now → (p : ℕ) → AreInOrder graph.now p list.now → IsElsewhere graph.now p b
        → result.now ≡ filter (is_apart graph.now b) list.now }
    ensures cost { steps.new ≤ steps.old + 128 }
    ensures on { steps.old ≤ steps.new }
{
    let from = count_on(graph, Side::Before, list, b, steps);
    let to = count_on(graph, Side::NotAfter, list, b, steps);
    let begin = from.min(to);
    &list[begin..to]
}
