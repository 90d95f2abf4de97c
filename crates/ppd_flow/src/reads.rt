ghost use Rattle.std.specs.Prelude.{◌≡◌};
ghost use Rattle.ppd_flow.specs.Answers.{reads_at, spot_origin};
ghost use Rattle.ppd_flow_local.specs.Searches.{IsPlace, IsSearch};
ghost use Rattle.ppd_flow_shared.specs.SharedCells.{IsAnswerTo};

use ppd_ast::{Seq, Steps};
use ppd_flow_local::{LocalCell, Place, Search, push_read};
use ppd_flow_past::FlowError;
use ppd_flow_shared::CellSearch;
use ppd_model::{FlowEdge, Origin};
use ppd_sem::{Access, Spot};
use std::sync::ledger::Ledger;

/// Where a spot that is read at a place was written.
fn read_origin<L: Ledger>(
    search: &Search,
    place: &Place,
    spot: Spot,
    steps: &mut Steps<L>,
) -> Result<Origin, FlowError>
    requires past { IsSearch search.now }
    requires place { IsPlace search.now place.now }
    ensures { IsAnswerTo search.now.past.now (spot_origin search.now place.now spot) steps.old steps.new result }
{
    match spot {
        Spot::Local { frame, cell } => {
            search.local_origin(place, LocalCell { frame, cell }, steps)
        }
        Spot::Shared(cell) => {
            let cells = CellSearch {
                alloc: search.alloc,
                past: search.past,
                tables: search.tables,
                process: search.process,
                cell,
            };
            cells.shared_origin(place.interval, place.items, place.item, steps)
        }
    }
}

/// The edges of these reads at a place, in order.
pub(crate) fn read_edges<L: Ledger>(
    search: &Search,
    place: &Place,
    reads: &[Access],
    steps: &mut Steps<L>,
) -> Result<Seq<FlowEdge>, FlowError>
    requires past { IsSearch search.now }
    requires place { IsPlace search.now place.now }
    ensures { IsAnswerTo search.now.past.now (reads_at search.now place.now reads.now) steps.old steps.new result }
{
    let mut edges = Seq::new(search.alloc);
    for read in reads {
        let from = read_origin(search, place, read.spot, steps)?;
        push_read(&mut edges, read, from)?;
    }
    Ok(edges)
}
