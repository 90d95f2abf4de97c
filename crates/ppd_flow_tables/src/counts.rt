// The synchronizations of a process by the edges that they end.
ghost use Rattle.std.specs.Prelude.{◌≡◌, ◌+◌, ◌<◌, ◌^◌, IfOk, is_some, length, if◌then◌else◌};
ghost use Rattle.ppd_graph.specs.Ends.{ends_edge as ends_an_edge};
ghost use Rattle.ppd_model.specs.RecordedSets.{sync_in};
ghost use Rattle.ppd_flow_tables.specs.Counts.{AreCounts};
ghost use Rattle.ppd_flow_tables.specs.Tables.{AreWhere, ends_there};

use crate::listing::{Listing, push_if};
use ppd_ast::{Ids, Memory, Seq};
use ppd_model::Entry;
use std::alloc::Global;

fn is_sync(entry: &Entry) -> bool
    ensures { result ≡ is_some (sync_in entry.now) }
{
    matches!(entry, Entry::Sync { .. })
}

fn ends_edge(entry: &Entry) -> bool
    ensures { result ≡ ends_an_edge entry.now }
{
    matches!(entry, Entry::Sync { .. } | Entry::End { .. })
}

/// One more where the entry is a synchronization.
fn count_with(count: u32, entry: &Entry) -> u32
    requires { count + 1 < 2 ^ 32 }
    ensures { result ≡ (if is_some (sync_in entry.now) then count + 1 else count) }
{
    if is_sync(entry) { count + 1 } else { count }
}

/// How many synchronizations stand before each entry, and before the end.
pub(crate) fn counts_of(alloc: Global, entries: &[Entry]) -> Result<Ids, Memory>
    requires { length entries.now < 2 ^ 32 }
    ensures { IfOk result (AreCounts entries.now) }
{
    let mut count = 0;
    let mut counts = Seq::new(alloc);
    counts.push(count)?;
    for entry in entries {
        count = count_with(count, entry);
        counts.push(count)?;
    }
    Ok(counts)
}

/// The entries that end edges, under these.
pub(crate) fn ends_of(alloc: Global, entries: &[Entry], counts: &[u32]) -> Result<Listing, Memory>
    requires few { length entries.now < 2 ^ 32 }
    requires counts { AreCounts entries.now counts.now }
    ensures { IfOk result (λ ends. AreWhere (ends_there entries.now) ends.keys) }
{
    let mut keys = Seq::new(alloc);
    for (place, entry) in entries.iter().enumerate() {
        push_if(&mut keys, ends_edge(entry), counts[place], place as u32)?;
    }
    Ok(Listing::new(keys))
}
