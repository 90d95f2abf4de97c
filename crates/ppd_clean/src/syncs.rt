ghost use Rattle.std.specs.Prelude.{◌≡◌, count_by, filter_map, is_some, length};
ghost use Rattle.ppd_graph.specs.Ends.{syncs_before as syncs_before_in};
ghost use Rattle.ppd_model.specs.RecordedSets.{sync_in};

use ppd_clean_past::first_entries;
use ppd_model::Entry;

fn is_sync(entry: &Entry) -> bool
    ensures { result ≡ is_some (sync_in entry.now) }
{
    matches!(entry, Entry::Sync { .. })
}

fn count_syncs(entries: &[Entry]) -> usize
    ensures { result ≡ count_by (λ e. is_some (sync_in e)) entries.now }
{
    let mut count = 0;
    for entry in entries {
        if is_sync(entry) {
            count += 1;
        }
    }
    count
}

fn syncs_among(entries: &[Entry]) -> usize
    ensures { result ≡ length (filter_map sync_in entries.now) }
{
    count_syncs(entries)
}

/// How many synchronizations stand before entry `n`.
pub(crate) fn syncs_before(entries: &[Entry], n: u32) -> usize
    ensures { result ≡ syncs_before_in entries.now n }
{
    syncs_among(first_entries(entries, n as usize))
}
