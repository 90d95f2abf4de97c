ghost use Rattle.std.specs.Prelude.{◌≡◌, ◌-◌, count_by, drop, filter_map, is_some, length, take, get_or, []};
ghost use Rattle.ppd_graph.specs.Ends.{syncs_before as syncs_before_in};
ghost use Rattle.ppd_model.specs.RecordedSets.{sync_in};

use ppd_model::{Entry, Logs};

/// The entries of a process, and none past the processes.
pub fn entries_of(logs: &Logs, process: u8) -> &[Entry]
    ensures { result.now ≡ get_or logs.now.lists process [] }
{
    match logs.lists.get(process as usize) {
        Some(entries) => entries.as_slice(),
        None => &[],
    }
}

pub(crate) fn is_sync(entry: &Entry) -> bool
    ensures { result ≡ is_some (sync_in entry.now) }
{
    matches!(entry, Entry::Sync { .. })
}

fn count_syncs(entries: &[Entry]) -> usize
    ensures { result ≡ count_by (λ e. is_some (sync_in e)) entries.now }
{
    let mut count = 0;
    for entry in entries {
        if is_sync(entry) {
            count += 1;
        }
    }
    count
}

/// How many synchronizations are among these entries.
fn syncs_among(entries: &[Entry]) -> usize
    ensures { result ≡ length (filter_map sync_in entries.now) }
{
    count_syncs(entries)
}

fn first_entries(entries: &[Entry], count: usize) -> &[Entry]
    ensures { result.now ≡ take count entries.now }
{
    if count < entries.len() {
        &entries[..count]
    } else {
        entries
    }
}

fn last_entries(entries: &[Entry], from: usize) -> &[Entry]
    ensures { result.now ≡ drop from entries.now }
{
    if from < entries.len() {
        &entries[from..]
    } else {
        &[]
    }
}

/// How many synchronizations stand before entry `n`.
pub(crate) fn syncs_before(entries: &[Entry], n: u32) -> usize
    ensures { result ≡ syncs_before_in entries.now n }
{
    syncs_among(first_entries(entries, n as usize))
}

/// How many more stand before entry `to` than before entry `from`.
pub(crate) fn syncs_between(entries: &[Entry], from: u32, to: u32) -> usize
    ensures { result ≡ syncs_before_in entries.now to - syncs_before_in entries.now from }
{
    if from > to {
        return 0;
    }
    let early = first_entries(entries, to as usize);
    syncs_among(last_entries(early, from as usize))
}
