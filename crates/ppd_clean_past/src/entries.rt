// The first entries of a log.
ghost use Rattle.std.specs.Prelude.{◌≡◌, ◌+◌, if◌then◌else◌, slice_get, take};
ghost use Rattle.law_clean.specs.Cuts.{is_unit};

use ppd_model::Entry;

/// The first entries, at most so many.
pub fn first_entries(entries: &[Entry], count: usize) -> &[Entry]
    ensures { result.now ≡ take count entries.now }
{
    if count < entries.len() {
        &entries[..count]
    } else {
        entries
    }
}

/// Past entry `n` too where it is a unit.
fn past_unit(entries: &[Entry], n: usize) -> usize
    ensures { result ≡ (if is_unit (slice_get entries.now n) then n + 1 else n) }
{
    match entries.get(n) {
        Some(Entry::Unit { .. }) => n + 1,
        _ => n,
    }
}

/// The first `n` entries, with a unit that follows.
pub fn kept_entries(entries: &[Entry], n: usize) -> &[Entry]
    ensures { result.now ≡ take (if is_unit (slice_get entries.now n) then n + 1 else n) entries.now }
{
    first_entries(entries, past_unit(entries, n))
}
