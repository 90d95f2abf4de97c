// The innermost interval of a process at each of its entries.
ghost use Rattle.std.specs.Prelude.{◌≡◌, ◌+◌, ◌≤◌, ◌<◌, ◌&&◌, ◌^◌, ℕ, IfOk, get_or, length, nat_le, nat_lt, replicate, slice_get, if◌then◌else◌, []};
ghost use Rattle.ppd_graph.specs.Ends.{innermost_from};
ghost use Rattle.ppd_flow_past.specs.Edges.Found.{stands_there};
ghost use Rattle.ppd_flow_past.specs.Pasts.{IsPast};
ghost use Rattle.ppd_model.specs.Extents.{extents};

use ppd_ast::{Ids, Memory, Seq};
use ppd_flow_past::Past;
use std::alloc::Global;

fn zeros(alloc: Global, count: usize) -> Result<Ids, Memory>
    ensures { IfOk result (λ zeros. zeros ≡ replicate count 0) }
{
    Ok(Seq::from_vec(vec![in alloc; 0; count]?))
}

/// Writes the interval at the entries after the first of these and up to the last.
fn paint(innermost: &mut Ids, first: u32, last: u32, interval: u32)
    ensures long { length innermost.new ≡ length innermost.old }
    ensures is { (n : ℕ) → n < length innermost.old → get_or innermost.new n 0
        ≡ (if nat_lt first n && nat_le n last then interval else get_or innermost.old n 0) }
{
    for n in first as usize + 1..last as usize + 1 {
        innermost.set(n, interval);
    }
}

/// Writes an interval at the entries that stand in it, if it is there.
fn paint_interval(innermost: &mut Ids, past: &Past, process: u8, interval: u32)
    requires { IsPast past.now }
    ensures long { length innermost.new ≡ length innermost.old }
    ensures is { (n : ℕ) → n < length innermost.old → get_or innermost.new n 0
        ≡ (if stands_there n (slice_get (extents (get_or past.now.logs.now.lists process [])) interval) then interval
        else get_or innermost.old n 0) }
{
    match past.index.interval(process, interval) {
        Some(found) => paint(innermost, found.first, found.last, interval),
        None => {}
    }
}

/// The innermost interval at each entry, and at the end.
pub(crate) fn innermost_of(
    alloc: Global,
    past: &Past,
    process: u8,
    count: u32,
) -> Result<Ids, Memory>
    requires { IsPast past.now }
    ensures { IfOk result (λ innermost. (n : ℕ) → n ≤ count → get_or innermost n 0
        ≡ innermost_from n 0 0 (extents (get_or past.now.logs.now.lists process []))) }
{
    let mut innermost = zeros(alloc, count as usize + 1)?;
    for interval in 0..past.index.count(process) {
        paint_interval(&mut innermost, past, process, interval);
    }
    Ok(innermost)
}
