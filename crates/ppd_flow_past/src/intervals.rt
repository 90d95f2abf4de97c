ghost use Rattle.std.specs.Prelude.{◌≡◌, get_or, length, slice_get, []};
ghost use Rattle.ppd_flow_past.specs.Pasts.{IsPast};
ghost use Rattle.ppd_flow_past.specs.SeenBy.{seen_in};

use crate::past::Past;

/// The block of an interval of a process, and 0 where there is no such interval.
pub fn block_of(past: &Past, process: u8, interval: u32) -> u16
    requires { IsPast past.now }
    ensures { result ≡ get_or (seen_in past.now process).blocks interval 0 }
{
    match past.cut_index.interval(process, interval) {
        Some(found) => found.block,
        None => 0,
    }
}

/// The interval directly round an interval of a process, if there is one.
pub fn outer_of(past: &Past, process: u8, interval: u32) -> Option<u32>
    requires { IsPast past.now }
    ensures { result ≡ slice_get (get_or (seen_in past.now process).rounds interval []) 0 }
{
    match past.cut_index.interval(process, interval) {
        Some(found) => found.parent,
        None => None,
    }
}

/// How many intervals a process has.
pub fn count_of(past: &Past, process: u8) -> u32
    requires { IsPast past.now }
    ensures { result ≡ length (seen_in past.now process).items }
{
    past.cut_index.count(process)
}
