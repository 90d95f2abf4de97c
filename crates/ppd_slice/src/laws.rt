ghost use Rattle.ppd_slice.specs.Slices.{SlicesAreOfRuns};

use law_flow::{all_own_parts_are_found, edges_are_found};
use ppd_flow_past::replays_are_seen;
use ppd_slice_search::{reaches_are_slices, slices_are_one};

/// Law: of what is kept of a whole run without a race, under the plan of a policy, what `slice` answers for an item is
/// exactly what the run's flowback edges reach from it, or `NoEvent` exactly where there is no such item, or want of
/// memory.
pub fn slices_are_of_runs()
    ensures { SlicesAreOfRuns }
{
    replays_are_seen();
    edges_are_found();
    all_own_parts_are_found();
    reaches_are_slices();
    slices_are_one();
}
