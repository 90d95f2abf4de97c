ghost use Rattle.ppd_flow.specs.Runs.{AnswersAreOfRuns};

use law_flow::edges_are_found;
use ppd_flow_past::replays_are_seen;

/// Law: of what is kept of a whole run without a race, under the plan of a policy, whatever `edges` answers for an item
/// is exactly the item's edges in the run, or `NoEvent` exactly where there is no such item, or want of memory, where
/// the search within the item's process finds what the run has.
pub fn answers_are_of_runs()
    ensures { AnswersAreOfRuns }
{
    replays_are_seen();
    edges_are_found();
}
