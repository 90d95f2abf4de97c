ghost use Rattle.ppd_clean.specs.Runs.{CleansAreOfRuns};

use law_clean::answers_are_of_runs;
use law_logs::logs_of_runs_have_graphs;
use ppd_race::run_races_are_of_logs;

/// Law: of what is kept of a whole run, with races or without, under the plan of a policy, what `clean_edges` answers
/// is the item with its edges in the run where it is clean, else the least edge whose past has a race, or that there is
/// no such item; or want of memory. No replay of a cut log fails.
pub fn cleans_are_of_runs()
    ensures { CleansAreOfRuns }
{
    answers_are_of_runs();
    run_races_are_of_logs();
    logs_of_runs_have_graphs();
}
