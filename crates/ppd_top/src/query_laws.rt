// Laws of the answers to what is asked of a recording.
ghost use Rattle.ppd_top.specs.Determined.{AnswersAreDetermined, FailedAreMissing};
ghost use Rattle.ppd_top.specs.QueryLaws.{QueriesEnd, RunsAreTold};
ghost use Rattle.ppd_top.specs.Missing.{FailuresAreMissing};
ghost use Rattle.ppd_top.specs.OfRuns.{AnswersAreOfRuns, SlicesAreOfRuns};
ghost use Rattle.ppd_top.specs.SlicesOfRuns.{SliceTextsAreOfRuns};

use ppd_model::items_are_whole;
use ppd_slice_search::{reaches_are_slices, slices_are_one};

/// Law: what is asked of a recording ends with status 0 or with status 6, and of the recording of a whole run with
/// status 0.
pub fn queries_end()
    ensures ends { QueriesEnd }
    ensures runs { RunsAreTold }
{}

/// Law: by what is known of a run of a valid program, the text of the slice of an item that is told has a line for each
/// item that the run's flowback edges reach from it, and no other; and so has the answer for an item that is asked for,
/// where nothing is refused.
pub fn slices_are_of_runs()
    ensures texts { SliceTextsAreOfRuns }
    ensures answers { SlicesAreOfRuns }
{
    items_are_whole();
    reaches_are_slices();
    slices_are_one();
}

/// Law: what is answered of the recording of a whole run without a race is that of the run, and of each schedule that
/// agrees with it: a slice has what the run's flowback edges reach, the whole trace is the full trace, and a run again
/// is confirmed by a schedule that agrees. With races or without, an item is answered as it is to be by the run.
pub fn answers_are_of_runs()
    ensures { AnswersAreOfRuns }
{
    items_are_whole();
}

/// Law: where a query of an accepted recording fails with `Sets` at an entry, a write that the entry records is
/// missing: the entry ends an internal edge, its write set has the cell, and no event that the replays of the query
/// give of that edge writes the cell.
pub fn missing_writes_are_told()
    ensures { FailuresAreMissing }
{}

/// Law: what is answered of an accepted recording is, but for edges, determined by what is known of it: the items of a
/// slice are those that the known edges reach, the whole trace is told where no replay fails, and clean flowback tells
/// the item, or the edge whose past a race touches. Where that fails with `Sets` at an entry, a write that the entry
/// records is missing.
pub fn answers_are_determined()
    ensures answers { AnswersAreDetermined }
    ensures missing { FailedAreMissing }
{}
