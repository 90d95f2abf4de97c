// Laws of the top call.
ghost use Rattle.ppd_top.specs.Promises.{AcceptedProgramsAreTold, DebugTellsOfRuns, FlowTellsOfRuns};
ghost use Rattle.ppd_top.specs.Promises.{RecordedRunsAreTold, RunTellsOfRuns, SourcesAreRecorded};

use law_headline::runs_have_the_headline;
use ppd_check::one_answer;

/// Law: by the clauses of the top call the headline holds of each run that a call of the program tells of. `flow` tells
/// of the run of the loaded source by the schedule that the threads took, `run` reports its races and stores its
/// recording, and `debug` tells of each run whose recording was loaded. No accepted program, and no recording of a run,
/// is refused: but for want of memory each is told of where no device fails.
pub fn calls_tell_of_runs()
    ensures flow { FlowTellsOfRuns }
    ensures programs { AcceptedProgramsAreTold }
    ensures run { RunTellsOfRuns }
    ensures sources { SourcesAreRecorded }
    ensures debug { DebugTellsOfRuns }
    ensures recordings { RecordedRunsAreTold }
{
    runs_have_the_headline();
    one_answer();
}
