ghost use Rattle.ppd_race.specs.Races.{GraphRacesAreOfLogs, RunRacesAreOfLogs};

/// Law: the races among a graph's edges are those of the record and the sets of its logs.
pub fn graph_races_are_of_logs()
    ensures { GraphRacesAreOfLogs }
{}

/// Law: the races of the record and the sets that the logs of a schedule of a valid program tell are the races of the
/// schedule.
pub fn run_races_are_of_logs()
    ensures { RunRacesAreOfLogs }
{}
