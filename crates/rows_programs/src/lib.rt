//! Worked rows by computation, each stated as an equation that the definitions compute: the core form of sources; small
//! programs with their needs, flow graphs, runs, logs, intervals, flowback edges and replays; guided schedules; whole
//! traces and slices. No call.
#![tactic(auto)]
