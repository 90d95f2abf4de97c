//! Laws on the steps of a process: where each leads along the flow graph, what it reads and what it costs, which blocks
//! are open at each of them, and that whatever it reads and whatever controls it comes over a static edge; that whole
//! schedules with one record, of which one has no race, have one story; and the theorem of replays with all that it rests
//! on: the log of one interval alone gives exactly what happened in it (`Theorem` of proofs/ is the end of the way there).
#![tactic(auto)]

mod laws;

pub use laws::agreement::agreeing_schedules;
pub use laws::beside::steps_count_blocks;
pub use laws::coming::logs_are_coming;
pub use laws::edges::{
    control_comes_over_edges, local_reads_come_over_edges, reads_come_over_edges,
    shared_reads_come_over_edges, variables_are_few,
};
pub use laws::in_force::reads_are_in_force;
pub use laws::open_blocks::{schedules_are_runs, steps_move_blocks};
pub use laws::skips::skips_go_past;
pub use laws::spans::spans_are_coming;
pub use laws::steps::{
    ends_are_last, never_runs_out, policy_steps_cost_what_they_write, reads_its_cells,
    reads_lie_in_cells, starts_on_course, stays_on_course, steps_lead, unit_in_force_is_logged,
};
pub use laws::theorem::{emulations_give_intervals, replays_give_intervals};
