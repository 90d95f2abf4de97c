ghost use Rattle.law_headline.specs.OfRuns.{RunsHaveTheHeadline};

use law_flow::{
    all_own_parts_are_found, edges_are_found, edges_cost_little, joined_are_events,
    last_costs_little, last_writes_are_found,
};
use law_steps::{agreeing_schedules, replays_give_intervals};
use ppd_model::{
    happened_before_is_tested, items_are_whole, logs_record_runs, objects_stay,
    processes_follow_their_steps,
};
use ppd_session::{logs_tell_runs, runs_are_answered};

/// Law: the headline holds of each run of an accepted program, by what is known of the run.
pub fn runs_have_the_headline()
    ensures { RunsHaveTheHeadline }
{
    processes_follow_their_steps();
    happened_before_is_tested();
    objects_stay();
    logs_record_runs();
    items_are_whole();
    agreeing_schedules();
    replays_give_intervals();
    edges_are_found();
    all_own_parts_are_found();
    edges_cost_little();
    last_writes_are_found();
    last_costs_little();
    joined_are_events();
    logs_tell_runs();
    runs_are_answered();
}
