ghost use Rattle.ppd_model.specs.Setting.{setting_of};
ghost use Rattle.std.specs.Prelude.{◌≡◌, ◌+◌, ◌*◌, ◌<◌, ◌≤◌, length, IfOk};
ghost use Rattle.std.specs.List.{sum_by};
ghost use Rattle.ppd_ast.specs.Valid.{IsValid};
ghost use Rattle.ppd_ast.specs.ValidPlan.{IsValidPlan};
ghost use Rattle.ppd_model.specs.FullTrace.{full_trace};
ghost use Rattle.ppd_trace.specs.Subjects.{ArePaired};
ghost use Rattle.ppd_trace.specs.Spending.{extent, most_statement_cells, steps_in};
ghost use Rattle.ppd_trace.specs.Traced.{IsTraceOf, IsTraceOfAgreeing, IsTraceable};

use crate::pairs::{PairedStory, find_pairs};
use crate::setting::Setting;
use crate::steps::trace_process;
use crate::subject::Subject;
use crate::tellers::tell_story_in;
use ppd_ast::limits::MOST_BUDGET;
use ppd_ast::{Memory, Plan, Program, Seq, Steps};
use ppd_model::{DriveError, Story, Trace};
use std::alloc::Global;
use std::marker::Brand;
use std::sync::ledger::{Blank, Ledger};

/// The trace of a story.
fn trace_all<L: Ledger>(
    setting: &Setting,
    told: &PairedStory,
    steps: &mut Steps<L>,
) -> Result<Trace, Memory>
    requires story { IsTraceable setting.now told.now.story }
    requires pairs { ArePaired setting.now.program told.now }
    ensures trace { IfOk result
        (λ trace. trace
        ≡ full_trace setting.now told.now.story) }
    ensures cost { steps.new
        ≤ steps.old + 4 * length setting.now.program.bodies + 2 * sum_by (λ b. b.cells) setting.now.program.bodies
        + (3 * most_statement_cells setting.now.program + 12) * steps_in told.now.story }
{
    let alloc = setting.alloc;
    let lists = told.story.steps.as_slice();
    let mut events = Seq::new(alloc);
    for (process, own) in lists.iter().enumerate() {
        steps.tick();
        let own = own.as_slice();
        let subject = Subject {
            alloc,
            program: setting.program,
            plan: setting.plan,
            told,
            process: process as u8,
        };
        let traced = trace_process(&subject, setting.budget, own, steps)?;
        steps.tick();
        events.push(traced)?;
    }
    Ok(Trace { events })
}

/// The trace of the story of a valid program's schedule.
fn trace_story<L: Ledger>(
    setting: &Setting,
    story: Story,
    steps: &mut Steps<L>,
) -> Result<Trace, Memory>
    requires story { IsTraceable setting.now story }
    ensures trace { IfOk result
        (λ trace. trace ≡ full_trace setting.now story) }
    ensures cost { steps.new
        ≤ steps.old + 8 * extent setting.now.program
        + (3 * most_statement_cells setting.now.program + 24) * steps_in story }
{
    let told = find_pairs(setting.alloc, setting.program, story, steps)?;
    trace_all(setting, &told, steps)
}

/// The full trace, as `full_trace` answers it, in a number of steps that is linear in the schedule. A
/// step is a turn of a loop, an item that is put into a list or a map, a look-up in a map, or a call
/// that lets one statement be evaluated; so the memory that is taken is linear in the schedule too.
/// What one number of the schedule costs depends on the program alone, by the cells that one of its
/// statements reads and writes at most. Beside it the shared cells, the bodies and the cells of their
/// frames are counted once. The bound holds for an error too. The errors are those of `full_trace`.
pub fn full_trace_in<L: Ledger>(
    setting: &Setting,
    schedule: &[u8],
    steps: &mut Steps<L>,
) -> Result<Trace, DriveError>
    ensures trace { IsTraceOf setting.now schedule.now result }
    ensures cost { steps.new
        ≤ steps.old + (3 * most_statement_cells setting.now.program + 31) *
        (length schedule.now + extent setting.now.program) }
{
    let story = tell_story_in(setting, schedule, steps)?;
    Ok(trace_story(setting, story, steps)?)
}

/// The full trace, with steps that nobody reads.
fn full_trace_from<L: Ledger>(
    setting: &Setting,
    schedule: &[u8],
    blank: Blank,
) -> Result<Trace, DriveError>
    requires name { blank.name ≡ L.name }
    requires parts { blank.parts ≡ L.parts }
    requires some { 0 < blank.parts }
    ensures { IsTraceOf setting.now schedule.now result }
{
    let mut steps: Steps<L> = Steps::new(blank);
    full_trace_in(setting, schedule, &mut steps)
}

/// The full trace of a schedule of a valid program with a valid plan (Choi, Miller and Netzer 1991,
/// as a whole trace that is made at once): each event with the event that last wrote each place that
/// it reads, the test or call that let it run, and the synchronization that leads to it. The budget,
/// at most 500,000, is that of each process. The pair of a synchronization is looked up by its
/// object and number, in maps that four passes over the steps fill, and the latest test of a
/// statement in a map of its body's run. `NotEnabled(n)`: the first `n` steps can be taken, and number
/// `n`, from 0, is the first that names no enabled process. `Memory` is want of memory. It is made
/// in the steps that `full_trace_in` counts.
pub fn full_trace(
    alloc: Global,
    program: &Program,
    plan: &Plan,
    budget: u32,
    schedule: &[u8],
) -> Result<Trace, DriveError>
    requires program { IsValid program.now }
    requires plan { IsValidPlan program.now plan.now }
    requires budget { budget ≤ MOST_BUDGET }
    ensures trace { IsTraceOf (setting_of program.now plan.now budget) schedule.now result }
    ensures agreeing { IsTraceOfAgreeing (setting_of program.now plan.now budget) schedule.now result }
{
    let setting = Setting::new(alloc, program, plan, budget);
    full_trace_from::<Brand>(&setting, schedule, Blank::new(1))
}
