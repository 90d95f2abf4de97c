// A run by a schedule that is handed in.
ghost use Rattle.law_steps.specs.Policies.{setting_by};
ghost use Rattle.ppd_blocks.specs.Blocks.{plan_of};
ghost use Rattle.ppd_race.specs.Races.{races_among, edges_of_logs};
ghost use Rattle.std.specs.Prelude.{◌≡◌, ◌≤◌, [], IfOk, IfErr};
ghost use Rattle.ppd_ast.specs.Valid.{IsValid};
ghost use Rattle.ppd_ast.specs.ValidPlan.{IsValidPlan, IsValidPolicy};
ghost use Rattle.ppd_ast.specs.declared.limits.TheConstants.{MOST_BUDGET};
ghost use Rattle.ppd_session.specs.Known.{known_of_logs};
ghost use Rattle.ppd_model.specs.Schedule.{IsOver};
ghost use Rattle.ppd_top_commands.specs.Output.{answers, before, output};
ghost use Rattle.ppd_top_following.specs.Following.{FailsBy, IsClosed, RanTo, ScheduleFails, StopsAt, drive_error as drive_error_of};
ghost use Rattle.ppd_top_runs.specs.Runs.{CanBeTold, run_setting};
ghost use Rattle.ppd_top_commands.specs.Summary.{summary_of};
ghost use Rattle.ppd_top_following.specs.Following.{FollowFails, Follows};
ghost use Rattle.ppd_world.specs.Running.{IsOf, IsReached, begun};

use crate::text_sink::TextSink;
use ppd_ast::{Memory, Plan, Program};
use ppd_blocks::partition;
use ppd_check::{SourceError, read_source};
use ppd_io::{CHUNK_BYTES, SteadySource};
use ppd_model::{Closed, DriveError};
use ppd_top_commands::tell;
use ppd_top_requests::Options;
use ppd_top_runs::ClosedRun;
use ppd_world::World;
use std::alloc::Global;
use std::thread::Threads;
use thiserror::Error;

/// Why there is no text for a source and a schedule.
#[derive(Clone, Copy, Debug, Drop, Error)]
pub enum FollowError {
    /// The source has no program: its first fault, which is never want of memory.
    #[error(transparent)]
    Refused(SourceError),
    /// This number of the schedule, from 0, is the first that names no process that can take a step.
    #[error("this number of the schedule names no process that can take a step")]
    NotEnabled(u32),
    /// Every number could be taken, and some process can take a step afterwards.
    #[error("a process can take a step after the schedule")]
    NotWhole,
    /// A command line of more than 4,096 bytes, with no `quit` line before it.
    #[error("a command line is too long")]
    LongLine,
    /// More than 65,536 command lines, with no `quit` line among the first ones.
    #[error("there are too many command lines")]
    ManyLines,
    /// Want of memory.
    #[error("want of memory")]
    Memory,
}

impl From<Memory> for FollowError {
    ghost use Rattle.ppd_top_following.specs.declared.following.FollowError.TheVariants as follow_error;

    ghost from_gives = { λ _ e. e ≡ follow_error.Memory };

    fn from(_memory: Memory) -> FollowError {
        FollowError::Memory
    }
}

fn drive_error(error: DriveError) -> FollowError
    ensures { result ≡ drive_error_of error }
{
    match error {
        DriveError::NotEnabled(number) => FollowError::NotEnabled(number),
        DriveError::Memory => FollowError::Memory,
    }
}

/// Closes a world in which nobody can take a step, and to which this schedule came.
fn close_world(
    program: &Program,
    options: &Options,
    world: World,
    schedule: &[u8],
) -> Result<Closed, FollowError>
    requires reached { IsReached world }
    requires comes { IsOf schedule.now world }
    requires over { IsOver world.setting.program world.setting.plan world.world }
    requires setting { world.setting ≡ setting_by program.now options.now.policy options.now.budget }
    ensures closed { IfOk result (λ closed. IsClosed program.now options.now schedule.now closed) }
    ensures error { IfErr result (λ e. StopsAt program.now options.now schedule.now e) }
{
    Ok(world.close()?)
}

/// Takes the schedule in the first world of a program, and closes the world.
fn follow_world(
    program: &Program,
    options: &Options,
    mut world: World,
    schedule: &[u8],
) -> Result<Closed, FollowError>
    requires reached { IsReached world }
    requires first { world ≡ begun (setting_by program.now options.now.policy options.now.budget) }
    requires comes { IsOf [] world }
    ensures closed { IfOk result (λ closed. IsClosed program.now options.now schedule.now closed) }
    ensures error { IfErr result (λ e. StopsAt program.now options.now schedule.now e) }
{
    match world.drive(schedule) {
        Ok(()) => {}
        Err(error) => return Err(drive_error(error)),
    }
    if let Some(_process) = world.lowest() {
        return Err(FollowError::NotWhole);
    }
    close_world(program, options, world, schedule)
}

/// The text of a run and of these commands.
fn tell_all(
    rt: &(impl Threads + Sync),
    alloc: Global,
    run: &ClosedRun<'_>,
    commands: &[u8],
) -> Result<Vec<u8>, FollowError>
    requires { CanBeTold (run_setting run.now) run.now.closed }
    ensures text { IfOk result (λ text. before (summary_of run.now.program.now run.now.closed.ends
        (races_among (edges_of_logs run.now.program.now run.now.closed.logs)))
        (answers (known_of_logs (run_setting run.now) run.now.closed.logs) commands.now)
        ≡ output 0 text.items) }
    ensures error { IfErr result (λ e. FailsBy (answers
        (known_of_logs (run_setting run.now) run.now.closed.logs) commands.now).status e) }
{
    let Ok(bytes) = Vec::from_slice(alloc, commands) else {
        return Err(FollowError::Memory);
    };
    let mut input = SteadySource::new(bytes, CHUNK_BYTES);
    let mut output = TextSink::new(alloc);
    match tell(rt, alloc, run, &mut input, &mut output) {
        0 => Ok(output.into_text()),
        7 => Err(FollowError::LongLine),
        8 => Err(FollowError::ManyLines),
        _ => Err(FollowError::Memory),
    }
}

/// Takes the schedule from the start of a program with its plan, and closes the world that it comes to.
fn close_by(
    alloc: Global,
    program: &Program,
    plan: &Plan,
    options: &Options,
    schedule: &[u8],
) -> Result<Closed, FollowError>
    requires program { IsValid program.now }
    requires plan { plan.now ≡ plan_of program.now options.now.policy }
    requires plan_ok { IsValidPlan program.now plan.now }
    requires budget { options.now.budget ≤ MOST_BUDGET }
    ensures closed { IfOk result (λ closed. IsClosed program.now options.now schedule.now closed) }
    ensures error { IfErr result (λ e. StopsAt program.now options.now schedule.now e) }
{
    let world = World::new(alloc, program, plan, options.budget)?;
    follow_world(program, options, world, schedule)
}

/// Takes the schedule from the start of a program, and tells of it and of the commands.
fn follow_program(
    rt: &(impl Threads + Sync),
    alloc: Global,
    program: &Program,
    options: &Options,
    commands: &[u8],
    schedule: &[u8],
) -> Result<Vec<u8>, FollowError>
    requires program { IsValid program.now }
    requires budget { options.now.budget ≤ MOST_BUDGET }
    requires policy { IsValidPolicy options.now.policy }
    ensures text { IfOk result (λ text. RanTo program.now options.now commands.now schedule.now text.items) }
    ensures error { IfErr result (λ e. ScheduleFails program.now options.now commands.now schedule.now e) }
{
    let plan = partition(alloc, program, &options.policy)?;
    let closed = close_by(alloc, program, &plan, options, schedule)?;
    let run = ClosedRun {
        program,
        plan,
        budget: options.budget,
        closed,
    };
    tell_all(rt, alloc, &run, commands)
}

/// The bytes that `ppd flow` writes for a source whose processes take this schedule, with these bytes as its input.
/// The budget of the options is at most 500,000 and their policy's numbers are at most 4,096.
///
/// `Refused` comes first, where the source has no program; then `NotEnabled` and `NotWhole`, by the schedule; then
/// `LongLine` and `ManyLines`, by the commands. `Memory` is want of memory.
pub fn follow(
    rt: &(impl Threads + Sync),
    alloc: Global,
    source: &[u8],
    options: &Options,
    commands: &[u8],
    schedule: &[u8],
) -> Result<Vec<u8>, FollowError>
    requires budget { options.now.budget ≤ MOST_BUDGET }
    requires policy { IsValidPolicy options.now.policy }
    ensures text { IfOk result (λ text. Follows source.now options.now commands.now schedule.now text.items) }
    ensures error { IfErr result (λ e. FollowFails source.now options.now commands.now schedule.now e) }
{
    match read_source(alloc, source) {
        Err(SourceError::Memory) => Err(FollowError::Memory),
        Err(error) => Err(FollowError::Refused(error)),
        Ok(program) => follow_program(rt, alloc, &program, options, commands, schedule),
    }
}
