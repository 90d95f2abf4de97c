ghost use Rattle.ppd_model.specs.Setting.{setting_of};
ghost use Rattle.std.specs.Prelude.{◌≡◌, ◌+◌, ◌≤◌, ◌<◌, ◌^◌, ◌++◌, ◌∷◌, [], length, IfOk, OnOk, unwrap_or};
ghost use Rattle.ppd_ast.specs.declared.plan.BlockKind.TheVariants.{Process};
ghost use Rattle.ppd_model.specs.Logs.{begun_log};
ghost use Rattle.ppd_sem.specs.Runs.{IsNumbered, IsRunnable};
ghost use Rattle.ppd_sem.specs.Tables.{block_of};
ghost use Rattle.ppd_world.specs.Starts.{begun_chans, begun_logs, begun_sems, first_entries as first_entries_of};

use ppd_ast::{BlockKind, Memory, Nums, Plan, Program, Seq, Start};
use ppd_model::{Boxed, Channel, Counts, Entry, Logging};
use ppd_sem::{Proc, find_block, find_unit};
use ppd_world_steps::unit_values;
use std::alloc::Global;

fn block_of_process(plan: &Plan, body: u16) -> u16
    requires { IsNumbered plan.now }
    ensures { result ≡ unwrap_or (block_of plan.now (Process body)) 0 }
{
    match find_block(plan, BlockKind::Process(body)) {
        Some(block) => block,
        None => 0,
    }
}

/// The entries that stand before a process's first step.
fn first_entries(
    alloc: Global,
    program: &Program,
    plan: &Plan,
    body: u16,
) -> Result<Seq<Entry>, Memory>
    requires { IsNumbered plan.now }
    ensures { IfOk result (λ entries. entries ≡ first_entries_of program.now plan.now body) }
{
    let block = block_of_process(plan, body);
    let unit = find_unit(plan, Start::Entry(body));
    let values = unit_values(alloc, plan, program.starts.as_slice(), unit)?;
    let mut entries = Seq::new(alloc);
    entries.push(Entry::Prelog {
        block,
        values: Boxed::new(),
    })?;
    entries.push(Entry::Unit { unit, values })?;
    Ok(entries)
}

/// A process with its log before its first step.
fn start_log(
    alloc: Global,
    program: &Program,
    plan: &Plan,
    budget: u32,
    process: u8,
) -> Result<Logging, Memory>
    requires program { IsRunnable program.now }
    requires plan { IsNumbered plan.now }
    requires process { program.now.functions + process < length program.now.bodies }
    requires range { program.now.functions + process < 2 ^ 16 }
    ensures { IfOk result (λ logging. logging ≡ begun_log (setting_of program.now plan.now budget) process) }
{
    let proc = Proc::start(alloc, program, plan, process, budget)?;
    let functions = program.functions;
    let entries = first_entries(alloc, program, plan, functions + process as u16)?;
    Ok(Logging {
        proc,
        reads: Seq::new(alloc),
        writes: Seq::new(alloc),
        rest: 0,
        entries,
    })
}

fn push_logging(loggings: &mut Vec<Logging>, logging: Logging) -> Result<(), Memory>
    ensures { OnOk result (loggings.new.items ≡ loggings.old.items ++ logging ∷ []) }
{
    loggings.push(logging)?;
    Ok(())
}

/// The first processes, so many, with their logs before their first steps.
pub(crate) fn start_logs(
    alloc: Global,
    program: &Program,
    plan: &Plan,
    budget: u32,
    count: u8,
) -> Result<Vec<Logging>, Memory>
    requires program { IsRunnable program.now }
    requires plan { IsNumbered plan.now }
    requires processes { program.now.functions + count ≤ length program.now.bodies }
    requires range { program.now.functions + count < 2 ^ 16 }
    ensures { IfOk result (λ loggings. loggings.items ≡ begun_logs (setting_of program.now plan.now budget) count) }
{
    let mut loggings = Vec::new(alloc);
    for process in 0..count {
        let logging = start_log(alloc, program, plan, budget, process)?;
        push_logging(&mut loggings, logging)?;
    }
    Ok(loggings)
}

/// The counts of the semaphores before the first step.
pub(crate) fn start_sems(alloc: Global, program: &Program) -> Result<Vec<Counts>, Memory>
    ensures { IfOk result (λ sems. sems.items ≡ begun_sems program.now) }
{
    let mut sems = Vec::new(alloc);
    for sem in program.sems.as_slice() {
        let counts = Counts {
            given: sem.start,
            taken: 0,
        };
        sems.push(counts)?;
    }
    Ok(sems)
}

/// The channels before the first step.
pub(crate) fn start_chans(alloc: Global, program: &Program) -> Result<Vec<Channel>, Memory>
    ensures { IfOk result (λ chans. chans.items ≡ begun_chans program.now) }
{
    let mut chans = Vec::new(alloc);
    for chan in program.chans.as_slice() {
        let channel = Channel {
            capacity: chan.capacity,
            sent: Nums::new(alloc),
            received: 0,
            completed: 0,
        };
        chans.push(channel)?;
    }
    Ok(chans)
}
