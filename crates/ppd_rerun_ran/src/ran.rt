// The guided run, with what is held of its processes.
ghost use Rattle.ppd_model.specs.Setting.{setting_of};
ghost use Rattle.std.specs.Prelude.{◌≡◌, ◌+◌, ◌*◌, ◌-◌, ◌<◌, ◌≤◌, ◌^◌, ◌++◌, ◌∷◌, [], Some, length, map, IfOk, OnOk};
ghost use Rattle.ppd_ast.specs.Valid.{IsValid};
ghost use Rattle.ppd_ast.specs.ValidPlan.{IsValidPlan};
ghost use Rattle.ppd_ast.specs.declared.limits.TheConstants.{MOST_BUDGET};
ghost use Rattle.ppd_rerun_guide.specs.Guided.{chosen as chosen_of, guide as guide_of, guided_from};
ghost use Rattle.ppd_model.specs.World.{change};
ghost use Rattle.ppd_sem.specs.Process.{need_of};
ghost use Rattle.ppd_sem.specs.Runs.{IsNumbered, IsRunnable, IsRunning};
ghost use Rattle.ppd_world.specs.Running.{IsHeld, IsReached, Takes};
ghost use Rattle.ppd_rerun_guide.specs.Guides.{guiding_of, left_of};
ghost use Rattle.ppd_rerun_ran.specs.Holding.{begun_held, hold_step};
ghost use Rattle.ppd_rerun_ran.specs.Runs.{HasCome, HoldsStep, IsRan, begun_helds, helds};
ghost use Rattle.ppd_rerun_ran.specs.Seeing.{seen};

use crate::held::Held;
use ppd_ast::{BlockKind, Bytes, Memory};
use ppd_model::{Logs, Taken};
use ppd_rerun_guide::{Guide, Setting};
use ppd_sem::{Proc, find_block};

/// A guided run: its schedule, what is held of each process, and whether it is whole with the record.
#[derive(Drop)]
pub struct Ran {
    pub schedule: Bytes,
    pub held: Vec<Held>,
    pub follows: bool,
}

/// What is held of a process before its first step: the interval of its body runs.
fn begin_one(setting: &Setting, process: u8) -> Result<Held, Memory>
    requires plan { IsNumbered setting.now.plan.now }
    requires range { setting.now.program.now.functions + process < 2 ^ 16 }
    ensures { IfOk result
        (λ held. seen held ≡ begun_held setting.now.program.now setting.now.plan.now process) }
{
    let body = setting.program.functions + process as u16;
    let block = find_block(setting.plan, BlockKind::Process(body)).unwrap_or(0);
    Held::new(setting.alloc, block)
}

/// The same of the first processes, so many.
fn begin(setting: &Setting, count: u8) -> Result<Vec<Held>, Memory>
    requires plan { IsNumbered setting.now.plan.now }
    requires range { setting.now.program.now.functions + count < 2 ^ 16 }
    ensures { IfOk result
        (λ held. map seen held.items ≡ begun_helds setting.now.program.now setting.now.plan.now count) }
{
    let mut held = Vec::new(setting.alloc);
    for process in 0..count {
        let one = begin_one(setting, process)?;
        held.push(one)?;
    }
    Ok(held)
}

/// The step that the process of this number takes from this state is held.
fn hold(
    held: &mut Vec<Held>,
    place: usize,
    setting: &Setting,
    proc: &Proc,
    taken: &Taken,
) -> Result<(), Memory>
    requires program { IsRunnable setting.now.program.now }
    requires plan { IsNumbered setting.now.plan.now }
    requires proc { IsRunning setting.now.program.now proc.now }
    requires need { taken.now.need ≡ need_of setting.now.program.now setting.now.plan.now proc.now }
    ensures { OnOk result
        (map seen held.new.items
        ≡ change (λ x. hold_step setting.now.program.now setting.now.plan.now proc.now x taken.now) place
        (map seen held.old.items)) }
{
    if place >= held.len() {
        return Ok(());
    }
    held[place].step(setting, proc, taken)
}

/// Process `p`, which is chosen, takes its step, which is held, and its number is put into the schedule.
fn take(
    setting: &Setting,
    guide: &mut Guide,
    held: &mut Vec<Held>,
    schedule: &mut Bytes,
    p: u8,
) -> Result<(), Memory>
    requires reached { IsReached guide.old.world }
    requires program { guide.old.world.setting.program ≡ setting.now.program.now }
    requires plan { guide.old.world.setting.plan ≡ setting.now.plan.now }
    requires may { chosen_of guide.old.world.setting.program guide.old.world.setting.plan
        (guiding_of guide.old.world guide.old.dues.items) ≡ Some p }
    ensures guided { OnOk result
        (guiding_of guide.new.world guide.new.dues.items
        ≡ guide_of guide.old.world.setting.program guide.old.world.setting.plan
        (guiding_of guide.old.world guide.old.dues.items) p) }
    ensures comes { OnOk result (Takes guide.old.world (p ∷ []) guide.new.world) }
    ensures kept { OnOk result (IsReached guide.new.world) }
    ensures held { OnOk result
        (HoldsStep guide.old.world p (map seen held.old.items) (map seen held.new.items)) }
    ensures schedule { OnOk result (schedule.new ≡ schedule.old ++ p ∷ []) }
{
    let taken = guide.next(p);
    hold(held, p as usize, setting, guide.proc(p), &taken)?;
    guide.step(p)?;
    schedule.push(p)
}

/// No schedule of so many processes has more steps.
fn most_steps(count: u8, budget: u32) -> u64
    ensures { result ≡ count * (budget + 1) }
{
    count as u64 * (budget as u64 + 1)
}

/// Takes the steps of the guided schedule.
fn run(
    setting: &Setting,
    budget: u32,
    guide: &mut Guide,
    held: &mut Vec<Held>,
) -> Result<Bytes, Memory>
    requires come { IsHeld (setting_of setting.now.program.now setting.now.plan.now budget) guide.old.world [] }
    requires held { map seen held.old.items
        ≡ helds (setting_of setting.now.program.now setting.now.plan.now budget) [] }
    ensures schedule { IfOk result
        (λ h. h ≡ guided_from setting.now.program.now setting.now.plan.now
        ((length setting.now.program.now.bodies - setting.now.program.now.functions) * (budget + 1))
        (guiding_of guide.old.world guide.old.dues.items)) }
    ensures come { IfOk result
        (λ h. HasCome (setting_of setting.now.program.now setting.now.plan.now budget)
        (map left_of guide.old.dues.items) h
        guide.new.world (map left_of guide.new.dues.items) (map seen held.new.items)) }
{
    let mut schedule = Bytes::new(setting.alloc);
    for _step in 0..most_steps(guide.process_count(), budget) {
        match guide.chosen() {
            Some(p) => take(setting, guide, held, &mut schedule, p)?,
            None => return Ok(schedule),
        }
    }
    Ok(schedule)
}

/// The run of a program under the synchronization that is recorded in logs.
pub fn guided_run(setting: &Setting, logs: &Logs, budget: u32) -> Result<Ran, Memory>
    requires program { IsValid setting.now.program.now }
    requires plan { IsValidPlan setting.now.program.now setting.now.plan.now }
    requires budget { budget ≤ MOST_BUDGET }
    ensures { IfOk result (λ ran. IsRan (setting_of setting.now.program.now setting.now.plan.now budget) logs.now ran) }
{
    let mut guide = Guide::new(setting, logs, budget)?;
    let mut held = begin(setting, guide.process_count())?;
    let schedule = run(setting, budget, &mut guide, &mut held)?;
    let follows = guide.has_record();
    Ok(Ran {
        schedule,
        held,
        follows,
    })
}
