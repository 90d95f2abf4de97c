ghost use Rattle.std.specs.Prelude.{◌≡◌, ◌≤◌, IfOk};
ghost use Rattle.ppd_ast.specs.Valid.{IsValid};
ghost use Rattle.ppd_ast.specs.ValidPlan.{IsValidPlan};
ghost use Rattle.ppd_ast.specs.declared.limits.TheConstants.{MOST_CALLS};
ghost use Rattle.ppd_model.specs.Replay.{begun_replay};
ghost use Rattle.ppd_emul_values.specs.Emulated.{IsGoing, replaying};

use crate::in_force::InForce;
use crate::pieces::Pieces;
use crate::replayer::{Code, Replayer};
use ppd_ast::{Memory, Seq};
use ppd_index::IntervalLog;
use ppd_sem::Proc;

/// The replay of an interval before its first piece. `Memory` is want of memory.
pub fn begin<'a>(code: &Code, log: &'a IntervalLog<'a>, budget: u32) -> Result<Replayer<'a>, Memory>
    requires program { IsValid code.now.program.now }
    requires plan { IsValidPlan code.now.program.now code.now.plan.now }
    requires depth { log.now.depth ≤ MOST_CALLS }
    ensures begun { IfOk result
        (λ state. replaying state ≡ begun_replay code.now.program.now code.now.plan.now log.now budget) }
    ensures going { IfOk result (λ state. IsGoing code.now state) }
    ensures none { IfOk result (λ state. state.steps ≡ 0) }
{
    let (block, values) = (log.block(), log.values());
    let proc = Proc::at_block(
        code.alloc,
        code.program,
        code.plan,
        block,
        values,
        log.depth(),
        budget,
    )?;
    Ok(Replayer {
        proc,
        in_force: InForce::new(code.alloc),
        pieces: Pieces::new(log),
        since: 0,
        steps: 0,
        items: Seq::new(code.alloc),
    })
}
