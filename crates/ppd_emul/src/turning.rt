ghost use Rattle.std.specs.Prelude.{◌≡◌, ◌<◌, ◌^◌, false, Err, Some};
ghost use Rattle.ppd_emul_values.specs.Emulated.{IfFailed, IsAtNeed, IsGoing, IsSound, IsTurn, replaying, turned};
ghost use Rattle.ppd_model.specs.Fits.{wanted_of as wanted_of_need};
ghost use Rattle.ppd_model.specs.Replay.{end_here as end_here_of, goes_on as goes_on_of, is_budget, turn as turn_of, turn_by_end as turn_by_end_of, turn_by_wanted as turn_by_wanted_of};
ghost use Rattle.ppd_model.specs.Pieces.{piece_of};
ghost use Rattle.ppd_sem.specs.Runs.{IsRunning};

use crate::fitting::{fits, is_same_trap};
use crate::stepping::{end_with_event, step_with, step_without};
use crate::wanting::{is_sync, wanted_of};
use ppd_ast::{Status, Steps};
use ppd_emul_values::{Code, Replayer, Turned, fail};
use ppd_model::{EmulError, Piece, Wanted};
use ppd_sem::{Need, look};
use std::sync::ledger::Ledger;

/// The step is taken if it needs no piece, or if the next piece is the one that it needs.
fn turn_by_wanted<L: Ledger>(
    code: &Code,
    state: &mut Replayer,
    need: Need,
    steps: &mut Steps<L>,
) -> Result<Turned, EmulError>
    requires next { IsAtNeed code.now state.old need }
    requires paid { is_budget need ≡ false }
    ensures { IsTurn code.now state.old state.new steps.old steps.new result
        (turn_by_wanted_of code.now.program.now code.now.plan.now need
        (wanted_of_need code.now.program.now code.now.plan.now state.old.proc need) (replaying state.old)) }
{
    match wanted_of(code.alloc, code.program, code.plan, &state.proc, need)? {
        Some(wanted) => {
            let (_, piece) = state.pieces.next();
            if fits(&wanted, piece) {
                step_with(code, state, need, piece, steps)
            } else {
                Err(fail(code.alloc, state, wanted))
            }
        }
        None => step_without(code, state, need, steps),
    }
}

/// The process has to end before its next step, but it would go on.
fn goes_on(code: &Code, state: &Replayer, need: Need) -> EmulError
    requires code { IsSound code.now }
    requires proc { IsRunning code.now.program.now state.now.proc }
    ensures { IfFailed result
        (turned (Err result) state.now
        ≡ goes_on_of code.now.program.now code.now.plan.now need (replaying state.now)) }
{
    match wanted_of(code.alloc, code.program, code.plan, &state.proc, need) {
        Ok(wanted) => fail(code.alloc, state, wanted.unwrap_or(Wanted::Fewer)),
        Err(_) => EmulError::Memory,
    }
}

/// The process ends here, after its steps, and not for its budget: it traps, or was blocked at a synchronization.
fn turn_at_end<L: Ledger>(
    code: &Code,
    state: &mut Replayer,
    status: Status,
    need: Need,
    steps: &mut Steps<L>,
) -> Result<Turned, EmulError>
    requires next { IsAtNeed code.now state.old need }
    requires paid { is_budget need ≡ false }
    requires other { status ≡ Status.Budget → ⊥ }
    ensures { IsTurn code.now state.old state.new steps.old steps.new result
        (turn_by_end_of code.now.program.now code.now.plan.now (Some status) need (replaying state.old)) }
{
    match status {
        Status::Blocked => {
            if is_sync(need) {
                Ok(Turned::Done)
            } else {
                Err(goes_on(code, state, need))
            }
        }
        Status::Trap(trap) => match need {
            Need::Trap(found) => {
                if is_same_trap(trap, found) {
                    end_with_event(code, state, steps)
                } else {
                    Err(fail(code.alloc, state, Wanted::End(Status::Trap(found))))
                }
            }
            _ => Err(goes_on(code, state, need)),
        },
        Status::Ended | Status::Budget => Err(goes_on(code, state, need)),
    }
}

/// How the process ended, where the piece is its end and so many steps are those before it.
fn end_here(since: u64, piece: Piece) -> Option<Status>
    ensures { result ≡ end_here_of since (piece_of piece.entry) }
{
    match piece {
        Piece::End(status, rest) => {
            if since == u64::from(rest) {
                Some(status)
            } else {
                None
            }
        }
        _ => None,
    }
}

/// The turn of a process that ended so after its steps, if it ended here.
fn turn_by_end<L: Ledger>(
    code: &Code,
    state: &mut Replayer,
    ending: Option<Status>,
    need: Need,
    steps: &mut Steps<L>,
) -> Result<Turned, EmulError>
    requires { IsAtNeed code.now state.old need }
    ensures { IsTurn code.now state.old state.new steps.old steps.new result
        (turn_by_end_of code.now.program.now code.now.plan.now ending need (replaying state.old)) }
{
    match ending {
        Some(Status::Budget) => Ok(Turned::Done),
        _ => match need {
            Need::Budget => Err(fail(code.alloc, state, Wanted::Fewer)),
            _ => match ending {
                Some(status) => turn_at_end(code, state, status, need, steps),
                None => turn_by_wanted(code, state, need, steps),
            },
        },
    }
}

/// One turn takes one step, or ends the replay.
pub(crate) fn turn<L: Ledger>(
    code: &Code,
    state: &mut Replayer,
    steps: &mut Steps<L>,
) -> Result<Turned, EmulError>
    requires code { IsSound code.now }
    requires state { IsGoing code.now state.old }
    requires few { state.old.steps < 2 ^ 40 }
    ensures { IsTurn code.now state.old state.new steps.old steps.new result
        (turn_of code.now.program.now code.now.plan.now (replaying state.old)) }
{
    let need = look(code.program, code.plan, &state.proc);
    let (_, piece) = state.pieces.next();
    let ending = end_here(state.since, piece);
    turn_by_end(code, state, ending, need, steps)
}
