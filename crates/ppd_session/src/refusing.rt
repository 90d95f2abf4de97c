// Refusals.
ghost use Rattle.std.specs.Prelude.{◌≡◌, ◌≢◌, ◌++◌, IfErr, IfOk, OnOk};
ghost use Rattle.ppd_session.specs.Texts.{refused_replay};
ghost use Rattle.ppd_session.specs.declared.reply.SessionError.TheVariants as session_error;

use crate::reply::SessionError;
use ppd_ast::{Memory, Program};
use ppd_text::{at_entry, put};
use std::alloc::Global;

/// Appends a refusal.
pub(crate) fn put_refusal(text: &mut Vec<u8>, refusal: &[u8]) -> Result<(), SessionError>
    ensures text { OnOk result (text.new.items ≡ text.old.items ++ refusal.now) }
    ensures error { IfErr result (λ e. e ≡ session_error.Memory) }
{
    put(text, refusal)?;
    Ok(())
}

/// The line of a replay that fails, or that writes a cell nowhere, in place of the answer that needs it. The error is
/// want of memory, also where that was why there is no answer.
pub fn replay_line(alloc: Global, program: &Program, error: SessionError) -> Result<Vec<u8>, Memory>
    ensures line { IfOk result (λ line. line.items ≡ refused_replay program.now error) }
    ensures fault { OnOk result (error ≢ session_error.Memory) }
{
    match error {
        SessionError::Diverged(at) => {
            at_entry(alloc, program, b"recording refused replay 1 Diverged ", at)
        }
        SessionError::Sets(at) => {
            at_entry(alloc, program, b"recording refused replay 3 Sets ", at)
        }
        SessionError::Memory => Err(Memory),
    }
}
