// The whole trace of a recording as a text.
ghost use Rattle.std.specs.Prelude.{◌≡◌};
ghost use Rattle.ppd_codec_runs.specs.Recordings.{known_of};
ghost use Rattle.ppd_top_requests.specs.Questions.Query.{Whole};
ghost use Rattle.ppd_top.specs.Replies.{IsAskable, IsReply, IsTextReply, IsWholeReply};

use crate::answers::Answer;
use crate::kept::{past_of, races_of, racy, unscheduled};
use ppd_codec_runs::Recalled;
use ppd_model::Race;
use ppd_session::{At, SessionError};
use ppd_whole::{WholeError, whole};
use std::alloc::Global;
use std::thread::Threads;

/// The text of the whole trace, by so many workers, or why a replay fails.
fn whole_text(
    rt: &(impl Threads + Sync),
    alloc: Global,
    recalled: &Recalled,
    workers: u32,
) -> Result<Vec<u8>, SessionError>
    requires { IsAskable recalled.now }
    ensures { IsWholeReply recalled.now.recording result }
{
    let workers = if workers == 0 { 1 } else { workers };
    match whole(rt, alloc, &past_of(recalled), workers) {
        Ok(text) => Ok(text),
        Err(WholeError::Diverged { process, entry }) => Err(SessionError::Diverged(At {
            process,
            entry,
        })),
        Err(WholeError::Memory) => Err(SessionError::Memory),
    }
}

/// The same where there are no races, else how many there are.
fn whole_unless_raced(
    rt: &(impl Threads + Sync),
    alloc: Global,
    recalled: &Recalled,
    races: &[Race],
    workers: u32,
) -> Result<Vec<u8>, SessionError>
    requires recording { IsAskable recalled.now }
    requires races { races.now ≡ (known_of recalled.now.recording).races }
    ensures { IsTextReply recalled.now.recording (Whole workers) result }
{
    if !races.is_empty() {
        return racy(alloc, races);
    }
    whole_text(rt, alloc, recalled, workers)
}

/// The whole trace of a recording, by so many workers, or that there are races.
pub(crate) fn whole_answer(
    rt: &(impl Threads + Sync),
    alloc: Global,
    recalled: &Recalled,
    workers: u32,
) -> Result<Answer, SessionError>
    requires { IsAskable recalled.now }
    ensures { IsReply recalled.now.recording (Whole workers) result }
{
    let races = races_of(rt, alloc, recalled)?;
    let text = whole_unless_raced(rt, alloc, recalled, races.as_slice(), workers);
    unscheduled(alloc, text)
}
