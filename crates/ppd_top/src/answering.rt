// The answer to what is asked of a recording.
ghost use Rattle.std.specs.Prelude.{◌≡◌, []};
ghost use Rattle.ppd_flow_past.specs.Pasts.{IsPast};
ghost use Rattle.ppd_session.specs.Sessions.{known_by};
ghost use Rattle.ppd_top_requests.specs.Questions.{asked_of, query_of};
ghost use Rattle.ppd_top_requests.specs.Questions.Query.{Slice};
ghost use Rattle.ppd_top.specs.Replies.{IsAskable, IsReply, IsSliceReply};

use crate::answers::Answer;
use crate::cleans::clean_answer;
use crate::kept::{line_of, past_of, races_of, racy, unscheduled};
use crate::reruns::rerun_answer;
use crate::slices::slice_text;
use crate::wholes::whole_answer;
use ppd_codec_runs::Recalled;
use ppd_model::Race;
use ppd_session::{Past, SessionError, interval_there, process_named};
use ppd_top_requests::{AskedItem, Query};
use std::alloc::Global;
use std::thread::Threads;

/// The slice of an item of a past without races, as a text, or the first refusal that applies.
fn slice_of_process(
    alloc: Global,
    past: &Past,
    asked: &AskedItem<'_>,
) -> Result<Vec<u8>, SessionError>
    requires past { IsPast past.now }
    requires uncut { past.now.cut.now ≡ past.now.logs.now }
    ensures { IsSliceReply (known_by past.now []) (asked_of asked.now) result }
{
    let Some(process) = process_named(past.program, asked.process.as_bytes()) else {
        return line_of(alloc, b"? process\n");
    };
    let Some(interval) = interval_there(past, process, u64::from(asked.interval)) else {
        return line_of(alloc, b"? block\n");
    };
    slice_text(alloc, past, process, interval, asked.item)
}

/// The slice of an item of a past with these races, as a text, or the first refusal that applies.
fn slice_unless_raced(
    alloc: Global,
    past: &Past,
    races: &[Race],
    asked: &AskedItem<'_>,
) -> Result<Vec<u8>, SessionError>
    requires past { IsPast past.now }
    requires uncut { past.now.cut.now ≡ past.now.logs.now }
    ensures { IsSliceReply (known_by past.now races.now) (asked_of asked.now) result }
{
    if !races.is_empty() {
        return racy(alloc, races);
    }
    slice_of_process(alloc, past, asked)
}

fn slice_answer(
    rt: &(impl Threads + Sync),
    alloc: Global,
    recalled: &Recalled,
    asked: &AskedItem<'_>,
) -> Result<Answer, SessionError>
    requires { IsAskable recalled.now }
    ensures { IsReply recalled.now.recording (Slice (asked_of asked.now)) result }
{
    let races = races_of(rt, alloc, recalled)?;
    let text = slice_unless_raced(alloc, &past_of(recalled), races.as_slice(), asked);
    unscheduled(alloc, text)
}

/// The answer to what is asked of a recording that was accepted.
///
/// - `Slice`: a line for each item of the slice, or one line that refuses it, the first of `? races N`, `? process`,
///   `? block` and `? event` that applies.
/// - `Whole`: a line for each event of the run, or the line `? races N`; the same for every number of workers.
/// - `Rerun`: the line of the verdict, and the schedule of the run where it is yes.
/// - `Clean`: the item and its edges as `why` answers, or `? unclean P E` for the least edge E of the process, from the
///   one in which the interval begins, whose past a race touches, or `? event`; or `? process` or `? block`.
///
/// `Diverged` comes only where the replay of an interval fails at that entry, for the whole trace at the first interval
/// by process and number; `Sets` only where the write set of the entry has a cell that the replays write nowhere and an
/// answer needs; neither where a refusal applies, neither of the recording of a whole run, and neither of a run again.
/// `Memory` is want of memory.
pub fn answer_query(
    rt: &(impl Threads + Sync),
    alloc: Global,
    recalled: &Recalled,
    query: &Query<'_>,
) -> Result<Answer, SessionError>
    requires { IsAskable recalled.now }
    ensures { IsReply recalled.now.recording (query_of query.now) result }
{
    match query {
        Query::Slice(asked) => slice_answer(rt, alloc, recalled, asked),
        Query::Whole(workers) => whole_answer(rt, alloc, recalled, *workers),
        Query::Rerun => rerun_answer(alloc, recalled),
        Query::Clean(asked) => clean_answer(rt, alloc, recalled, asked),
    }
}
