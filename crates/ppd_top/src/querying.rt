// What is asked of a recording without an input.
ghost use Rattle.ppd_top_requests.specs.Questions.{query_of};
ghost use Rattle.ppd_top.specs.Replies.{IsAskable};
ghost use Rattle.ppd_top.specs.Ran.{IsTold, Queries};

use crate::answering::answer_query;
use ppd_ast::Seq;
use ppd_codec_runs::{NoRecall, Recalled, recall};
use ppd_io::Sink;
use ppd_top_commands::{finish, refuse_replay};
use ppd_top_requests::Query;
use ppd_top_runs::{Outcome, ended};
use std::alloc::Global;
use std::thread::Threads;

/// Answers what is asked of a recording that was accepted. The schedule is that of a run again that is confirmed.
fn tell<O: Sink>(
    rt: &(impl Threads + Sync),
    alloc: Global,
    recalled: &Recalled,
    query: &Query<'_>,
    output: &mut O,
) -> Outcome
    requires askable { IsAskable recalled.now }
    ensures { IsTold recalled.now.recording (query_of query.now) result.schedule (O.written output.old)
        (O.written output.new) (O.faults output.old) (O.faults output.new) result.status }
{
    match answer_query(rt, alloc, recalled, query) {
        Ok(reply) => Outcome {
            status: finish(output, &reply.text, 0),
            schedule: reply.schedule,
        },
        Err(error) => Outcome {
            status: refuse_replay(alloc, &recalled.recording.program, error, output),
            schedule: Seq::new(alloc),
        },
    }
}

/// Answers what is asked of the recording that these bytes are, or writes why they are refused.
pub(crate) fn tell_query<O: Sink>(
    rt: &(impl Threads + Sync),
    alloc: Global,
    bytes: &[u8],
    query: &Query<'_>,
    output: &mut O,
) -> Outcome
    ensures { Queries bytes.now (query_of query.now) result.schedule (O.written output.old) (O.written output.new)
        (O.faults output.old) (O.faults output.new) result.status }
{
    match recall(alloc, bytes) {
        Err(NoRecall::Memory) => ended(alloc, 5),
        Err(NoRecall::Refused(line)) => Outcome {
            status: finish(output, &line, 6),
            schedule: Seq::new(alloc),
        },
        Ok(recalled) => {
            let outcome = tell(rt, alloc, &recalled, query, output);
            drop(recalled);
            outcome
        }
    }
}
