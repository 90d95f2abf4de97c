// A recording run again under its own synchronization.
ghost use Rattle.ppd_codec_runs.specs.Recordings.{recorded_setting};
ghost use Rattle.std.specs.Prelude.{◌≡◌, ◌<◌, IfErr, IfOk};
ghost use Rattle.ppd_rerun_guide.specs.Verdicts.{IsVerdict};
ghost use Rattle.ppd_session.specs.declared.reply.SessionError.TheVariants as session_error;
ghost use Rattle.ppd_top.specs.VerdictTexts.{verdict_text};
ghost use Rattle.ppd_top.specs.Queries.{schedule_of};
ghost use Rattle.ppd_top_requests.specs.Questions.Query.{Rerun};
ghost use Rattle.ppd_top.specs.Replies.{IsAskable, IsReply};

use crate::answers::Answer;
use crate::verdict_text::put_verdict;
use ppd_ast::{Bytes, Memory, Seq, Steps};
use ppd_codec_runs::Recalled;
use ppd_rerun::{Verdict, rerun};
use ppd_session::SessionError;
use std::alloc::Global;
use std::marker::Brand;
use std::sync::ledger::{Blank, Ledger};

fn counted<L: Ledger>(alloc: Global, recalled: &Recalled, blank: Blank) -> Result<Verdict, Memory>
    requires name { blank.name ≡ L.name }
    requires parts { blank.parts ≡ L.parts }
    requires some { 0 < blank.parts }
    requires recording { IsAskable recalled.now }
    ensures { IfOk result (λ v. IsVerdict (recorded_setting recalled.now.recording) recalled.now.recording.logs v) }
{
    let mut steps: Steps<L> = Steps::new(blank);
    let recording = &recalled.recording;
    rerun(
        alloc,
        &recording.program,
        &recording.plan,
        &recording.logs,
        &recalled.index,
        recording.header.budget,
        &mut steps,
    )
}

/// The verdict, with steps that nobody reads.
fn verdict_on(alloc: Global, recalled: &Recalled) -> Result<Verdict, Memory>
    requires { IsAskable recalled.now }
    ensures { IfOk result (λ v. IsVerdict (recorded_setting recalled.now.recording) recalled.now.recording.logs v) }
{
    counted::<Brand>(alloc, recalled, Blank::new(1))
}

/// The line of a verdict.
fn verdict_line(
    alloc: Global,
    recalled: &Recalled,
    verdict: &Verdict,
) -> Result<Vec<u8>, SessionError>
    ensures text { IfOk result (λ text. text.items ≡ verdict_text recalled.now.recording.program verdict.now) }
    ensures error { IfErr result (λ e. e ≡ session_error.Memory) }
{
    let mut text = Vec::new(alloc);
    put_verdict(&mut text, &recalled.recording.program, verdict)?;
    Ok(text)
}

/// The schedule that was taken where the verdict is yes.
fn taken(alloc: Global, verdict: Verdict) -> Bytes
    ensures { result ≡ schedule_of verdict }
{
    match verdict {
        Verdict::Yes(schedule) => schedule,
        Verdict::No(_) => Seq::new(alloc),
    }
}

/// Whether a run under the recorded synchronization is the recorded one: the line of the verdict, and the schedule of
/// that run where it is.
pub(crate) fn rerun_answer(alloc: Global, recalled: &Recalled) -> Result<Answer, SessionError>
    requires { IsAskable recalled.now }
    ensures { IsReply recalled.now.recording Rerun result }
{
    let verdict = verdict_on(alloc, recalled)?;
    let text = verdict_line(alloc, recalled, &verdict)?;
    Ok(Answer {
        text,
        schedule: taken(alloc, verdict),
    })
}
