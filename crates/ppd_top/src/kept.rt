// What is kept of a recording that was accepted, and its races.
ghost use Rattle.std.specs.Option.{unwrap_or};
ghost use Rattle.ppd_session.specs.Texts.{races_refusal};
ghost use Rattle.std.specs.Prelude.{◌≡◌, [], IfErr, IfOk};
ghost use Rattle.ppd_codec.specs.declared.recording.Recording.{Recording};
ghost use Rattle.ppd_codec_runs.specs.Recordings.{IsRecalled, known_of};
ghost use Rattle.ppd_flow_past.specs.Pasts.{IsPast};
ghost use Rattle.ppd_session.specs.declared.reply.SessionError.TheVariants as session_error;
ghost use Rattle.ppd_top_requests.specs.Questions.{Query};
ghost use Rattle.ppd_top.specs.Replies.{IsReply, IsTextReply};

use crate::answers::Answer;
use ppd_ast::Seq;
use ppd_codec_runs::Recalled;
use ppd_model::Race;
use ppd_race::races;
use ppd_session::{Past, SessionError, put_racy};
use ppd_text::put;
use std::alloc::Global;
use std::thread::Threads;

/// The recording as a past, of which no log is cut.
pub(crate) fn past_of(recalled: &Recalled) -> Past<'_>
    requires { IsRecalled recalled.now }
    ensures past { IsPast result }
    ensures uncut { result.cut.now ≡ result.logs.now }
    ensures program { result.program.now ≡ recalled.now.recording.program }
    ensures plan { result.plan.now ≡ recalled.now.recording.plan }
    ensures logs { result.logs.now ≡ recalled.now.recording.logs }
    ensures budget { result.budget ≡ recalled.now.recording.header.budget }
{
    Past {
        program: &recalled.recording.program,
        plan: &recalled.recording.plan,
        logs: &recalled.recording.logs,
        index: &recalled.index,
        graph: &recalled.graph,
        cut: &recalled.recording.logs,
        cut_index: &recalled.index,
        budget: recalled.recording.header.budget,
        kept: &[],
    }
}

/// The races of the recording.
pub(crate) fn races_of(
    rt: &(impl Threads + Sync),
    alloc: Global,
    recalled: &Recalled,
) -> Result<Seq<Race>, SessionError>
    requires { IsRecalled recalled.now }
    ensures races { IfOk result (λ found. found ≡ (known_of recalled.now.recording).races) }
    ensures error { IfErr result (λ e. e ≡ session_error.Memory) }
{
    let found = races(rt, alloc, &recalled.graph)?;
    Ok(found)
}

/// How many races there are, as a text.
pub(crate) fn racy(alloc: Global, races: &[Race]) -> Result<Vec<u8>, SessionError>
    ensures text { IfOk result (λ text. text.items ≡ unwrap_or (races_refusal races.now) []) }
    ensures error { IfErr result (λ e. e ≡ session_error.Memory) }
{
    let mut text = Vec::new(alloc);
    put_racy(&mut text, races)?;
    Ok(text)
}

/// One line as a text.
pub(crate) fn line_of(alloc: Global, line: &[u8]) -> Result<Vec<u8>, SessionError>
    ensures text { IfOk result (λ text. text.items ≡ line.now) }
    ensures error { IfErr result (λ e. e ≡ session_error.Memory) }
{
    let mut text = Vec::new(alloc);
    put(&mut text, line)?;
    Ok(text)
}

/// What is answered by a text, where nothing is run.
pub(crate) fn unscheduled(
    alloc: Global,
    text: Result<Vec<u8>, SessionError>,
) -> Result<Answer, SessionError>
    ensures { (r : Recording) (query : Query) → IsTextReply r query text → IsReply r query result }
{
    match text {
        Ok(text) => Ok(Answer {
            text,
            schedule: Seq::new(alloc),
        }),
        Err(error) => Err(error),
    }
}
