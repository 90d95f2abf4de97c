// The lines of an input on a recording.
ghost use Rattle.std.specs.Prelude.{◌≡◌, []};
ghost use Rattle.ppd_codec_runs.specs.Recordings.{IsRecalled, known_of};
ghost use Rattle.ppd_top_commands.specs.Output.{Talks, standing};

use crate::asking::talk;
use ppd_ast::Program;
use ppd_codec_runs::{Past, Recalled, Session};
use ppd_io::{LineReader, Sink, Source};
use std::alloc::Global;
use std::thread::Threads;

/// Answers the lines of the input by a session of this program, and answers the status.
fn talk_anew<I: Source, O: Sink>(
    alloc: Global,
    program: &Program,
    session: &mut Session<'_>,
    input: &mut I,
    output: &mut O,
) -> u8
    requires { session.old.known.program ≡ program.now }
    ensures { Talks session.old.known []
        (standing (I.left input.old) (I.before_last input.old)
        (I.faults input.old) (O.written output.old) (O.faults output.old))
        (standing (I.left input.new) (I.before_last input.new)
        (I.faults input.new) (O.written output.new) (O.faults output.new)) result }
{
    let Ok(mut reader) = LineReader::new(alloc) else {
        return 5;
    };
    talk(alloc, program, session, &mut reader, input, output)
}

/// Answers the lines of the input on a recording that was accepted, and answers the status.
pub(crate) fn converse<I: Source, O: Sink>(
    rt: &(impl Threads + Sync),
    alloc: Global,
    recalled: &Recalled,
    input: &mut I,
    output: &mut O,
) -> u8
    requires { IsRecalled recalled.now }
    ensures { Talks (known_of recalled.now.recording) []
        (standing (I.left input.old) (I.before_last input.old)
        (I.faults input.old) (O.written output.old) (O.faults output.old))
        (standing (I.left input.new) (I.before_last input.new)
        (I.faults input.new) (O.written output.new) (O.faults output.new)) result }
{
    let past = Past {
        program: &recalled.recording.program,
        plan: &recalled.recording.plan,
        logs: &recalled.recording.logs,
        index: &recalled.index,
        graph: &recalled.graph,
        cut: &recalled.recording.logs,
        cut_index: &recalled.index,
        budget: recalled.recording.header.budget,
        kept: &[],
    };
    let Ok(mut session) = Session::new(rt, alloc, past) else {
        return 5;
    };
    let program = &recalled.recording.program;
    let status = talk_anew(alloc, program, &mut session, input, output);
    drop(session);
    status
}
