// The command lines of an input, each answered before the next is read.
ghost use Rattle.std.specs.Prelude.{◌≡◌, ◌<◌, ◌≤◌, ℕ, List, [], false, None};
ghost use Rattle.ppd_ast.specs.declared.limits.TheConstants.{MOST_INPUT_LINES};
ghost use Rattle.ppd_codec_runs.specs.Known.{Known};
ghost use Rattle.ppd_codec_runs.specs.Questions.{is_quit};
ghost use Rattle.ppd_codec_runs.specs.Texts.{failure_of, text_of};
ghost use Rattle.ppd_top_commands.specs.Asking.{Becomes, Goes, IsAsked, IsFailed};
ghost use Rattle.ppd_top_commands.specs.Output.{Standing, Talks, standing};

use ppd_ast::limits::MOST_INPUT_LINES;
use ppd_ast::{Memory, Program};
use ppd_codec_runs::{Reply, Session, SessionError, replay_line};
use ppd_io::{LineError, LineReader, Sink, Source};
use ppd_top_output::{finish, finish_reply};
use std::alloc::Global;

const LONG_LINE: &[u8] = b"long line\n";

const MANY_LINES: &[u8] = b"many lines\n";

/// Writes a reply, and says with which status that ends, if it ends.
fn deliver<O: Sink>(reply: &Reply, output: &mut O) -> Option<u8>
    ensures becomes { (x : Known) (line : List ℕ) → failure_of x line ≡ None → reply.now.text ≡ text_of x line
        → reply.now.quit ≡ is_quit line
        → Becomes x line (O.written output.old) (O.written output.new) (O.faults output.old)
        (O.faults output.new) result }
    ensures later { O.faults output.old ≤ O.faults output.new }
{
    finish_reply(output, reply.text.as_slice(), reply.quit)
}

/// Ends the answers where a line has none, with a line that says why, and answers the status.
pub fn refuse_replay<O: Sink>(
    alloc: Global,
    program: &Program,
    error: SessionError,
    output: &mut O,
) -> u8
    ensures failed { IsFailed program.now error (O.written output.old) (O.written output.new) (O.faults output.old)
        (O.faults output.new) result }
    ensures later { O.faults output.old ≤ O.faults output.new }
{
    match replay_line(alloc, program, error) {
        Ok(line) => finish(output, &line, 6),
        Err(Memory) => 5,
    }
}

/// Answers a line, and says with which status that ends, if it ends.
fn answer_line<O: Sink>(
    alloc: Global,
    program: &Program,
    session: &mut Session<'_>,
    line: &[u8],
    output: &mut O,
) -> Option<u8>
    requires { session.old.known.program ≡ program.now }
    ensures becomes { Becomes session.old.known line.now (O.written output.old) (O.written output.new)
        (O.faults output.old) (O.faults output.new) result }
    ensures same { session.new.known ≡ session.old.known }
    ensures later { O.faults output.old ≤ O.faults output.new }
{
    match session.answer(line) {
        Err(error) => Some(refuse_replay(alloc, program, error, output)),
        Ok(reply) => deliver(&reply, output),
    }
}

/// Reads and answers the next line, and says with which status that ends, if it ends.
fn answer_next<I: Source, O: Sink>(
    alloc: Global,
    program: &Program,
    session: &mut Session<'_>,
    reader: &mut LineReader,
    input: &mut I,
    output: &mut O,
) -> Option<u8>
    requires { session.old.known.program ≡ program.now }
    ensures goes { (a : Standing) (n : ℕ) → n < MOST_INPUT_LINES
        → IsAsked session.old.known n reader.old a (standing (I.left input.old) (I.before_last input.old)
        (I.faults input.old) (O.written output.old)
        (O.faults output.old)) → Goes session.old.known n reader.new a
        (standing (I.left input.new) (I.before_last input.new)
        (I.faults input.new) (O.written output.new) (O.faults output.new)) result }
    ensures same { session.new.known ≡ session.old.known }
{
    match reader.next(input) {
        Err(LineError::Failed) => Some(3),
        Err(LineError::LongLine) => Some(finish(output, LONG_LINE, 7)),
        Ok(false) => Some(0),
        Ok(true) => answer_line(alloc, program, session, reader.line(), output),
    }
}

/// Ends after as many lines as there may be: with one more they are too many.
fn end_lines<I: Source, O: Sink>(reader: &mut LineReader, input: &mut I, output: &mut O) -> u8
    ensures { (a : Standing) → (x : Known) → IsAsked x MOST_INPUT_LINES reader.old a
        (standing (I.left input.old) (I.before_last input.old)
        (I.faults input.old) (O.written output.old) (O.faults output.old))
        → Talks x [] a (standing (I.left input.new) (I.before_last input.new)
        (I.faults input.new) (O.written output.new)
        (O.faults output.new)) result }
{
    match reader.next(input) {
        Err(LineError::Failed) => 3,
        Err(LineError::LongLine) => finish(output, MANY_LINES, 8),
        Ok(false) => 0,
        Ok(true) => finish(output, MANY_LINES, 8),
    }
}

/// Answers the lines of the input, each before the next is read, through the first `quit`, and answers the status.
/// The program is the session's, and the line reader is new.
pub(crate) fn talk<I: Source, O: Sink>(
    alloc: Global,
    program: &Program,
    session: &mut Session<'_>,
    reader: &mut LineReader,
    input: &mut I,
    output: &mut O,
) -> u8
    requires program { session.old.known.program ≡ program.now }
    requires reader { reader.old ≡ record { line = []; held = []; ended = false } }
    ensures { Talks session.old.known []
        (standing (I.left input.old) (I.before_last input.old)
        (I.faults input.old) (O.written output.old) (O.faults output.old))
        (standing (I.left input.new) (I.before_last input.new)
        (I.faults input.new) (O.written output.new) (O.faults output.new)) result }
{
    for _number in 0..MOST_INPUT_LINES {
        if let Some(status) = answer_next(alloc, program, session, reader, input, output) {
            return status;
        }
    }
    end_lines(reader, input, output)
}
