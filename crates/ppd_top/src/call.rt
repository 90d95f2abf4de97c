// The top call.
ghost use Rattle.std.specs.Prelude.{◌≡◌, ◌⊎◌, ℕ, List, [], Option};
ghost use Rattle.std.specs.Borrow.{Bor};
ghost use Rattle.ppd_top.specs.Call.{call_of, devices};
ghost use Rattle.ppd_top.specs.Clauses.{IsOutcome, ReadsNothing};
ghost use Rattle.ppd_top_commands.specs.Output.{standing};
ghost use Rattle.ppd_top.specs.Ran.{Comes, IsUnloaded, Refuses};
ghost use Rattle.ppd_top_requests.specs.Questions.{query_of};
ghost use Rattle.ppd_top_requests.specs.Words.Request.{on_source as asks_source, on_recording as asks_recording, on_query as asks_query};
ghost use Rattle.ppd_top_requests.specs.Words.{Asks, command_of};
ghost use Rattle.ppd_top_requests.specs.Words.{AreInRange};
ghost use Rattle.ppd_top_requests.specs.Words.Command.{Flow};

use crate::drilling::drill;
use crate::loads::{MOST_BYTES, MOST_RECORDING};
use crate::query_laws::answers_are_of_runs;
use crate::querying::tell_query;
use ppd_ast::{Memory, Seq};
use ppd_check::{SourceError, read_source};
use ppd_io::{Gate, Shelf, ShelfError, Sink, Source};
use ppd_text_refusals::refusal_line;
use ppd_top_commands::{RecordTask, debug, finish, flow, record_run, show};
use ppd_top_requests::{Command, Query, Request, SourceRequest, asked};
use ppd_top_runs::{Means, Outcome, Task, ended};
use std::alloc::Global;
use std::sync::Wait;
use std::thread::Threads;

const USAGE: &[u8] = b"usage: ppd flow|run|debug|show|drill|slice|rerun|clean|whole\n";

/// Does all that the program does. The words are those after the program's name: a command, its options in any order,
/// each at most once, and its names. The options of `flow` and `run` are `--budget N`, `--leaf N` and `--loops N`, each
/// also as `--budget=N`; `show` has the last two, `whole` has `--workers N` with 1 to 64, and the others none. The name
/// of `drill` is a number of at most 999,999; after the name of their recording `slice` and `clean` have that of a
/// process, and the numbers of an interval and of an item, each in 1 to 9 digits.
///
/// In `flow`, `run` and `drill` each process has a thread, which passes the gate before it copies its process, before
/// it commits the steps that it took on the copy, and before the turn that follows a commit in vain. The schedule is
/// the one that the threads took. Then `run` stores the recording of the run and writes the summary; `flow` writes the
/// summary, and then answers the lines of the input, each before the next is read, through the first `quit` or else to
/// the end. `debug` tests the bytes of a recording, then its logs, then their synchronization, and answers the lines.
/// `drill` does what `flow` does, on the source that its number makes, with a budget of 500,000 and the one line
/// `final` in place of the input.
///
/// `slice`, `rerun`, `clean` and `whole` test the bytes of a recording as `debug` does. Then `slice` writes what the
/// item came from; `rerun` whether a run under the recorded synchronization is the recorded one; `clean` the item and
/// what it came from directly, where no race touches its past; and `whole` each event of the run; or they write why
/// not.
///
/// - 0: in `flow` the source's program ran to its end, and its summary and all answers were written; in `run` its
///   recording was stored and its summary written; in `show` the tables of the source's program were written; in
///   `debug` all answers; in `drill` the summary and the last values; in `slice`, `rerun`, `clean` and `whole` the
///   answer, or one line that refuses it.
/// - 1: the source has no program, and the line that says why was written; never in `drill`.
/// - 2: the words are others, and the usage line was written.
/// - 3: the shelf failed to load the source or the recording, and nothing was read of the input or written; or in
///   `flow` and `debug` a read of the input failed, and in `flow` the summary, in both the answers to the whole lines
///   before were written.
/// - 4: the output failed, and a proper prefix of what belongs there was written; or in `run` the store failed.
/// - 5: want of memory, and a prefix of what belongs there was written; nothing where no run came to its end. The shelf
///   holds what it held. It may come whatever the words are.
/// - 6: in `debug`, `slice`, `rerun`, `clean` and `whole` the recording is refused, and the line that says why was
///   written; or an answer needs a replay that failed (not in `rerun`; in `slice` that of any interval of a process
///   with an item of the slice) or a write that is missing (in `debug`, `slice` and `clean`), and the answers before it
///   and the line that says so were written.
/// - 7: in `flow` or `debug` a line has more than 4,096 bytes, and `long line` was written in place of its answer.
/// - 8: in `flow` or `debug` there is a line number 65,537 and no `quit` before it, and `many lines` was written.
///
/// No read follows the `quit` line with its newline. Only `flow` and `debug` read the input; only `flow`, `run` and
/// `drill` call the gate. But for a store of `run` the shelf holds what it held.
pub fn ppd<F: Shelf, I: Source, O: Sink, G: Gate, R: Threads + Wait + Sync>(
    rt: &R,
    alloc: Global,
    words: &[&str],
    shelf: &mut F,
    input: &mut I,
    output: &mut O,
    gate: &G,
) -> Outcome
    ensures outcome { IsOutcome (call_of words.now
        (devices (F.held shelf.old) (F.failed_loads shelf.old) (F.failed_stores shelf.old)
        (standing (I.left input.old) (I.before_last input.old) (I.faults input.old) (O.written output.old)
        (O.faults output.old)))
        (devices (F.held shelf.new) (F.failed_loads shelf.new) (F.failed_stores shelf.new)
        (standing (I.left input.new) (I.before_last input.new) (I.faults input.new) (O.written output.new)
        (O.faults output.new)))
        result.schedule result.status) }
    ensures input { ReadsNothing words.now result.status → input.new ≡ input.old }
{
    answers_are_of_runs();
    let means = Means { rt, alloc, gate };
    answer(&means, words, shelf, input, output)
}

/// Does what the words ask for; the parameters are those of the top call.
fn answer<F: Shelf, I: Source, O: Sink, G: Gate, R: Threads + Wait + Sync>(
    means: &Means<'_, R, G>,
    words: &[&str],
    shelf: &mut F,
    input: &mut I,
    output: &mut O,
) -> Outcome
    ensures comes { Comes (call_of words.now
        (devices (F.held shelf.old) (F.failed_loads shelf.old) (F.failed_stores shelf.old)
        (standing (I.left input.old) (I.before_last input.old) (I.faults input.old) (O.written output.old)
        (O.faults output.old)))
        (devices (F.held shelf.new) (F.failed_loads shelf.new) (F.failed_stores shelf.new)
        (standing (I.left input.new) (I.before_last input.new) (I.faults input.new) (O.written output.new)
        (O.faults output.new)))
        result.schedule result.status) }
    ensures input { ReadsNothing words.now result.status → input.new ≡ input.old }
{
    let Ok(asked) = asked(means.alloc, words) else {
        return ended(means.alloc, 5);
    };
    let Some(request) = asked else {
        return Outcome {
            status: finish(output, USAGE, 2),
            schedule: Seq::new(means.alloc),
        };
    };
    match request {
        Request::Source(request) => on_source(means, &request, shelf, input, output),
        Request::Recording(name) => {
            on_recording(means.rt, means.alloc, name, shelf, input, output)
        }
        Request::Drill(number) => drill(means, number, output),
        Request::Query(name, query) => {
            on_query(means.rt, means.alloc, name, &query, shelf, output)
        }
    }
}

/// Does what is asked for with a source.
fn on_source<F: Shelf, I: Source, O: Sink, G: Gate, R: Threads + Wait + Sync>(
    means: &Means<'_, R, G>,
    request: &SourceRequest<'_>,
    shelf: &mut F,
    input: &mut I,
    output: &mut O,
) -> Outcome
    requires range { AreInRange request.now.options }
    ensures comes { (words : List (Bor (List ℕ))) → Asks words
        (asks_source (command_of request.now.command) request.now.name.now request.now.options)
        → Comes (call_of words
        (devices (F.held shelf.old) (F.failed_loads shelf.old) (F.failed_stores shelf.old)
        (standing (I.left input.old) (I.before_last input.old) (I.faults input.old) (O.written output.old)
        (O.faults output.old)))
        (devices (F.held shelf.new) (F.failed_loads shelf.new) (F.failed_stores shelf.new)
        (standing (I.left input.new) (I.before_last input.new) (I.faults input.new) (O.written output.new)
        (O.faults output.new)))
        result.schedule result.status) }
    ensures input { (result.status ≡ 1) ⊎ ((result.status ≡ 2) ⊎ (command_of request.now.command ≡ Flow → ⊥))
        → input.new ≡ input.old }
{
    match shelf.load(means.alloc, request.name, MOST_BYTES) {
        Err(error) => unloaded(means.alloc, error),
        Ok(source) => match read_source(means.alloc, &source) {
            Err(error) => refuse(means.alloc, error, output),
            Ok(program) => {
                let task = Task {
                    program: &program,
                    options: request.options,
                };
                match request.command {
                    Command::Flow => {
                        let outcome = flow(means, &task, input, output);
                        drop(program);
                        outcome
                    }
                    Command::Show => {
                        let outcome = show(means.alloc, &task, output);
                        drop(program);
                        outcome
                    }
                    Command::Run(recording) => {
                        let task = RecordTask {
                            task,
                            source: &source,
                            recording,
                        };
                        let outcome = record_run(means, &task, shelf, output);
                        drop(program);
                        outcome
                    }
                }
            }
        },
    }
}

/// Answers the lines of the input on the recording of this name.
fn on_recording<F: Shelf, I: Source, O: Sink>(
    rt: &(impl Threads + Sync),
    alloc: Global,
    name: &str,
    shelf: &mut F,
    input: &mut I,
    output: &mut O,
) -> Outcome
    ensures comes { (words : List (Bor (List ℕ))) → Asks words (asks_recording name.now) → Comes (call_of words
        (devices (F.held shelf.old) (F.failed_loads shelf.old) (F.failed_stores shelf.old)
        (standing (I.left input.old) (I.before_last input.old) (I.faults input.old) (O.written output.old)
        (O.faults output.old)))
        (devices (F.held shelf.new) (F.failed_loads shelf.new) (F.failed_stores shelf.new)
        (standing (I.left input.new) (I.before_last input.new) (I.faults input.new) (O.written output.new)
        (O.faults output.new)))
        result.schedule result.status) }
    ensures status { (result.status ≡ 1) ⊎ (result.status ≡ 2) → ⊥ }
{
    match shelf.load(alloc, name, MOST_RECORDING) {
        Err(error) => unloaded(alloc, error),
        Ok(recording) => Outcome {
            status: debug(rt, alloc, &recording, input, output),
            schedule: Seq::new(alloc),
        },
    }
}

/// Answers what is asked of the recording of this name.
fn on_query<F: Shelf, O: Sink>(
    rt: &(impl Threads + Sync),
    alloc: Global,
    name: &str,
    query: &Query<'_>,
    shelf: &mut F,
    output: &mut O,
) -> Outcome
    ensures { (words : List (Bor (List ℕ))) (left last : Option (List ℕ)) (reads : ℕ)
        → Asks words (asks_query name.now (query_of query.now)) → Comes (call_of words
        (devices (F.held shelf.old) (F.failed_loads shelf.old) (F.failed_stores shelf.old)
        (standing left last reads (O.written output.old) (O.faults output.old)))
        (devices (F.held shelf.new) (F.failed_loads shelf.new) (F.failed_stores shelf.new)
        (standing left last reads (O.written output.new) (O.faults output.new)))
        result.schedule result.status) }
{
    match shelf.load(alloc, name, MOST_RECORDING) {
        Err(error) => unloaded(alloc, error),
        Ok(recording) => tell_query(rt, alloc, &recording, query, output),
    }
}

/// An end by a load that was not done.
fn unloaded(alloc: Global, error: ShelfError) -> Outcome
    ensures status { IsUnloaded error result.status }
    ensures schedule { result.schedule ≡ [] }
{
    match error {
        ShelfError::Failed => ended(alloc, 3),
        ShelfError::Memory => ended(alloc, 5),
    }
}

/// Writes why a source is refused.
pub(crate) fn refuse<O: Sink>(alloc: Global, error: SourceError, output: &mut O) -> Outcome
    ensures refused { Refuses error (O.written output.old) (O.written output.new) (O.faults output.old)
        (O.faults output.new) result.status }
    ensures schedule { result.schedule ≡ [] }
{
    match refusal_line(alloc, error) {
        Err(Memory) => ended(alloc, 5),
        Ok(line) => Outcome {
            status: finish(output, &line, 1),
            schedule: Seq::new(alloc),
        },
    }
}
