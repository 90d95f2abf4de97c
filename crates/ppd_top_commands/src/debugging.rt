// The command `debug`: the lines of the input are answered on a recording.
ghost use Rattle.std.specs.Prelude.{ℕ, List, Option};
ghost use Rattle.ppd_codec_runs.specs.Recordings.{IsNotRecalled};
ghost use Rattle.ppd_top_commands.specs.Output.{standing};
ghost use Rattle.ppd_top_commands.specs.Debugging.{Debugs};

use crate::recorded::converse;
use ppd_codec_runs::{NoRecall, recall};
use ppd_io::{Sink, Source};
use ppd_top_output::finish;
use std::alloc::Global;
use std::thread::Threads;

/// Writes why no recording is taken from bytes, and answers the status.
fn refuse<O: Sink>(error: NoRecall, output: &mut O) -> u8
    ensures { (bytes : List ℕ) (left last : Option (List ℕ)) (reads : ℕ) → IsNotRecalled bytes error → Debugs bytes
        (standing left last reads (O.written output.old) (O.faults output.old))
        (standing left last reads (O.written output.new) (O.faults output.new)) result }
{
    match error {
        NoRecall::Memory => 5,
        NoRecall::Refused(line) => finish(output, &line, 6),
    }
}

/// Answers the lines of the input on the recording that these bytes are, or writes why they are refused, and answers
/// the status.
pub fn debug<I: Source, O: Sink>(
    rt: &(impl Threads + Sync),
    alloc: Global,
    bytes: &[u8],
    input: &mut I,
    output: &mut O,
) -> u8
    ensures { Debugs bytes.now
        (standing (I.left input.old) (I.before_last input.old)
        (I.faults input.old) (O.written output.old) (O.faults output.old))
        (standing (I.left input.new) (I.before_last input.new)
        (I.faults input.new) (O.written output.new) (O.faults output.new)) result }
{
    match recall(alloc, bytes) {
        Err(error) => refuse(error, output),
        Ok(recalled) => {
            let status = converse(rt, alloc, &recalled, input, output);
            drop(recalled);
            status
        }
    }
}
