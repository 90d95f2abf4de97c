// What is taken from the bytes of a recording.
ghost use Rattle.std.specs.Prelude.{◌≡◌, None, IfErr, IfOk, OnOk};
ghost use Rattle.ppd_ast.specs.Valid.{IsValid};
ghost use Rattle.ppd_ast.specs.ValidPlan.{IsValidPlan};
ghost use Rattle.ppd_codec.specs.Recordings.{IsDecoded};
ghost use Rattle.ppd_graph.specs.Graphs.{IsGraphOf};
ghost use Rattle.ppd_graph.specs.Refusals.{AreOrdered};
ghost use Rattle.ppd_index.specs.Fitting.{AreFittingLogs};
ghost use Rattle.ppd_index.specs.Indexes.{IsIndexOf};
ghost use Rattle.ppd_index.specs.Refusals.{first_in_lists};
ghost use Rattle.ppd_codec_runs.specs.Recordings.{IsAccepted, IsNotRecalled, IsRecalled};

use ppd_ast::Memory;
use ppd_codec::{Recording, decode};
use ppd_graph::{SyncGraph, graph};
use ppd_index::{LogIndex, index};
use ppd_text_refusals::{bytes_line, log_line, sync_line};
use std::alloc::Global;
use std::fmt;
use thiserror::Error;

/// A recording that was accepted, with the index and the graph of its logs.
#[derive(Drop)]
pub struct Recalled {
    pub recording: Recording,
    pub index: LogIndex,
    pub graph: SyncGraph,
}

/// Why nothing is taken from bytes.
#[derive(Drop, Error)]
pub enum NoRecall {
    /// They are refused; the line that says why.
    #[error("the recording is refused")]
    Refused(Vec<u8>),
    /// Want of memory.
    #[error("want of memory")]
    Memory,
}

fn decoded(alloc: Global, bytes: &[u8]) -> Result<Recording, NoRecall>
    ensures ok { IfOk result (IsDecoded bytes.now) }
    ensures program { IfOk result (λ r. IsValid r.program) }
    ensures plan { IfOk result (λ r. IsValidPlan r.program r.plan) }
    ensures err { IfErr result (IsNotRecalled bytes.now) }
{
    match decode(alloc, bytes) {
        Ok(recording) => Ok(recording),
        Err(bad) => match bytes_line(alloc, bad) {
            Ok(line) => Err(NoRecall::Refused(line)),
            Err(Memory) => Err(NoRecall::Memory),
        },
    }
}

fn indexed(alloc: Global, bytes: &[u8], recording: &Recording) -> Result<LogIndex, NoRecall>
    requires decoded { IsDecoded bytes.now recording.now }
    requires program { IsValid recording.now.program }
    ensures index { IfOk result (λ i. IsIndexOf recording.now.plan recording.now.logs i.tables) }
    ensures fitting { OnOk result (AreFittingLogs recording.now.plan recording.now.logs) }
    ensures passed { OnOk result
        (first_in_lists recording.now.program recording.now.plan 0 recording.now.logs.lists ≡ None) }
    ensures err { IfErr result (IsNotRecalled bytes.now) }
{
    let _bytes = bytes;
    match index(alloc, &recording.program, &recording.plan, &recording.logs) {
        Ok(index) => Ok(index),
        Err(bad) => match log_line(alloc, &recording.program, bad) {
            Ok(line) => Err(NoRecall::Refused(line)),
            Err(Memory) => Err(NoRecall::Memory),
        },
    }
}

fn graphed(alloc: Global, bytes: &[u8], recording: &Recording) -> Result<SyncGraph, NoRecall>
    requires decoded { IsDecoded bytes.now recording.now }
    requires program { IsValid recording.now.program }
    requires indexed { first_in_lists recording.now.program recording.now.plan 0 recording.now.logs.lists ≡ None }
    ensures graph { IfOk result (IsGraphOf recording.now.program recording.now.logs) }
    ensures passed { OnOk result (AreOrdered recording.now.program recording.now.logs) }
    ensures err { IfErr result (IsNotRecalled bytes.now) }
{
    let _bytes = bytes;
    match graph(alloc, &recording.program, &recording.logs) {
        Ok(graph) => Ok(graph),
        Err(bad) => match sync_line(alloc, &recording.program, &bad) {
            Ok(line) => Err(NoRecall::Refused(line)),
            Err(Memory) => Err(NoRecall::Memory),
        },
    }
}

/// The index and the graph of the logs of a recording.
fn linked(
    alloc: Global,
    bytes: &[u8],
    recording: &Recording,
) -> Result<(LogIndex, SyncGraph), NoRecall>
    requires decoded { IsDecoded bytes.now recording.now }
    requires program { IsValid recording.now.program }
    ensures index { IfOk result (λ r. IsIndexOf recording.now.plan recording.now.logs r.0.tables) }
    ensures fitting { OnOk result (AreFittingLogs recording.now.plan recording.now.logs) }
    ensures passed { OnOk result
        (first_in_lists recording.now.program recording.now.plan 0 recording.now.logs.lists ≡ None) }
    ensures graph { IfOk result (λ r. IsGraphOf recording.now.program recording.now.logs r.1) }
    ensures ordered { OnOk result (AreOrdered recording.now.program recording.now.logs) }
    ensures err { IfErr result (IsNotRecalled bytes.now) }
{
    let index = indexed(alloc, bytes, recording)?;
    match graphed(alloc, bytes, recording) {
        Ok(graph) => Ok((index, graph)),
        Err(error) => {
            drop(index);
            Err(error)
        }
    }
}

/// What the bytes of a recording hold, with the index and the graph of its logs. `Refused` comes exactly where the
/// bytes are no recording, else its logs have no index, else they have no graph, with the line of the first test that
/// fails; `Memory` is want of memory.
pub fn recall(alloc: Global, bytes: &[u8]) -> Result<Recalled, NoRecall>
    ensures ok { IfOk result (λ r. IsAccepted bytes.now r.recording) }
    ensures together { IfOk result IsRecalled }
    ensures err { IfErr result (IsNotRecalled bytes.now) }
{
    let recording = decoded(alloc, bytes)?;
    match linked(alloc, bytes, &recording) {
        Ok((index, graph)) => Ok(Recalled {
            recording,
            index,
            graph,
        }),
        Err(error) => {
            drop(recording);
            Err(error)
        }
    }
}

impl fmt::Debug for NoRecall {
    fn fmt<W: fmt::Write>(&self, f: &mut fmt::Formatter<W>) -> fmt::Result {
        fmt::Display::fmt(self, f)
    }
}
