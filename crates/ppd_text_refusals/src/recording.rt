// The line that says why a recording is refused.
ghost use Rattle.std.specs.Prelude.{◌≡◌, ◌≢◌, ◌++◌, IfOk, OnOk, codes, decimal};
ghost use Rattle.std.specs.List.{flat_map};
ghost use Rattle.ppd_codec.specs.declared.bad.BadBytes.TheVariants as bytes;
ghost use Rattle.ppd_model.specs.declared.bad_sync.BadSync.TheVariants as sync;
ghost use Rattle.ppd_model.specs.declared.bad_log.BadLog.TheVariants as log;
ghost use Rattle.ppd_text_refusals.specs.Recordings.{field_word, refused_bytes};
ghost use Rattle.ppd_text_refusals.specs.Recordings.{refused_log, refused_sync};
ghost use Rattle.ppd_text.specs.CellNames.{process_name as process_name_of};
ghost use Rattle.ppd_text.specs.Names.{object_text};

use crate::stage::put_stage;
use ppd_ast::limits::MOST_RECORDING_BYTES;
use ppd_ast::{Memory, Program, SyncKind};
use ppd_check::SourceError;
use ppd_codec::{BadBytes, Field};
use ppd_graph::BadSync;
use ppd_index::BadLog;
use ppd_model::NodeId;
use ppd_text::{at_entry, chan_name, process_name, put, put_count, put_number, sem_name};
use std::alloc::Global;

/// A line of a test that failed at an offset.
fn at_offset(alloc: Global, what: &[u8], offset: u32) -> Result<Vec<u8>, Memory>
    ensures { IfOk result (λ line. line.items ≡ what.now ++ decimal offset ++ codes "\n") }
{
    let mut line = Vec::new(alloc);
    put(&mut line, what)?;
    put_number(&mut line, offset)?;
    put(&mut line, b"\n")?;
    Ok(line)
}

fn put_field(line: &mut Vec<u8>, field: Field) -> Result<(), Memory>
    ensures { OnOk result (line.new.items ≡ line.old.items ++ field_word field) }
{
    match field {
        Field::Budget => put(line, b"budget"),
        Field::Leaf => put(line, b"leaf"),
        Field::Loops => put(line, b"loops"),
        Field::Source => put(line, b"source"),
        Field::Processes => put(line, b"processes"),
        Field::Tag => put(line, b"tag"),
        Field::Kind => put(line, b"kind"),
        Field::Number => put(line, b"number"),
        Field::Value => put(line, b"value"),
        Field::Cells => put(line, b"cells"),
        Field::Status => put(line, b"status"),
        Field::Version => put(line, b"version"),
    }
}

/// The line of a field that has no lawful value.
fn range_line(alloc: Global, offset: u32, field: Field) -> Result<Vec<u8>, Memory>
    ensures { IfOk result (λ line. line.items ≡ refused_bytes (bytes.Range offset field)) }
{
    let mut line = Vec::new(alloc);
    put(&mut line, b"recording refused bytes 4 Range ")?;
    put_number(&mut line, offset)?;
    put(&mut line, b" ")?;
    put_field(&mut line, field)?;
    put(&mut line, b"\n")?;
    Ok(line)
}

/// The line of a source that is not accepted.
fn source_line(alloc: Global, error: SourceError) -> Result<Vec<u8>, Memory>
    ensures { IfOk result (λ line. line.items ≡ refused_bytes (bytes.Source error)) }
{
    let mut line = Vec::new(alloc);
    put(&mut line, b"recording refused bytes 6 Source ")?;
    put_stage(&mut line, error)?;
    put(&mut line, b"\n")?;
    Ok(line)
}

/// The line of bytes past the limit, which it names.
fn too_long_line(alloc: Global) -> Result<Vec<u8>, Memory>
    ensures { IfOk result (λ line. line.items ≡ refused_bytes bytes.TooLong) }
{
    let mut line = Vec::new(alloc);
    put(&mut line, b"recording refused bytes 7 TooLong ")?;
    put_count(&mut line, MOST_RECORDING_BYTES)?;
    put(&mut line, b"\n")?;
    Ok(line)
}

/// The line that says why bytes are no recording.
pub fn bytes_line(alloc: Global, bad: BadBytes) -> Result<Vec<u8>, Memory>
    ensures line { IfOk result (λ line. line.items ≡ refused_bytes bad) }
    ensures fault { OnOk result (bad ≢ bytes.Memory) }
{
    match bad {
        BadBytes::Magic(at) => at_offset(alloc, b"recording refused bytes 1 Magic ", at),
        BadBytes::Version(at) => at_offset(alloc, b"recording refused bytes 2 Version ", at),
        BadBytes::Short(at) => at_offset(alloc, b"recording refused bytes 3 Short ", at),
        BadBytes::Range(at, field) => range_line(alloc, at, field),
        BadBytes::Trailing(at) => at_offset(alloc, b"recording refused bytes 5 Trailing ", at),
        BadBytes::Source(error) => source_line(alloc, error),
        BadBytes::TooLong => too_long_line(alloc),
        BadBytes::Memory => Err(Memory),
    }
}

/// The line that says why logs have no index.
pub fn log_line(alloc: Global, program: &Program, bad: BadLog) -> Result<Vec<u8>, Memory>
    ensures line { IfOk result (λ line. line.items ≡ refused_log program.now bad) }
    ensures fault { OnOk result (bad ≢ log.Memory) }
{
    match bad {
        BadLog::Unpaired(at) => at_entry(alloc, program, b"recording refused log 1 Unpaired ", at),
        BadLog::NoEnd(at) => at_entry(alloc, program, b"recording refused log 2 NoEnd ", at),
        BadLog::AfterEnd(at) => at_entry(alloc, program, b"recording refused log 3 AfterEnd ", at),
        BadLog::WrongValues(at) => {
            at_entry(alloc, program, b"recording refused log 4 WrongValues ", at)
        }
        BadLog::Memory => Err(Memory),
    }
}

/// Appends the word of a kind and the name of its object.
fn put_object(
    line: &mut Vec<u8>,
    program: &Program,
    kind: SyncKind,
    object: u8,
) -> Result<(), Memory>
    ensures { OnOk result (line.new.items ≡ line.old.items ++ object_text program.now kind object) }
{
    let (word, name): (&[u8], &[u8]) = match kind {
        SyncKind::P => (b"P ", sem_name(program, object)),
        SyncKind::V => (b"V ", sem_name(program, object)),
        SyncKind::Send => (b"send ", chan_name(program, object)),
        SyncKind::Recv => (b"recv ", chan_name(program, object)),
        SyncKind::Done => (b"done ", chan_name(program, object)),
    };
    put(line, word)?;
    put(line, name)
}

/// The line of a synchronization that is missing.
fn missing_line(
    alloc: Global,
    program: &Program,
    kind: SyncKind,
    object: u8,
    number: u32,
) -> Result<Vec<u8>, Memory>
    ensures { IfOk result (λ line. line.items ≡ refused_sync program.now (sync.NumberMissing kind object number)) }
{
    let mut line = Vec::new(alloc);
    put(&mut line, b"recording refused sync 2 NumberMissing ")?;
    put_object(&mut line, program, kind, object)?;
    put(&mut line, b" ")?;
    put_number(&mut line, number)?;
    put(&mut line, b"\n")?;
    Ok(line)
}

fn put_node(line: &mut Vec<u8>, program: &Program, node: NodeId) -> Result<(), Memory>
    ensures { OnOk result
        (line.new.items
        ≡ line.old.items
        ++ (codes " " ++ process_name_of program.now node.process ++ codes " " ++ decimal node.sync)) }
{
    put(line, b" ")?;
    put(line, process_name(program, node.process))?;
    put(line, b" ")?;
    put_number(line, node.sync)
}

fn put_nodes(line: &mut Vec<u8>, program: &Program, nodes: &[NodeId]) -> Result<(), Memory>
    ensures { OnOk result
        (line.new.items
        ≡ line.old.items
        ++ flat_map (λ n. codes " " ++ process_name_of program.now n.process ++ codes " " ++ decimal n.sync)
        nodes.now) }
{
    for node in nodes {
        put_node(line, program, *node)?;
    }
    Ok(())
}

/// The line of a cycle.
fn cycle_line(alloc: Global, program: &Program, nodes: &[NodeId]) -> Result<Vec<u8>, Memory>
    ensures { IfOk result (λ line. line.items ≡ refused_sync program.now (sync.Cycle nodes.now)) }
{
    let mut line = Vec::new(alloc);
    put(&mut line, b"recording refused sync 3 Cycle")?;
    put_nodes(&mut line, program, nodes)?;
    put(&mut line, b"\n")?;
    Ok(line)
}

/// The line that says why logs have no graph.
pub fn sync_line(alloc: Global, program: &Program, bad: &BadSync) -> Result<Vec<u8>, Memory>
    ensures line { IfOk result (λ line. line.items ≡ refused_sync program.now bad.now) }
    ensures fault { OnOk result (bad.now ≢ sync.Memory) }
{
    match bad {
        BadSync::NumberTwice(at) => {
            at_entry(
                alloc,
                program,
                b"recording refused sync 1 NumberTwice ",
                *at,
            )
        }
        BadSync::NumberMissing(kind, object, number) => {
            missing_line(alloc, program, *kind, *object, *number)
        }
        BadSync::Cycle(nodes) => cycle_line(alloc, program, nodes.as_slice()),
        BadSync::NoObject(at) => {
            at_entry(alloc, program, b"recording refused sync 4 NoObject ", *at)
        }
        BadSync::Memory => Err(Memory),
    }
}
