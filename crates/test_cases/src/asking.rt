// A call over devices in memory, and its answer.

use crate::content::{block, first_word};
use crate::fault::Fault;
use crate::gates::HoldingGate;
use crate::logs::{ended, logged};
use crate::recorded::records;
use crate::said::{number_said, numbers_said, said, schedule_of};
use crate::sources::told_source;
use crate::terminals::{Keys, Screen};
use crate::tokens::{told_fields, told_tokens};
use crate::traces::traced;
use crate::trees::{told_nodes, told_tree};
use ppd_ast::Policy;
use ppd_ast::limits::{MOST_BUDGET, MOST_POLICY};
use ppd_io::{CHUNK_BYTES, FreeGate, Shelf, StdSink, StdSource};
use ppd_top::{Options, Outcome, ppd};
use ppd_top_following::follow;
use std::alloc::Global;
use std::sync::Wait;
use std::sync::atomic::AtomicU64;
use std::thread::Threads;
use test_devices::{MemoryShelf, MemorySink, MemorySource};

/// The room of an output where a case says none, in bytes.
const ROOM: u32 = 1_048_576;

/// The most bytes that are looked at of a file of the shelf.
pub(crate) const MOST_BYTES: usize = 16_777_216;

/// What a call came to: its status, all that it wrote, its schedule, and why there is no text.
#[derive(Drop)]
pub(crate) struct Answer {
    pub(crate) status: u8,
    pub(crate) text: Vec<u8>,
    pub(crate) taken: Vec<u8>,
    pub(crate) refused: String,
}

/// The shelf of a case, with its files.
pub(crate) fn shelf_of(alloc: Global, texts: &str, before: &str) -> Result<MemoryShelf, Fault> {
    let fails = numbers_said(alloc, before, "shelf-fails")?;
    let mut shelf = MemoryShelf::new(alloc, fails);
    for line in before.lines() {
        if let Some(name) = line.strip_prefix("file ") {
            let bytes = block(alloc, texts, before, line)?;
            shelf.put(name, &bytes)?;
        }
    }
    Ok(shelf)
}

/// Words with blanks between them. What stands between two quotation marks is a word as it stands, also an empty one.
fn words_of<'a>(alloc: Global, text: &'a str) -> Result<Vec<&'a str>, Fault> {
    let mut words = Vec::new(alloc);
    let mut is_quoted = false;
    for piece in text.split('"') {
        if is_quoted {
            words.push(piece)?;
        } else {
            for word in piece.split_whitespace() {
                words.push(word)?;
            }
        }
        is_quoted = !is_quoted;
    }
    Ok(words)
}

fn input_of(alloc: Global, texts: &str, under: &str) -> Result<MemorySource, Fault> {
    let bytes = block(alloc, texts, under, "input")?;
    let chunk = number_said(under, "chunk", CHUNK_BYTES as u32)? as usize;
    let fails = numbers_said(alloc, under, "input-fails")?;
    Ok(MemorySource::new(bytes, chunk.max(1), fails))
}

fn output_of(alloc: Global, under: &str) -> Result<MemorySink, Fault> {
    let room = number_said(under, "room", ROOM)? as usize;
    let fails = numbers_said(alloc, under, "output-fails")?;
    let sink = MemorySink::new(alloc, room, fails)?;
    Ok(sink)
}

/// The answer of a call that ended so, wrote these bytes, and did not keep to this part of its case, if any is said.
fn answered(
    alloc: Global,
    outcome: Outcome,
    written: &[u8],
    broken: &str,
) -> Result<Answer, Fault> {
    let status = outcome.status;
    let taken = outcome.schedule.into_vec();
    let text = Vec::from_slice(alloc, written)?;
    Ok(Answer {
        status,
        text,
        taken,
        refused: String::from_str(alloc, broken)?,
    })
}

/// What the program answers to these words over devices in memory, its workers held as the call says.
fn called<R: Threads + Wait + Sync>(
    rt: &R,
    alloc: Global,
    texts: &str,
    words: &[&str],
    under: &str,
    shelf: &mut MemoryShelf,
) -> Result<Answer, Fault> {
    let mut input = input_of(alloc, texts, under)?;
    let mut output = output_of(alloc, under)?;
    let gate = HoldingGate::new(alloc, under)?;
    let outcome = ppd(rt, alloc, words, shelf, &mut input, &mut output, &gate);
    let broken = if gate.is_kept() { "" } else { "holds" };
    answered(alloc, outcome, output.bytes(), broken)
}

/// What the program answers to these words at a terminal, where so much must be shown before each line is typed.
fn called_at_terminal<R: Threads + Wait + Sync>(
    rt: &R,
    alloc: Global,
    words: &[&str],
    typed: &[u8],
    waits: &[u32],
    shelf: &mut MemoryShelf,
) -> Result<Answer, Fault> {
    let shown = AtomicU64::new(0);
    let mut keys = Keys::new(typed, waits, &shown);
    let mut screen = Screen::new(alloc, &shown);
    let outcome = ppd(
        rt,
        alloc,
        words,
        shelf,
        &mut StdSource::new(&mut keys),
        &mut StdSink::new(&mut screen),
        &FreeGate,
    );
    let broken = if keys.are_typed() { "" } else { "waits" };
    answered(alloc, outcome, &screen.bytes, broken)
}

/// What the program answers to these words, at a terminal where the call says what the lines wait for.
fn called_so<R: Threads + Wait + Sync>(
    rt: &R,
    alloc: Global,
    texts: &str,
    words: &[&str],
    under: &str,
    shelf: &mut MemoryShelf,
) -> Result<Answer, Fault> {
    if said(under, "waits").is_none() {
        return called(rt, alloc, texts, words, under, shelf);
    }
    let typed = block(alloc, texts, under, "input")?;
    let waits = numbers_said(alloc, under, "waits")?;
    called_at_terminal(rt, alloc, words, &typed, &waits, shelf)
}

/// A number of two bytes that stands behind this word; 0 where no line begins with it.
fn policy_number(under: &str, key: &str) -> Result<u16, Fault> {
    u16::try_from(number_said(under, key, 0)?).map_err(|_| Fault::Line)
}

/// The options of a schedule that is followed.
fn options_of(under: &str) -> Result<Options, Fault> {
    let budget = number_said(under, "budget", 100_000)?;
    let leaf = policy_number(under, "leaf")?;
    let loops = policy_number(under, "loops")?;
    Ok(Options {
        budget,
        policy: Policy { leaf, loops },
    })
}

/// The bytes that the shelf holds under a name.
pub(crate) fn held(alloc: Global, shelf: &mut MemoryShelf, name: &str) -> Result<Vec<u8>, Fault> {
    shelf.load(alloc, name, MOST_BYTES).map_err(|_| Fault::Line)
}

/// What `follow` answers to a source, these commands and a schedule.
fn followed<R: Threads + Sync>(
    rt: &R,
    alloc: Global,
    source: &[u8],
    commands: &[u8],
    options: Options,
    taken: Vec<u8>,
) -> Result<Answer, Fault> {
    let Policy { leaf, loops } = options.policy;
    if options.budget > MOST_BUDGET || leaf > MOST_POLICY || loops > MOST_POLICY {
        return Err(Fault::Line);
    }
    match follow(rt, alloc, source, &options, commands, &taken) {
        Ok(text) => Ok(Answer {
            status: 0,
            text,
            taken,
            refused: String::new(alloc),
        }),
        Err(error) => Ok(Answer {
            status: 0,
            text: Vec::new(alloc),
            taken,
            refused: format!(in alloc; "{error:?}")?,
        }),
    }
}

/// The answer to whether bytes record a schedule.
fn recorded(alloc: Global, bytes: &[u8], numbers: &str) -> Result<Answer, Fault> {
    let taken = schedule_of(alloc, numbers)?;
    let refused = if records(alloc, bytes, &taken) {
        String::new(alloc)
    } else {
        String::from_str(alloc, "other logs")?
    };
    Ok(Answer {
        status: 0,
        text: Vec::new(alloc),
        taken,
        refused,
    })
}

/// What a call of `follow` comes to.
fn following<R: Threads + Sync>(
    rt: &R,
    alloc: Global,
    texts: &str,
    source: &[u8],
    numbers: &str,
    under: &str,
) -> Result<Answer, Fault> {
    let commands = block(alloc, texts, under, "input")?;
    let options = options_of(under)?;
    let taken = schedule_of(alloc, numbers)?;
    followed(rt, alloc, source, &commands, options, taken)
}

/// What a source is read to, in the way that is asked for.
fn read_as(alloc: Global, kind: &str, source: &[u8]) -> Result<String, Fault> {
    let text = std::str::from_utf8(source).unwrap_or("");
    let told = match kind {
        "read" => told_source(alloc, source, false),
        "table" => told_source(alloc, source, true),
        "tokens" => told_tokens(alloc, source),
        "fields" => told_fields(alloc, source),
        "tree" => told_tree(alloc, text),
        "nodes" => told_nodes(alloc, text),
        _ => return Err(Fault::Line),
    };
    Ok(told?)
}

/// What a source is read to, what it logs, how it ends, or its full trace in short.
fn text_of(
    alloc: Global,
    kind: &str,
    source: &[u8],
    rest: &str,
    under: &str,
) -> Result<String, Fault> {
    let options = options_of(under)?;
    match kind {
        "log" => logged(alloc, source, &options, rest),
        "ends" => ended(alloc, source, &options, rest),
        "trace" => traced(alloc, source, &options, rest),
        _ => read_as(alloc, kind, source),
    }
}

/// The answer that is this text.
fn told(alloc: Global, text: &str) -> Result<Answer, Fault> {
    Ok(Answer {
        status: 0,
        text: Vec::from_slice(alloc, text.as_bytes())?,
        taken: Vec::new(alloc),
        refused: String::new(alloc),
    })
}

/// What a call comes to that is none of the program.
fn asked<R: Threads + Sync>(
    rt: &R,
    alloc: Global,
    texts: &str,
    call: &str,
    under: &str,
    bytes: &[u8],
) -> Result<Answer, Fault> {
    let (kind, rest) = first_word(call);
    let (_, rest) = first_word(rest);
    match kind {
        "follow" => following(rt, alloc, texts, bytes, rest, under),
        "records" => recorded(alloc, bytes, rest),
        _ => {
            let text = text_of(alloc, kind, bytes, rest, under)?;
            told(alloc, &text)
        }
    }
}

/// The bytes of the file that a call names.
fn file_of(alloc: Global, call: &str, shelf: &mut MemoryShelf) -> Result<Vec<u8>, Fault> {
    let (_, rest) = first_word(call);
    let (name, _) = first_word(rest);
    held(alloc, shelf, name)
}

/// What a call comes to.
pub(crate) fn answer_of<R: Threads + Wait + Sync>(
    rt: &R,
    alloc: Global,
    texts: &str,
    call: &str,
    under: &str,
    shelf: &mut MemoryShelf,
) -> Result<Answer, Fault> {
    match call.strip_prefix("ppd") {
        Some(rest) => {
            let words = words_of(alloc, rest)?;
            called_so(rt, alloc, texts, &words, under, shelf)
        }
        None => {
            let bytes = file_of(alloc, call, shelf)?;
            asked(rt, alloc, texts, call, under, &bytes)
        }
    }
}
