// An item of a run with races, whose past no race touches.
ghost use Rattle.std.specs.Prelude.{◌≡◌, ◌<◌, ◌++◌, Err, IfErr, IfOk, OnOk};
ghost use Rattle.ppd_codec_runs.specs.Recordings.{IsRecalled, known_of};
ghost use Rattle.ppd_session.specs.declared.reply.SessionError.TheVariants as session_error;
ghost use Rattle.ppd_text.specs.Edges.{why_text as why_text_of};
ghost use Rattle.ppd_top.specs.Queries.{unclean_line};
ghost use Rattle.ppd_top_requests.specs.Questions.{asked_of};
ghost use Rattle.ppd_top_requests.specs.Questions.Query.{Clean as CleanQuery};
ghost use Rattle.ppd_top.specs.Replies.{IsAskable, IsCleanItem, IsFoundClean, IsReply, IsTextReply};

use crate::answers::Answer;
use crate::kept::{line_of, past_of, races_of, unscheduled};
use ppd_ast::{Memory, Program, Steps};
use ppd_clean::{Clean, CleanError, clean_edges};
use ppd_codec_runs::Recalled;
use ppd_model::{EdgeId, Race};
use ppd_session::{At, SessionError, interval_there, process_named, why_text};
use ppd_text::{process_name, put, put_number};
use ppd_top_requests::AskedItem;
use std::alloc::Global;
use std::marker::Brand;
use std::sync::ledger::{Blank, Ledger};
use std::thread::Threads;

/// An interval of a process, and a number of an item there.
#[derive(Clone, Copy)]
struct Wanted {
    process: u8,
    interval: u32,
    item: u32,
}

fn counted<L: Ledger>(
    alloc: Global,
    recalled: &Recalled,
    races: &[Race],
    wanted: Wanted,
    blank: Blank,
) -> Result<Clean, CleanError>
    requires name { blank.name ≡ L.name }
    requires parts { blank.parts ≡ L.parts }
    requires some { 0 < blank.parts }
    requires recording { IsAskable recalled.now }
    requires races { races.now ≡ (known_of recalled.now.recording).races }
    ensures { IsFoundClean recalled.now.recording wanted.process wanted.interval wanted.item result }
{
    let mut steps: Steps<L> = Steps::new(blank);
    clean_edges(
        alloc,
        &past_of(recalled),
        races,
        wanted.process,
        wanted.interval,
        wanted.item,
        &mut steps,
    )
}

/// The item with its edges, with steps that nobody reads.
fn cleaned(
    alloc: Global,
    recalled: &Recalled,
    races: &[Race],
    wanted: Wanted,
) -> Result<Clean, CleanError>
    requires recording { IsAskable recalled.now }
    requires races { races.now ≡ (known_of recalled.now.recording).races }
    ensures { IsFoundClean recalled.now.recording wanted.process wanted.interval wanted.item result }
{
    counted::<Brand>(alloc, recalled, races, wanted, Blank::new(1))
}

fn put_unclean(text: &mut Vec<u8>, program: &Program, edge: EdgeId) -> Result<(), Memory>
    ensures { OnOk result (text.new.items ≡ text.old.items ++ unclean_line program.now edge) }
{
    put(text, b"? unclean ")?;
    put(text, process_name(program, edge.process))?;
    put(text, b" ")?;
    put_number(text, edge.edge)?;
    put(text, b"\n")
}

/// The line of an edge whose past a race touches.
fn unclean_text(alloc: Global, program: &Program, edge: EdgeId) -> Result<Vec<u8>, SessionError>
    ensures text { IfOk result (λ text. text.items ≡ unclean_line program.now edge) }
    ensures error { IfErr result (λ e. e ≡ session_error.Memory) }
{
    let mut text = Vec::new(alloc);
    put_unclean(&mut text, program, edge)?;
    Ok(text)
}

/// The text of an item with its edges.
fn item_text(
    alloc: Global,
    recalled: &Recalled,
    wanted: Wanted,
    found: &Clean,
) -> Result<Vec<u8>, SessionError>
    requires { IsRecalled recalled.now }
    ensures text { IfOk result (λ text. text.items ≡ why_text_of recalled.now.recording.program
        recalled.now.recording.plan wanted.item found.now.item found.now.edges) }
    ensures error { IfErr result (λ e. e ≡ session_error.Memory) }
{
    let past = past_of(recalled);
    let edges = found.edges.as_slice();
    let text = why_text(
        alloc,
        &past,
        wanted.process,
        wanted.interval,
        wanted.item,
        &found.item,
        edges,
    )?;
    Ok(text)
}

/// What is answered where there is no item with its edges, as a text.
fn unanswered(
    alloc: Global,
    recalled: &Recalled,
    wanted: Wanted,
    error: CleanError,
) -> Result<Vec<u8>, SessionError>
    requires { IsFoundClean recalled.now.recording wanted.process wanted.interval wanted.item (Err error) }
    ensures { IsCleanItem recalled.now.recording wanted.process wanted.interval wanted.item result }
{
    let _wanted = wanted;
    match error {
        CleanError::Unclean(edge) => unclean_text(alloc, &recalled.recording.program, edge),
        CleanError::NoEvent => line_of(alloc, b"? event\n"),
        CleanError::Diverged { process, entry } => {
            Err(SessionError::Diverged(At { process, entry }))
        }
        CleanError::Sets { process, entry, .. } => Err(SessionError::Sets(At { process, entry })),
        CleanError::Memory => Err(SessionError::Memory),
    }
}

/// What is answered of an item of an interval that is there, as a text.
fn clean_item(
    alloc: Global,
    recalled: &Recalled,
    races: &[Race],
    wanted: Wanted,
) -> Result<Vec<u8>, SessionError>
    requires recording { IsAskable recalled.now }
    requires races { races.now ≡ (known_of recalled.now.recording).races }
    ensures { IsCleanItem recalled.now.recording wanted.process wanted.interval wanted.item result }
{
    match cleaned(alloc, recalled, races, wanted) {
        Ok(found) => item_text(alloc, recalled, wanted, &found),
        Err(error) => unanswered(alloc, recalled, wanted, error),
    }
}

/// What is answered of the item that is asked for, as a text, or the first refusal that applies.
fn clean_of_process(
    alloc: Global,
    recalled: &Recalled,
    races: &[Race],
    asked: &AskedItem<'_>,
) -> Result<Vec<u8>, SessionError>
    requires recording { IsAskable recalled.now }
    requires races { races.now ≡ (known_of recalled.now.recording).races }
    ensures { IsTextReply recalled.now.recording (CleanQuery (asked_of asked.now)) result }
{
    let past = past_of(recalled);
    let Some(process) = process_named(past.program, asked.process.as_bytes()) else {
        return line_of(alloc, b"? process\n");
    };
    let Some(interval) = interval_there(&past, process, u64::from(asked.interval)) else {
        return line_of(alloc, b"? block\n");
    };
    let wanted = Wanted {
        process,
        interval,
        item: asked.item,
    };
    clean_item(alloc, recalled, races, wanted)
}

/// An item of a recording, with or without races: the item with its edges where no race touches its past.
pub(crate) fn clean_answer(
    rt: &(impl Threads + Sync),
    alloc: Global,
    recalled: &Recalled,
    asked: &AskedItem<'_>,
) -> Result<Answer, SessionError>
    requires { IsAskable recalled.now }
    ensures { IsReply recalled.now.recording (CleanQuery (asked_of asked.now)) result }
{
    let races = races_of(rt, alloc, recalled)?;
    let text = clean_of_process(alloc, recalled, races.as_slice(), asked);
    unscheduled(alloc, text)
}
