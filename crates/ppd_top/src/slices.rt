// The slice of an item as a text.
ghost use Rattle.std.specs.Prelude.{◌≡◌, ◌<◌, ◌++◌, [], IfErr, IfOk, OnOk, length};
ghost use Rattle.std.specs.List.{flat_map};
ghost use Rattle.ppd_index.specs.Indexes.{rows_at};
ghost use Rattle.ppd_flow_past.specs.Pasts.{IsPast};
ghost use Rattle.ppd_top.specs.Queries.{reached_line};
ghost use Rattle.ppd_top.specs.Replies.{IsItemReply};
ghost use Rattle.ppd_slice_search.specs.Reach.{at};
ghost use Rattle.ppd_session.specs.Sessions.{known_by};
ghost use Rattle.ppd_session.specs.declared.reply.SessionError.TheVariants as session_error;
ghost use Rattle.ppd_slice.specs.Slices.{IsSliceOf};

use crate::kept::line_of;
use ppd_ast::{Memory, Program, Seq, Steps};
use ppd_session::{Past, SessionError, no_items};
use ppd_slice::{FlowError, Reached, slice};
use ppd_text::{process_name, put, put_number};
use std::alloc::Global;
use std::marker::Brand;
use std::sync::ledger::{Blank, Ledger};

fn put_reached(text: &mut Vec<u8>, program: &Program, reached: &Reached) -> Result<(), Memory>
    ensures { OnOk result (text.new.items ≡ text.old.items ++ reached_line program.now reached.now) }
{
    put(text, b"at ")?;
    put_number(text, reached.depth)?;
    put(text, b" ")?;
    put(text, process_name(program, reached.process))?;
    put(text, b" ")?;
    put_number(text, reached.interval)?;
    put(text, b" ")?;
    put_number(text, reached.item)?;
    put(text, b"\n")
}

fn put_all_reached(text: &mut Vec<u8>, program: &Program, found: &[Reached]) -> Result<(), Memory>
    ensures { OnOk result (text.new.items ≡ text.old.items ++ flat_map (reached_line program.now) found.now) }
{
    for reached in found {
        put_reached(text, program, reached)?;
    }
    Ok(())
}

/// The lines of these items.
fn lines_of(alloc: Global, program: &Program, found: &[Reached]) -> Result<Vec<u8>, SessionError>
    ensures text { IfOk result (λ text. text.items ≡ flat_map (reached_line program.now) found.now) }
    ensures error { IfErr result (λ e. e ≡ session_error.Memory) }
{
    let mut text = Vec::new(alloc);
    put_all_reached(&mut text, program, found)?;
    Ok(text)
}

fn counted<L: Ledger>(
    alloc: Global,
    past: &Past,
    process: u8,
    interval: u32,
    item: u32,
    blank: Blank,
) -> Result<Seq<Reached>, FlowError>
    requires name { blank.name ≡ L.name }
    requires parts { blank.parts ≡ L.parts }
    requires some { 0 < blank.parts }
    requires past { IsPast past.now }
    ensures { IsSliceOf past.now (at process interval item) result }
{
    let mut steps: Steps<L> = Steps::new(blank);
    slice(alloc, past, process, interval, item, &mut steps)
}

/// The slice of an item, with steps that nobody reads.
fn sliced(
    alloc: Global,
    past: &Past,
    process: u8,
    interval: u32,
    item: u32,
) -> Result<Seq<Reached>, FlowError>
    requires { IsPast past.now }
    ensures { IsSliceOf past.now (at process interval item) result }
{
    counted::<Brand>(alloc, past, process, interval, item, Blank::new(1))
}

/// The text of the slice of an item of an interval that is there, or that it has no such item.
pub(crate) fn slice_text(
    alloc: Global,
    past: &Past,
    process: u8,
    interval: u32,
    item: u32,
) -> Result<Vec<u8>, SessionError>
    requires past { IsPast past.now }
    requires uncut { past.now.cut.now ≡ past.now.logs.now }
    requires there { interval < length (rows_at past.now.index.now.tables process) }
    ensures { IsItemReply (known_by past.now []) process interval item result }
{
    match sliced(alloc, past, process, interval, item) {
        Ok(found) => lines_of(alloc, past.program, found.as_slice()),
        Err(FlowError::NoEvent) => line_of(alloc, b"? event\n"),
        Err(error) => Err(no_items(error)),
    }
}
