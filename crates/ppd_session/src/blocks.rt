// The intervals of a process as a text.
ghost use Rattle.std.specs.Prelude.{◌≡◌, ◌<◌, ◌++◌, OnOk, codes, decimal, if◌then◌else◌, slice_get, map};
ghost use Rattle.std.specs.Option.{option_map_or};
ghost use Rattle.std.specs.List.{enumerate_from, flat_map};
ghost use Rattle.ppd_index.specs.Indexes.{rows_at};
ghost use Rattle.ppd_session.specs.Rows.{of_interval, of_row, shown_at};
ghost use Rattle.ppd_session.specs.Texts.{interval_line};

use ppd_ast::{Memory, Plan, Program};
use ppd_index::{Interval, LogIndex};
use ppd_text::{put, put_number, put_what};

fn put_parent(text: &mut Vec<u8>, parent: Option<u32>) -> Result<(), Memory>
    ensures { OnOk result (text.new.items ≡ text.old.items ++ option_map_or decimal parent (codes "-")) }
{
    match parent {
        Some(parent) => put_number(text, parent),
        None => put(text, b"-"),
    }
}

fn put_state(text: &mut Vec<u8>, closed: bool) -> Result<(), Memory>
    ensures { OnOk result (text.new.items ≡ text.old.items ++ (if closed then codes "closed" else codes "open")) }
{
    if closed {
        return put(text, b"closed");
    }
    put(text, b"open")
}

fn put_interval(
    text: &mut Vec<u8>,
    program: &Program,
    plan: &Plan,
    number: u32,
    interval: Interval,
) -> Result<(), Memory>
    ensures { OnOk result
        (text.new.items ≡ text.old.items ++ interval_line program.now plan.now number (of_interval interval)) }
{
    put(text, b"block ")?;
    put_number(text, number)?;
    put(text, b" in ")?;
    put_parent(text, interval.parent)?;
    put(text, b" ")?;
    put_what(text, program, plan, interval.block)?;
    put(text, b" ")?;
    put_state(text, interval.closed)?;
    put(text, b"\n")
}

// Appends the line of an interval, if it is there.
fn put_interval_at(
    text: &mut Vec<u8>,
    program: &Program,
    plan: &Plan,
    index: &LogIndex,
    process: u8,
    number: u32,
) -> Result<(), Memory>
    ensures { OnOk result
        (text.new.items
        ≡ text.old.items
        ++ shown_at program.now plan.now number (slice_get (rows_at index.now.tables process) number)) }
{
    match index.interval(process, number) {
        Some(interval) => put_interval(text, program, plan, number, interval),
        None => Ok(()),
    }
}

/// Appends a line for each interval of a process, from 0.
pub(crate) fn put_intervals(
    text: &mut Vec<u8>,
    program: &Program,
    plan: &Plan,
    index: &LogIndex,
    process: u8,
) -> Result<(), Memory>
    ensures { OnOk result
        (text.new.items
        ≡ text.old.items
        ++ flat_map (λ i. interval_line program.now plan.now i.0 i.1)
        (enumerate_from 0 (map of_row (rows_at index.now.tables process)))) }
{
    for number in 0..index.count(process) {
        put_interval_at(text, program, plan, index, process, number)?;
    }
    Ok(())
}
