ghost use Rattle.std.specs.Prelude.{◌≡◌, ◌+◌, ◌*◌, ◌≤◌, ◌<◌, ◌^◌, ◌||◌, [], None, length, IfOk, IfErr, OnOk, Some, if◌then◌else◌};
ghost use Rattle.ppd_ast.specs.declared.limits.TheConstants.{MOST_NAMED};
ghost use Rattle.ppd_model.specs.Entries.{is_end};
ghost use Rattle.ppd_index.specs.Fitting.{AreFittingLogs};
ghost use Rattle.ppd_index.specs.Indexes.{IsIndexOf};
ghost use Rattle.ppd_model.specs.declared.bad_log.BadLog.TheVariants.{NoEnd};
ghost use Rattle.ppd_index.specs.Refusals.{IsRefused, first_bad, first_in_lists, refusal};
ghost use Rattle.ppd_index.specs.Spending.{index_cost, index_least, still_open};
ghost use Rattle.ppd_index.specs.Tables.{begun_table, rows_of, standing_in, table_step, tabled};

use crate::log_index::LogIndex;
use crate::row::Row;
use crate::standing::{Owner, first_refusal, is_over};
use crate::table::{Table, number};
use ppd_ast::{Plan, Program, Seq, Steps};
use ppd_model::{At, BadLog, Entry, Logs};
use std::alloc::Global;
use std::marker::Brand;
use std::sync::ledger::{Blank, Ledger};

/// Takes entry `n` after those of the table, or refuses it; `ended` says whether an End stood before.
fn take_entry<L: Ledger>(
    plan: &Plan,
    owner: Owner,
    table: &mut Table,
    place: (u32, bool),
    entry: &Entry,
    steps: &mut Steps<L>,
) -> Result<(), BadLog>
    ensures passed { OnOk result
        (refusal plan.now owner.body owner.process (standing_in place.1 (tabled place.0 table.old)) entry.now
        ≡ None) }
    ensures table { OnOk result
        (tabled (place.0 + 1) table.new ≡ table_step plan.now (tabled place.0 table.old) entry.now) }
    ensures refused { IfErr result
        (IsRefused (refusal plan.now owner.body owner.process
        (standing_in place.1 (tabled place.0 table.old)) entry.now)) }
    ensures cost { OnOk result
        (steps.new + still_open (place.1 || is_end entry.now) table.new.running
        ≤ steps.old + still_open place.1 table.old.running + 1) }
    ensures most { steps.new ≤ steps.old + still_open place.1 table.old.running }
    ensures least { OnOk result (steps.old ≤ steps.new) }
{
    let (n, ended) = place;
    let standing = table.standing(n, ended);
    if let Some(bad) = first_refusal(plan, owner, &standing, entry) {
        return Err(bad);
    }
    table.take(plan, n, entry, steps)?;
    Ok(())
}

/// A list that is over after so many entries has an End. `Memory` is the answer for a count of more than 32 bits.
fn check_end(process: u8, entries: usize, ended: bool) -> Result<(), BadLog>
    ensures passed { OnOk result
        ((if ended then None else Some (NoEnd (record { process = process; entry = entries }))) ≡ None) }
    ensures refused { IfErr result
        (IsRefused (if ended then None else Some (NoEnd (record { process = process; entry = entries })))) }
    ensures large { IfErr result (λ e. e ≡ BadLog.Memory → 2 ^ 32 ≤ entries) }
{
    if ended {
        return Ok(());
    }
    let entry = number(entries)?;
    Err(BadLog::NoEnd(At { process, entry }))
}

/// The intervals of a table that is whole.
fn rows_in(table: Table) -> Vec<Row>
    ensures { result.items ≡ table.rows.items }
{
    table.rows
}

/// Takes a process's entries into a new table, or refuses one; and whether one of them was an End.
fn take_all<L: Ledger>(
    program: &Program,
    plan: &Plan,
    process: u8,
    table: &mut Table,
    entries: &[Entry],
    steps: &mut Steps<L>,
) -> Result<bool, BadLog>
    requires { tabled 0 table.old ≡ begun_table }
    ensures rows { OnOk result (table.new.rows.items ≡ rows_of plan.now entries.now) }
    ensures passed { IfOk result (λ ended.
        (if ended then None else Some (NoEnd (record { process = process; entry = length entries.now })))
        ≡ first_bad program.now plan.now process entries.now) }
    ensures refused { IfErr result (IsRefused (first_bad program.now plan.now process entries.now)) }
    ensures cost { steps.new ≤ steps.old + 2 * length entries.now }
    ensures least { OnOk result (steps.old + length entries.now ≤ steps.new) }
{
    let owner = Owner {
        process,
        body: program.functions as u32 + process as u32,
    };
    let mut ended = false;
    for (i, entry) in entries.iter().enumerate() {
        steps.tick();
        let n = number(i)?;
        take_entry(plan, owner, table, (n, ended), entry, steps)?;
        ended = is_over(ended, entry);
    }
    Ok(ended)
}

/// The intervals of a process's entries, or the first refusal.
fn own_rows<L: Ledger>(
    alloc: Global,
    program: &Program,
    plan: &Plan,
    process: u8,
    entries: &[Entry],
    steps: &mut Steps<L>,
) -> Result<Vec<Row>, BadLog>
    ensures rows { IfOk result (λ rows. rows.items ≡ rows_of plan.now entries.now) }
    ensures passed { OnOk result (first_bad program.now plan.now process entries.now ≡ None) }
    ensures refused { IfErr result (IsRefused (first_bad program.now plan.now process entries.now)) }
    ensures cost { steps.new ≤ steps.old + 2 * length entries.now }
    ensures least { OnOk result (steps.old + length entries.now ≤ steps.new) }
{
    let mut table = Table::new(alloc);
    let ended = take_all(program, plan, process, &mut table, entries, steps)?;
    check_end(process, entries.len(), ended)?;
    Ok(rows_in(table))
}

/// The same as a list of at most 2^32 - 1 intervals.
fn few_rows<L: Ledger>(
    alloc: Global,
    program: &Program,
    plan: &Plan,
    process: u8,
    entries: &[Entry],
    steps: &mut Steps<L>,
) -> Result<Seq<Row>, BadLog>
    ensures rows { IfOk result (λ rows. rows ≡ rows_of plan.now entries.now) }
    ensures few { IfOk result (λ rows. length rows < 2 ^ 32) }
    ensures passed { OnOk result (first_bad program.now plan.now process entries.now ≡ None) }
    ensures refused { IfErr result (IsRefused (first_bad program.now plan.now process entries.now)) }
    ensures cost { steps.new ≤ steps.old + 2 * length entries.now }
    ensures least { OnOk result (steps.old + length entries.now ≤ steps.new) }
{
    let rows = own_rows(alloc, program, plan, process, entries, steps)?;
    number(rows.len())?;
    Ok(Seq::from_vec(rows))
}

/// The index of the logs, as `index` answers it. It is made in steps that are linear in the entries and the
/// processes, also where the logs have none.
pub fn index_in<L: Ledger>(
    alloc: Global,
    program: &Program,
    plan: &Plan,
    logs: &Logs,
    steps: &mut Steps<L>,
) -> Result<LogIndex, BadLog>
    requires processes { length logs.now.lists ≤ MOST_NAMED }
    ensures index { IfOk result (λ index. IsIndexOf plan.now logs.now index.tables) }
    ensures fitting { OnOk result (AreFittingLogs plan.now logs.now) }
    ensures passed { OnOk result (first_in_lists program.now plan.now 0 logs.now.lists ≡ None) }
    ensures refused { IfErr result (IsRefused (first_in_lists program.now plan.now 0 logs.now.lists)) }
    ensures cost { steps.new ≤ steps.old + index_cost logs.now }
    ensures least { OnOk result (steps.old + index_least logs.now ≤ steps.new) }
{
    let mut tables = Seq::new(alloc);
    let lists = logs.lists.as_slice();
    for (p, list) in lists.iter().enumerate() {
        steps.tick();
        let rows = few_rows(alloc, program, plan, p as u8, list.as_slice(), steps)?;
        tables.push(rows)?;
    }
    Ok(LogIndex { tables })
}

/// The index of the logs, with steps that nobody reads.
fn index_from<L: Ledger>(
    alloc: Global,
    program: &Program,
    plan: &Plan,
    logs: &Logs,
    blank: Blank,
) -> Result<LogIndex, BadLog>
    requires name { blank.name ≡ L.name }
    requires parts { blank.parts ≡ L.parts }
    requires some { 0 < blank.parts }
    requires processes { length logs.now.lists ≤ MOST_NAMED }
    ensures index { IfOk result (λ index. IsIndexOf plan.now logs.now index.tables) }
    ensures fitting { OnOk result (AreFittingLogs plan.now logs.now) }
    ensures passed { OnOk result (first_in_lists program.now plan.now 0 logs.now.lists ≡ None) }
    ensures refused { IfErr result (IsRefused (first_in_lists program.now plan.now 0 logs.now.lists)) }
{
    let mut steps: Steps<L> = Steps::new(blank);
    index_in(alloc, program, plan, logs, &mut steps)
}

/// The index of the logs, or the first reason why they have none: one pass over the entries, in the steps that
/// `index_in` counts. Each process is that of a list, and a process without a list is not looked at.
pub fn index(alloc: Global, program: &Program, plan: &Plan, logs: &Logs) -> Result<LogIndex, BadLog>
    requires processes { length logs.now.lists ≤ MOST_NAMED }
    ensures index { IfOk result (λ index. IsIndexOf plan.now logs.now index.tables) }
    ensures fitting { OnOk result (AreFittingLogs plan.now logs.now) }
    ensures passed { OnOk result (first_in_lists program.now plan.now 0 logs.now.lists ≡ None) }
    ensures refused { IfErr result (IsRefused (first_in_lists program.now plan.now 0 logs.now.lists)) }
{
    index_from::<Brand>(alloc, program, plan, logs, Blank::new(1))
}
