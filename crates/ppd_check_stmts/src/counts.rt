// The parts of a `for`, as statements.
ghost use Rattle.std.specs.Prelude.{◌≡◌, ◌<◌, ◌≤◌, ◌-◌, OnOk, length, take, drop, ◌+◌, ◌*◌, slice_index_or, pos};
ghost use Rattle.ppd_check_stmts.specs.Statements.{code_of_any, faults_of_any};
ghost use Rattle.ppd_check_names.specs.Syntax.{number};
ghost use Rattle.ppd_check_names.specs.Nodes.{operand_formula, IsOperand, below};
ghost use Rattle.ppd_check_stmts.specs.Plain.{row_any};
ghost use Rattle.ppd_check_names.specs.Reading.{phrase, before, beyond, last, formulas, for_start, some_change};
ghost use Rattle.ppd_check_names.specs.Cost.{plain_below, operand_nodes};
ghost use Rattle.ppd_check_stmts.specs.Writing.{Wrote, Walked};

use crate::parts::{part_of, past_semicolon, semicolon_from, test_among};
use crate::stores::write_fresh;
use crate::turns::write_changing;
use crate::values::Value;
use ppd_ast::{Memory, Steps};
use ppd_check_names::{
    Frame, Level, Operand, Output, Source, children_of, kind_at, label_at, operand_at,
};
use ppd_parse::Kind;
use std::sync::ledger::Ledger;

// The number of the last child; where there is none, that of no child.
#[tactic(auto, using(ppd_check_names::proofs::Table::Trees::count_below))]
pub fn last_of(source: Source<'_>, id: u32) -> usize
    requires within { id < length source.nodes.now }
    ensures { phrase (below source.entry id) result ≡ last (below source.entry id) }
{
    children_of(source, id).len().saturating_sub(1)
}

// The first part, up to the child `end`: a declared variable, or a change.
fn write_first<L: Ledger>(
    level: Level<'_>,
    id: u32,
    end: usize,
    frame: &mut Frame,
    out: &mut Output,
    steps: &mut Steps<L>,
) -> Result<(), Memory>
    requires within { id < length level.source.nodes.now }
    requires past { 2 ≤ end }
    ensures walked { OnOk result (Walked level.entry.site (row_any (for_start (take (end - 2) (drop 2
        (below level.entry.source id))))) frame.old frame.new out.old.table out.new.table out.old.row out.new.row) }
    ensures cost { steps.new ≤ steps.old + 18 * plain_below level.entry.source.nodes.now id + 10 }
{
    let first = part_of(level.source, id, 2, end, 0);
    match kind_at(level.source, id, first) {
        Kind::IntWord => {
            let name = label_at(level.source, id, part_of(level.source, id, 2, end, 1));
            let value = Value::Plain(operand_at(
                level.source,
                id,
                part_of(level.source, id, 2, end, 3),
            ));
            write_fresh(level, name, value, frame, out, steps)
        }
        _ => write_changing(level, id, first, frame, out, steps),
    }
}

// What a `for` says before its first turn.
pub fn write_start<L: Ledger>(
    level: Level<'_>,
    id: u32,
    frame: &mut Frame,
    out: &mut Output,
    steps: &mut Steps<L>,
) -> Result<(), Memory>
    requires within { id < length level.source.nodes.now }
    ensures walked { OnOk result (Walked level.entry.site (row_any (for_start (before (drop 2
        (below level.entry.source id))))) frame.old frame.new out.old.table out.new.table out.old.row out.new.row) }
    ensures cost { steps.new ≤ steps.old + length (below level.entry.source id) + 18 *
        plain_below level.entry.source.nodes.now id + 10 }
{
    let end = semicolon_from(level.source, id, 2, steps);
    write_first(level, id, end, frame, out, steps)
}

// The test of a `for`.
pub fn test_of<L: Ledger>(source: Source<'_>, id: u32, steps: &mut Steps<L>) -> Operand
    requires within { id < length source.nodes.now }
    ensures formula { operand_formula source.entry.nodes.now result ≡ slice_index_or (formulas (before (beyond (drop 2
        (below source.entry id))))) 0 (number (pos 1)) }
    ensures within { IsOperand source.entry.nodes.now result }
    ensures nodes { operand_nodes source.entry.nodes.now result ≤ plain_below source.entry.nodes.now id }
    ensures cost { steps.new ≤ steps.old + 3 * length (below source.entry id) }
{
    let from = past_semicolon(source, id, 2, steps);
    let end = semicolon_from(source, id, from, steps);
    test_among(source, id, from, end, steps)
}

// The number of the child that a `for` says after each turn; where it says nothing, that of none that says anything.
fn step_of<L: Ledger>(source: Source<'_>, id: u32, steps: &mut Steps<L>) -> usize
    requires within { id < length source.nodes.now }
    ensures value { phrase (below source.entry id) result ≡ phrase (beyond (beyond (drop 2
        (below source.entry id)))) 0 }
    ensures cost { steps.new ≤ steps.old + 2 * length (below source.entry id) }
{
    let from = past_semicolon(source, id, 2, steps);
    past_semicolon(source, id, from, steps)
}

// What a child says that is no variable of the scope afterwards.
fn write_undeclared<L: Ledger>(
    level: Level<'_>,
    id: u32,
    k: usize,
    frame: &mut Frame,
    out: &mut Output,
    steps: &mut Steps<L>,
) -> Result<(), Memory>
    requires within { id < length level.source.nodes.now }
    ensures wrote { OnOk result (Wrote level.entry.site.body level.entry.site.parent (code_of_any (some_change
        (phrase (below level.entry.source id) k)) frame.old) (faults_of_any (some_change (phrase
        (below level.entry.source id) k)) frame.old) out.old.table out.new.table out.old.row out.new.row) }
    ensures frame { OnOk result
        (record frame.new { scopes = drop 1 frame.new.scopes }
        ≡ record frame.old { scopes = drop 1 frame.old.scopes }) }
    ensures cost { steps.new ≤ steps.old + 18 * plain_below level.entry.source.nodes.now id }
{
    let before = frame.variables.len();
    let cells = frame.cells;
    let hidden = frame.hidden;
    write_changing(level, id, k, frame, out, steps)?;
    frame.variables.truncate(before);
    frame.cells = cells;
    frame.hidden = hidden;
    Ok(())
}

// What a `for` says after each turn. The variables and cells that this would declare are none of the body's.
pub fn write_step<L: Ledger>(
    level: Level<'_>,
    id: u32,
    frame: &mut Frame,
    out: &mut Output,
    steps: &mut Steps<L>,
) -> Result<(), Memory>
    requires within { id < length level.source.nodes.now }
    ensures wrote { OnOk result (Wrote level.entry.site.body level.entry.site.parent (code_of_any (some_change
        (phrase (beyond (beyond (drop 2 (below level.entry.source id)))) 0)) frame.old) (faults_of_any
        (some_change (phrase (beyond (beyond (drop 2 (below level.entry.source id)))) 0)) frame.old)
        out.old.table out.new.table out.old.row out.new.row) }
    ensures frame { OnOk result
        (record frame.new { scopes = drop 1 frame.new.scopes }
        ≡ record frame.old { scopes = drop 1 frame.old.scopes }) }
    ensures cost { steps.new ≤ steps.old + 2 * length (below level.entry.source id) + 18 *
        plain_below level.entry.source.nodes.now id }
{
    let step = step_of(level.source, id, steps);
    write_undeclared(level, id, step, frame, out, steps)
}
