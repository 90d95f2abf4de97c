// Statements with all that stand inside them, by their nodes.
ghost use Rattle.std.specs.Prelude.{◌≡◌, ◌<◌, [], OnOk, IfOk, length, ◌≤◌, ◌+◌, ◌*◌, ◌-◌};
ghost use Rattle.ppd_check_names.specs.Nodes.{phrase_of, below};
ghost use Rattle.ppd_check_names.specs.Reading.{as_block, as_row, for_row, formula_at, phrase, place_at, rows, statement, worded};
ghost use Rattle.ppd_check_names.specs.Syntax.{stop, block, choice, repeat};
ghost use Rattle.ppd_check_stmts.specs.Writing.{Walked};
ghost use Rattle.ppd_check_names.specs.Cost.{nested_at, nested_child, nested_below, plain_below};

use crate::begun::{begin, close, open};
use crate::counts::{last_of, test_of, write_start, write_step};
use crate::held::set_stmt;
use crate::locals::write_locals;
use crate::words::{write_named, write_word};
use ppd_ast::{Ids, Kind, Memory, Steps};
use ppd_check_names::{
    Frame, Level, Output, Site, child_at, children_of, kind_at, operand_at, place_at, rule_of,
};
use ppd_parse::{Kind as Token, Rule};
use std::mem::replace;
use std::sync::ledger::Ledger;

// The statements that the children of a node are, one after another.
#[cycle(walk)]
fn write_rows<L: Ledger>(
    level: Level<'_>,
    id: u32,
    frame: &mut Frame,
    out: &mut Output,
    steps: &mut Steps<L>,
) -> Result<(), Memory>
    requires within { id < length level.source.nodes.now }
    ensures walked { OnOk result (Walked level.entry.site (rows (below level.entry.source id)) frame.old frame.new
        out.old.table out.new.table out.old.row out.new.row) }
    ensures cost { steps.new ≤ steps.old + 48 * nested_below level.entry.source.nodes.now id + 2 * plain_below
        level.entry.source.nodes.now id + 1 }
{
    steps.tick();
    for child in children_of(level.source, id) {
        steps.tick();
        write_statement(level, *child, frame, out, steps)?;
    }
    Ok(())
}

// The statements of a block inside a body.
#[cycle(walk)]
fn write_nested<L: Ledger>(
    level: Level<'_>,
    id: u32,
    frame: &mut Frame,
    out: &mut Output,
    steps: &mut Steps<L>,
) -> Result<(), Memory>
    requires within { id < length level.source.nodes.now }
    ensures walked { OnOk result (Walked level.entry.site (block (rows (below level.entry.source id)) stop)
        frame.old frame.new out.old.table out.new.table out.old.row out.new.row) }
    ensures cost { steps.new ≤ steps.old + 48 * nested_below level.entry.source.nodes.now id + 2 * plain_below
        level.entry.source.nodes.now id + 3 }
{
    steps.tick();
    open(frame, steps)?;
    write_rows(level, id, frame, out, steps)?;
    close(frame);
    Ok(())
}

// The statements that the child is, where there is one.
#[cycle(walk)]
fn write_child<L: Ledger>(
    level: Level<'_>,
    id: u32,
    k: usize,
    frame: &mut Frame,
    out: &mut Output,
    steps: &mut Steps<L>,
) -> Result<(), Memory>
    requires within { id < length level.source.nodes.now }
    ensures walked { OnOk result (Walked level.entry.site (as_row (phrase (below level.entry.source id) k))
        frame.old frame.new out.old.table out.new.table out.old.row out.new.row) }
    ensures cost { steps.new ≤ steps.old + 48 * nested_child level.entry.source.nodes.now id k + 2 }
{
    steps.tick();
    match child_at(level.source, id, k) {
        None => Ok(()),
        Some(child) => write_statement(level, child, frame, out, steps),
    }
}

// The statements that the child is, as a row of their own where the level says; their numbers.
#[cycle(walk)]
fn write_inside<L: Ledger>(
    inner: Level<'_>,
    id: u32,
    k: usize,
    frame: &mut Frame,
    out: &mut Output,
    steps: &mut Steps<L>,
) -> Result<Ids, Memory>
    requires within { id < length inner.source.nodes.now }
    ensures walked { IfOk result (λ ids. Walked inner.entry.site (as_row (phrase (below inner.entry.source id) k))
        frame.old frame.new out.old.table out.new.table [] ids) }
    ensures row { OnOk result (out.new.row ≡ out.old.row) }
    ensures cost { steps.new ≤ steps.old + 48 * nested_child inner.entry.source.nodes.now id k + 3 }
{
    steps.tick();
    let row = Ids::new(frame.scopes.alloc());
    let outer = replace(&mut out.row, row);
    write_child(inner, id, k, frame, out, steps)?;
    Ok(replace(&mut out.row, outer))
}

// `if (e) s else t`
#[cycle(walk)]
fn write_if<L: Ledger>(
    level: Level<'_>,
    id: u32,
    frame: &mut Frame,
    out: &mut Output,
    steps: &mut Steps<L>,
) -> Result<(), Memory>
    requires within { id < length level.source.nodes.now }
    ensures walked { OnOk result (Walked level.entry.site (choice (place_at (below level.entry.source id) 0)
        (formula_at (below level.entry.source id) 2) (as_row (phrase (below level.entry.source id) 4)) (as_row
        (phrase (below level.entry.source id) 6)) stop) frame.old frame.new out.old.table out.new.table
        out.old.row out.new.row) }
    ensures cost { steps.new ≤ steps.old + 48 * nested_below level.entry.source.nodes.now id + 6 * plain_below
        level.entry.source.nodes.now id + 12 }
{
    steps.tick();
    let place = place_at(level.source, id, 0);
    let test = operand_at(level.source, id, 2);
    let begun = begin(level, frame, test, place, out, steps)?;
    let site = Site {
        parent: Some(begun.at),
        ..level.site
    };
    let inner = Level { site, ..level };
    let yes = write_inside(inner, id, 4, frame, out, steps)?;
    let no = write_inside(inner, id, 6, frame, out, steps)?;
    set_stmt(
        &mut out.table,
        level.site,
        place,
        begun.at,
        Kind::If(begun.test, yes, no),
    );
    Ok(())
}

// `while (e) s`
#[cycle(walk)]
fn write_while<L: Ledger>(
    level: Level<'_>,
    id: u32,
    frame: &mut Frame,
    out: &mut Output,
    steps: &mut Steps<L>,
) -> Result<(), Memory>
    requires within { id < length level.source.nodes.now }
    ensures walked { OnOk result (Walked level.entry.site (repeat (place_at (below level.entry.source id) 0)
        (formula_at (below level.entry.source id) 2) (as_row (phrase (below level.entry.source id) 4)) stop)
        frame.old frame.new out.old.table out.new.table out.old.row out.new.row) }
    ensures cost { steps.new ≤ steps.old + 48 * nested_below level.entry.source.nodes.now id + 6 * plain_below
        level.entry.source.nodes.now id + 9 }
{
    steps.tick();
    let place = place_at(level.source, id, 0);
    let test = operand_at(level.source, id, 2);
    let begun = begin(level, frame, test, place, out, steps)?;
    let site = Site {
        parent: Some(begun.at),
        ..level.site
    };
    let inner = Level { site, ..level };
    let turn = write_inside(inner, id, 4, frame, out, steps)?;
    set_stmt(
        &mut out.table,
        level.site,
        place,
        begun.at,
        Kind::While(begun.test, turn),
    );
    Ok(())
}

// `for (s; e; t) u`
#[cycle(walk)]
fn write_for<L: Ledger>(
    level: Level<'_>,
    id: u32,
    frame: &mut Frame,
    out: &mut Output,
    steps: &mut Steps<L>,
) -> Result<(), Memory>
    requires within { id < length level.source.nodes.now }
    ensures walked { OnOk result (Walked level.entry.site (for_row (below level.entry.source id)) frame.old
        frame.new out.old.table out.new.table out.old.row out.new.row) }
    ensures cost { steps.new ≤ steps.old + 48 * nested_below level.entry.source.nodes.now id + 48 * plain_below
        level.entry.source.nodes.now id + 26 }
{
    steps.tick();
    let place = place_at(level.source, id, 0);
    let test = test_of(level.source, id, steps);
    let last = last_of(level.source, id);
    open(frame, steps)?;
    write_start(level, id, frame, out, steps)?;
    let begun = begin(level, frame, test, place, out, steps)?;
    let site = Site {
        parent: Some(begun.at),
        ..level.site
    };
    let inner = Level { site, ..level };
    let row = Ids::new(frame.scopes.alloc());
    let outer = replace(&mut out.row, row);
    write_child(inner, id, last, frame, out, steps)?;
    write_step(inner, id, frame, out, steps)?;
    let turn = replace(&mut out.row, outer);
    set_stmt(
        &mut out.table,
        level.site,
        place,
        begun.at,
        Kind::While(begun.test, turn),
    );
    close(frame);
    Ok(())
}

// A statement that begins with a word, or the empty one.
#[cycle(walk)]
fn write_worded<L: Ledger>(
    level: Level<'_>,
    id: u32,
    frame: &mut Frame,
    out: &mut Output,
    steps: &mut Steps<L>,
) -> Result<(), Memory>
    requires within { id < length level.source.nodes.now }
    ensures walked { OnOk result (Walked level.entry.site (worded (below level.entry.source id)) frame.old frame.new
        out.old.table out.new.table out.old.row out.new.row) }
    ensures cost { steps.new ≤ steps.old + 48 * nested_below level.entry.source.nodes.now id + 48 * plain_below
        level.entry.source.nodes.now id + 27 }
{
    steps.tick();
    match kind_at(level.source, id, 0) {
        Token::IfWord => write_if(level, id, frame, out, steps),
        Token::WhileWord => write_while(level, id, frame, out, steps),
        Token::ForWord => write_for(level, id, frame, out, steps),
        _ => write_word(level, id, frame, out, steps),
    }
}

// A statement that is no declaration.
#[cycle(walk)]
fn write_stmt<L: Ledger>(
    level: Level<'_>,
    id: u32,
    frame: &mut Frame,
    out: &mut Output,
    steps: &mut Steps<L>,
) -> Result<(), Memory>
    requires within { id < length level.source.nodes.now }
    ensures walked { OnOk result (Walked level.entry.site (statement (phrase (below level.entry.source id) 0) (below
        level.entry.source id)) frame.old frame.new out.old.table out.new.table out.old.row out.new.row) }
    ensures cost { steps.new ≤ steps.old + 48 * nested_below level.entry.source.nodes.now id + 48 * plain_below
        level.entry.source.nodes.now id + 28 }
{
    steps.tick();
    match child_at(level.source, id, 0) {
        None => write_worded(level, id, frame, out, steps),
        Some(child) => match rule_of(level.source, child) {
            Rule::Leaf => write_worded(level, id, frame, out, steps),
            Rule::Block => write_nested(level, child, frame, out, steps),
            _ => write_named(level, id, frame, out, steps),
        },
    }
}

// The statements that a node is. Calls stand in one another as deep as statements do.
#[cycle(walk)]
pub fn write_statement<L: Ledger>(
    level: Level<'_>,
    id: u32,
    frame: &mut Frame,
    out: &mut Output,
    steps: &mut Steps<L>,
) -> Result<(), Memory>
    requires within { id < length level.source.nodes.now }
    ensures walked { OnOk result (Walked level.entry.site (as_row (phrase_of level.entry.source.nodes.now id))
        frame.old frame.new out.old.table out.new.table out.old.row out.new.row) }
    ensures cost { steps.new ≤ steps.old + (48 * nested_at level.entry.source.nodes.now id - 2) + 1 }
{
    steps.tick();
    match rule_of(level.source, id) {
        Rule::Local => write_locals(level, id, frame, out, steps),
        Rule::Stmt => write_stmt(level, id, frame, out, steps),
        _ => Ok(()),
    }
}

// The statements of the block that a node is, as of a body.
pub fn write_body<L: Ledger>(
    level: Level<'_>,
    id: u32,
    frame: &mut Frame,
    out: &mut Output,
    steps: &mut Steps<L>,
) -> Result<(), Memory>
    requires within { id < length level.source.nodes.now }
    ensures walked { OnOk result (Walked level.entry.site (as_block (phrase_of level.entry.source.nodes.now id)).row
        frame.old frame.new out.old.table out.new.table out.old.row out.new.row) }
    ensures cost { steps.new ≤ steps.old + 48 * nested_at level.entry.source.nodes.now id }
{
    match rule_of(level.source, id) {
        Rule::Block => write_rows(level, id, frame, out, steps),
        _ => Ok(()),
    }
}
