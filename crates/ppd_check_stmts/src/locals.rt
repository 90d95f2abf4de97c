// Declared local variables.
ghost use Rattle.std.specs.Prelude.{◌≡◌, ◌<◌, [], ◌∷◌, OnOk, length, ◌≤◌, ◌+◌, ◌*◌};
ghost use Rattle.ppd_check_names.specs.Nodes.{children_of, phrase_of, phrases_of};
ghost use Rattle.ppd_check_names.specs.Reading.{locals};
ghost use Rattle.ppd_check_stmts.specs.Statements.{after_row};
ghost use Rattle.ppd_check_names.specs.Cost.{plain_at, nested_below, plain_below};
ghost use Rattle.ppd_check_stmts.specs.Writing.{WroteRow, Walked};

use crate::changes::write_changed;
use crate::statements::write_local_item;
use ppd_ast::{Memory, Steps};
use ppd_check_names::{Frame, Level, Output, children_of, rule_of};
use ppd_parse::Rule;
use std::sync::ledger::Ledger;

// What a child of a declaration declares.
pub fn write_local<L: Ledger>(
    level: Level<'_>,
    id: u32,
    frame: &mut Frame,
    out: &mut Output,
    steps: &mut Steps<L>,
) -> Result<(), Memory>
    requires within { id < length level.source.nodes.now }
    ensures wrote { OnOk result (WroteRow level.entry.site (locals (phrase_of level.entry.source.nodes.now id ∷
        [])) frame.old out.old.table out.new.table out.old.row out.new.row) }
    ensures frame { OnOk result (frame.new ≡ after_row (locals (phrase_of level.entry.source.nodes.now id
        ∷ [])) frame.old) }
    ensures cost { steps.new ≤ steps.old + 18 * plain_at level.entry.source.nodes.now id }
{
    match rule_of(level.source, id) {
        Rule::Litem => write_local_item(level, id, frame, out, steps),
        Rule::Change => write_changed(level, frame, id, out, steps),
        _ => Ok(()),
    }
}

// The variables of a declaration, one after another.
pub fn write_locals<L: Ledger>(
    level: Level<'_>,
    id: u32,
    frame: &mut Frame,
    out: &mut Output,
    steps: &mut Steps<L>,
) -> Result<(), Memory>
    requires within { id < length level.source.nodes.now }
    ensures walked { OnOk result (Walked level.entry.site (locals (phrases_of level.entry.source.nodes.now (children_of
        level.entry.source.nodes.now id))) frame.old frame.new out.old.table out.new.table out.old.row out.new.row) }
    ensures cost { steps.new ≤ steps.old + 19 * plain_below level.entry.source.nodes.now id + 19
        * nested_below level.entry.source.nodes.now id }
{
    for child in children_of(level.source, id) {
        steps.tick();
        write_local(level, *child, frame, out, steps)?;
    }
    Ok(())
}
