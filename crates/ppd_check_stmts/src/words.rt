// Statements without statements inside them, by their nodes.
ghost use Rattle.std.specs.Prelude.{◌≡◌, ◌<◌, OnOk, length, ◌≤◌, ◌+◌, ◌*◌};
ghost use Rattle.ppd_check_names.specs.Reading.{phrase, kind};
ghost use Rattle.ppd_check_stmts.specs.Plain.{plain_word, plain_statement};
ghost use Rattle.ppd_check_stmts.specs.Statements.{after_row};
ghost use Rattle.ppd_check_names.specs.Cost.{plain_below};
ghost use Rattle.ppd_check_stmts.specs.Writing.{WroteRow};
ghost use Rattle.ppd_check_names.specs.Nodes.{below};

use crate::changes::write_changed;
use crate::hidden::write_store;
use crate::simple::{Showing, Signal, write_send, write_shown, write_signal};
use crate::statements::{write_called, write_local_item, write_returned};
use crate::values::{goal_at, value_at};
use ppd_ast::{Memory, Steps};
use ppd_check_names::{Frame, Level, Output, child_at, kind_at, rule_of};
use ppd_parse::{Kind, Rule};
use std::sync::ledger::Ledger;

// A statement that begins with a word and has no statements inside it, or the empty one.
pub fn write_word<L: Ledger>(
    level: Level<'_>,
    id: u32,
    frame: &mut Frame,
    out: &mut Output,
    steps: &mut Steps<L>,
) -> Result<(), Memory>
    requires within { id < length level.source.nodes.now }
    ensures wrote { OnOk result (WroteRow level.entry.site (plain_word (kind (phrase (below level.entry.source id) 0))
        (below level.entry.source id)) frame.old out.old.table out.new.table out.old.row out.new.row) }
    ensures frame { OnOk result (frame.new ≡ after_row (plain_word (kind (phrase (below
        level.entry.source id) 0)) (below level.entry.source id)) frame.old) }
    ensures cost { steps.new ≤ steps.old + 11 * plain_below level.entry.source.nodes.now id + 10 }
{
    match kind_at(level.source, id, 0) {
        Kind::ReturnWord => write_returned(level, id, frame, out, steps),
        Kind::TakeWord => write_signal(level, frame, id, Signal::Take, out, steps),
        Kind::GiveWord => write_signal(level, frame, id, Signal::Give, out, steps),
        Kind::SendWord => write_send(level, frame, id, out, steps),
        Kind::PrintWord => write_shown(level, frame, id, Showing::Print, out, steps),
        Kind::AssertWord => write_shown(level, frame, id, Showing::Assert, out, steps),
        _ => Ok(()),
    }
}

// A statement that begins with a name: a store, a change or a call.
pub fn write_named<L: Ledger>(
    level: Level<'_>,
    id: u32,
    frame: &mut Frame,
    out: &mut Output,
    steps: &mut Steps<L>,
) -> Result<(), Memory>
    requires within { id < length level.source.nodes.now }
    ensures wrote { OnOk result (WroteRow level.entry.site (plain_statement (phrase (below level.entry.source id)
        0) (below level.entry.source id)) frame.old out.old.table out.new.table out.old.row out.new.row) }
    ensures frame { OnOk result (frame.new ≡ after_row (plain_statement (phrase (below level.entry.source
        id) 0) (below level.entry.source id)) frame.old) }
    ensures cost { steps.new ≤ steps.old + 18 * plain_below level.entry.source.nodes.now id + 15 }
{
    match child_at(level.source, id, 0) {
        None => Ok(()),
        Some(child) => match rule_of(level.source, child) {
            Rule::Place => {
                let goal = goal_at(level.source, id, 0);
                let value = value_at(level.source, id, 2);
                write_store(level, goal, value, frame, out, steps)
            }
            Rule::Call => write_called(level, frame, child, out, steps),
            Rule::Change => write_changed(level, frame, child, out, steps),
            Rule::Litem => write_local_item(level, child, frame, out, steps),
            _ => Ok(()),
        },
    }
}
