// Statements with statements inside them, up to those inside, and their scopes.
ghost use Rattle.std.specs.Prelude.{◌≡◌, OnOk, IfOk, drop, ◌≤◌, ◌+◌, ◌*◌};
ghost use Rattle.ppd_check_stmts.specs.Expressions.{term_of, formula_faults};
ghost use Rattle.ppd_check_names.specs.Nodes.{operand_formula, IsOperand};
ghost use Rattle.ppd_check_stmts.specs.Statements.{opened};
ghost use Rattle.ppd_check_stmts.specs.Writing.{Began};
ghost use Rattle.ppd_check_names.specs.Cost.{operand_nodes};

use crate::formulas::write_term;
use crate::held::hold;
use ppd_ast::{Memory, Place, Steps};
use ppd_check_names::{Frame, Level, Operand, Output};
use std::sync::ledger::Ledger;

// The numbers of a statement whose place is held and of its test's expression.
#[derive(Clone, Copy)]
pub struct Begun {
    pub at: u32,
    pub test: u32,
}

// Adds the test of a statement, then the statement, whose place is held.
pub fn begin<L: Ledger>(
    level: Level<'_>,
    frame: &Frame,
    operand: Operand,
    place: Place,
    out: &mut Output,
    steps: &mut Steps<L>,
) -> Result<Begun, Memory>
    requires within { IsOperand level.source.nodes.now operand }
    ensures began { IfOk result (λ begun. Began level.entry.site place (term_of frame.now.scopes
        (operand_formula level.entry.source.nodes.now operand)) (formula_faults frame.now.scopes
        (operand_formula level.entry.source.nodes.now operand)) out.old.table out.new.table
        begun.at begun.test out.old.row out.new.row) }
    ensures cost { steps.new ≤ steps.old + 6 * operand_nodes level.entry.source.nodes.now
        operand + 5 }
{
    let table = &mut out.table;
    let test = write_term(level.source, frame, operand, table, steps)?;
    let at = hold(level.site, place, out, steps)?;
    Ok(Begun { at, test })
}

// Opens a scope.
pub fn open<L: Ledger>(frame: &mut Frame, steps: &mut Steps<L>) -> Result<(), Memory>
    ensures opened { OnOk result (frame.new ≡ opened frame.old) }
    ensures cost { steps.new ≤ steps.old + 1 }
{
    frame.scopes.open(steps)
}

// Leaves the innermost scope.
pub fn close(frame: &mut Frame)
    ensures { frame.new ≡ record frame.old { scopes = drop 1 frame.old.scopes } }
{
    frame.scopes.close();
}
