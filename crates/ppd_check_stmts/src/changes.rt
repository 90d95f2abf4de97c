// Values stored at places.
ghost use Rattle.std.specs.Prelude.{◌≡◌, ◌<◌, IfSome, MatchOption, OnOk, length, List, ◌≤◌, ◌+◌, ◌*◌};
ghost use Rattle.ppd_parse.specs.declared.node.Node.{Node};
ghost use Rattle.ppd_check_names.specs.Nodes.{operand_formula, IsOperand, below};
ghost use Rattle.ppd_check_names.specs.Reading.{as_goal, changed, formula_at, phrase};
ghost use Rattle.ppd_check_names.specs.Syntax.{store, change, plain};
ghost use Rattle.ppd_check_stmts.specs.Statements.{goal_name};
ghost use Rattle.ppd_check_stmts.specs.Values.{goal_said, IsGoal, goal_nodes};
ghost use Rattle.ppd_check_names.specs.Cost.{plain_below, operand_nodes};
ghost use Rattle.ppd_check_stmts.specs.Writing.{WroteSimple};

use crate::formulas::{put, write_term};
use crate::stores::{write_goal, write_spot};
use crate::values::{Goal, goal_at};
use ppd_ast::{Expr, Kind, Memory, Op, Place, Steps};
use ppd_check_names::{Frame, Level, Operand, Output, Source, kind_at, operand_at, put_stmt};
use ppd_parse::Kind as Token;
use std::sync::ledger::Ledger;

// The place of the name.
pub fn place_of(goal: Goal<'_>) -> Place
    ensures { (ns : List Node) → (goal_name (goal_said ns goal.entry)).place ≡ result }
{
    match goal {
        Goal::Scalar(name) => name.place,
        Goal::Item(name, _) => name.place,
    }
}

// What a place is changed by: an operator and its second operand.
#[derive(Clone, Copy)]
pub struct Change {
    pub op: Op,
    pub operand: Operand,
}

// `p = e`
pub fn write_assign<L: Ledger>(
    level: Level<'_>,
    frame: &Frame,
    goal: Goal<'_>,
    operand: Operand,
    out: &mut Output,
    steps: &mut Steps<L>,
) -> Result<(), Memory>
    requires goal { IsGoal level.source.nodes.now goal }
    requires within { IsOperand level.source.nodes.now operand }
    ensures wrote { OnOk result (WroteSimple level.entry.site (store (goal_said level.entry.source.nodes.now
        goal.entry) (plain (operand_formula level.entry.source.nodes.now operand))) frame.now out.old.table
        out.new.table out.old.row out.new.row) }
    ensures cost { steps.new ≤ steps.old + 6 * goal_nodes level.entry.source.nodes.now
        goal.entry + 6 * operand_nodes level.entry.source.nodes.now operand + 9 }
{
    let place = place_of(goal);
    let table = &mut out.table;
    let target = write_spot(level.source, frame, goal, table, steps)?;
    let number = write_term(level.source, frame, operand, table, steps)?;
    put_stmt(out, level.site, place, Kind::Set(target, number), steps)
}

// `p += e`, `p -= e`, `p++` and `p--`
pub fn write_change<L: Ledger>(
    level: Level<'_>,
    frame: &Frame,
    goal: Goal<'_>,
    update: Change,
    out: &mut Output,
    steps: &mut Steps<L>,
) -> Result<(), Memory>
    requires goal { IsGoal level.source.nodes.now goal }
    requires within { IsOperand level.source.nodes.now update.operand }
    ensures wrote { OnOk result (WroteSimple level.entry.site (change (goal_said level.entry.source.nodes.now
        goal.entry) update.op (operand_formula level.entry.source.nodes.now update.operand)) frame.now out.old.table
        out.new.table out.old.row out.new.row) }
    ensures cost { steps.new ≤ steps.old + 12 * goal_nodes level.entry.source.nodes.now
        goal.entry + 6 * operand_nodes level.entry.source.nodes.now update.operand + 15 }
{
    let place = place_of(goal);
    let table = &mut out.table;
    let target = write_spot(level.source, frame, goal, table, steps)?;
    let a = write_goal(level.source, frame, goal, table, steps)?;
    let b = write_term(level.source, frame, update.operand, table, steps)?;
    let number = put(&mut out.table.exprs, Expr::Two(update.op, a, b), steps)?;
    put_stmt(out, level.site, place, Kind::Set(target, number), steps)
}

// What a node of changes changes its place by; none where it assigns.
fn change_at(source: Source<'_>, id: u32) -> Option<Change>
    requires within { id < length source.nodes.now }
    ensures said { MatchOption result (store (as_goal (phrase (below source.entry id) 0)) (plain (formula_at (below
        source.entry id) 2)) ≡ changed (below source.entry id)) (λ update. change (as_goal (phrase (below source.entry
        id) 0)) update.op (operand_formula source.entry.nodes.now update.operand) ≡ changed (below source.entry id)) }
    ensures within { IfSome result (λ update. IsOperand source.entry.nodes.now update.operand) }
    ensures nodes { IfSome result (λ update. operand_nodes source.entry.nodes.now update.operand ≤ plain_below
        source.entry.nodes.now id) }
{
    let operand = operand_at(source, id, 2);
    let one = Operand::Constant(1);
    match kind_at(source, id, 1) {
        Token::AssignMark => None,
        Token::AddMark => Some(Change {
            op: Op::Add,
            operand,
        }),
        Token::SubtractMark => Some(Change {
            op: Op::Sub,
            operand,
        }),
        Token::IncreaseMark => Some(Change {
            op: Op::Add,
            operand: one,
        }),
        _ => Some(Change {
            op: Op::Sub,
            operand: one,
        }),
    }
}

// What a node of changes says.
pub fn write_changed<L: Ledger>(
    level: Level<'_>,
    frame: &Frame,
    id: u32,
    out: &mut Output,
    steps: &mut Steps<L>,
) -> Result<(), Memory>
    requires within { id < length level.source.nodes.now }
    ensures wrote { OnOk result (WroteSimple level.entry.site (changed
        (below level.entry.source id)) frame.now out.old.table out.new.table out.old.row out.new.row) }
    ensures cost { steps.new ≤ steps.old + 18 * plain_below level.entry.source.nodes.now id + 15 }
{
    let goal = goal_at(level.source, id, 0);
    match change_at(level.source, id) {
        Some(change) => write_change(level, frame, goal, change, out, steps),
        None => {
            let operand = operand_at(level.source, id, 2);
            write_assign(level, frame, goal, operand, out, steps)
        }
    }
}
