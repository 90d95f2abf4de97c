// Expressions into the table.
ghost use Rattle.std.specs.Prelude.{◌≡◌, ◌<◌, ◌++◌, [], ◌∷◌, OnOk, IfOk, length, ℕ, ◌≤◌, ◌+◌, ◌*◌, None, Some};
ghost use Rattle.ppd_check_names.specs.Nodes.{phrase_of, operand_formula, IsOperand};
ghost use Rattle.ppd_check_names.specs.Reading.{as_formula};
ghost use Rattle.ppd_check_names.specs.Faults.{first, first_of_both};
ghost use Rattle.ppd_check_stmts.specs.Expressions.{term_of, formula_faults, read};
ghost use Rattle.ppd_check_stmts.specs.Forms.{joined_expr, Added};
ghost use Rattle.ppd_check_stmts.specs.Table.{flat, root};
ghost use Rattle.ppd_ast.specs.Term.{Term};
ghost use Rattle.ppd_check_names.specs.Cost.{plain_at, operand_nodes};

use crate::calls::used;
use crate::forms::{Form, Operator, form_at};
use ppd_ast::{Expr, Memory, Seq, Steps};
use ppd_check_names::{Fault, Frame, Meaning, Operand, Scopes, Source, Use, Writer};
use std::sync::ledger::Ledger;

// One more expression; its number.
pub fn put<L: Ledger>(
    exprs: &mut Seq<Expr>,
    expr: Expr,
    steps: &mut Steps<L>,
) -> Result<u32, Memory>
    ensures added { OnOk result (exprs.new ≡ exprs.old ++ expr ∷ []) }
    ensures number { IfOk result (λ n. n ≡ length exprs.old) }
    ensures cost { steps.new ≤ steps.old + 1 }
{
    let Ok(number) = u32::try_from(exprs.len()) else {
        return Err(Memory);
    };
    steps.tick();
    exprs.push(expr)?;
    Ok(number)
}

// The expression that reads a scalar.
pub fn scalar_expr(meaning: Option<Meaning>) -> Expr
    ensures { (m : ℕ) → flat m (read meaning None) ≡ result ∷ [] }
{
    match meaning {
        Some(Meaning::Local(cell, None)) => Expr::Local(cell),
        Some(Meaning::Shared(cell, None)) => Expr::Shared(cell),
        _ => Expr::Const(0),
    }
}

// The expression that reads an element, whose index has number `at`.
pub fn element_expr(meaning: Option<Meaning>, at: u32) -> Expr
    ensures { (m : ℕ) (i : Term) → at ≡ root m i → flat m (read meaning (Some i)) ≡ flat m i ++ result ∷ [] }
{
    match meaning {
        Some(Meaning::Local(base, Some(len))) => Expr::LocalAt { base, len, at },
        Some(Meaning::Shared(base, Some(len))) => Expr::SharedAt { base, len, at },
        _ => Expr::SharedAt {
            base: 0,
            len: 0,
            at,
        },
    }
}

// The expression with this operator and operands of these numbers.
fn joined_expr(operator: Operator, a: u32, b: u32) -> Expr
    ensures { result ≡ joined_expr operator a b }
{
    match operator {
        Operator::Either => Expr::Or(a, b),
        Operator::Both => Expr::And(a, b),
        Operator::Two(op) => Expr::Two(op, a, b),
    }
}

// Adds the expressions of an operand, and keeps the first fault. Gives the number of the last.
#[cycle(formula)]
pub fn formula<L: Ledger>(
    source: Source<'_>,
    scopes: &Scopes,
    operand: Operand,
    exprs: &mut Seq<Expr>,
    found: &mut Option<Fault>,
    steps: &mut Steps<L>,
) -> Result<u32, Memory>
    requires inside { IsOperand source.nodes.now operand }
    ensures added { IfOk result
        (λ n. Added exprs.old (term_of scopes.now (operand_formula source.entry.nodes.now operand)) exprs.new n) }
    ensures faults { OnOk result
        (found.new ≡ first_of_both found.old
        (first (formula_faults scopes.now (operand_formula source.entry.nodes.now operand)))) }
    ensures cost { steps.new ≤ steps.old + 6 * operand_nodes source.entry.nodes.now operand + 3 }
{
    steps.tick();
    match operand {
        Operand::Constant(value) => put(exprs, Expr::Const(value), steps),
        Operand::At(id) => formula_at(source, scopes, id, exprs, found, steps),
    }
}

// Adds the expressions of a node.
#[cycle(formula)]
fn formula_at<L: Ledger>(
    source: Source<'_>,
    scopes: &Scopes,
    id: u32,
    exprs: &mut Seq<Expr>,
    found: &mut Option<Fault>,
    steps: &mut Steps<L>,
) -> Result<u32, Memory>
    requires inside { id < length source.nodes.now }
    ensures added { IfOk result
        (λ n. Added exprs.old (term_of scopes.now (as_formula (phrase_of source.entry.nodes.now id))) exprs.new n) }
    ensures faults { OnOk result
        (found.new ≡ first_of_both found.old
        (first (formula_faults scopes.now (as_formula (phrase_of source.entry.nodes.now id))))) }
    ensures cost { steps.new ≤ steps.old + 6 * plain_at source.entry.nodes.now id + 2 }
{
    steps.tick();
    match form_at(source, id) {
        Form::Number(value) => put(exprs, Expr::Const(value), steps),
        Form::Variable(name) => {
            let meaning = used(scopes, name, Use::Scalar, found, steps);
            put(exprs, scalar_expr(meaning), steps)
        }
        Form::Element(name, index) => {
            let meaning = used(scopes, name, Use::Element, found, steps);
            let at = formula(source, scopes, index, exprs, found, steps)?;
            put(exprs, element_expr(meaning, at), steps)
        }
        Form::Negated(operand) => {
            let a = formula(source, scopes, operand, exprs, found, steps)?;
            put(exprs, Expr::Neg(a), steps)
        }
        Form::Inverted(operand) => {
            let a = formula(source, scopes, operand, exprs, found, steps)?;
            put(exprs, Expr::Not(a), steps)
        }
        Form::Inside(inner) => formula(source, scopes, inner, exprs, found, steps),
        Form::Joined(operator, left, right) => {
            let a = formula(source, scopes, left, exprs, found, steps)?;
            let b = formula(source, scopes, right, exprs, found, steps)?;
            put(exprs, joined_expr(operator, a, b), steps)
        }
    }
}

// Adds the expressions of an operand to a table, with the first fault. Gives the number of the last.
pub fn write_term<L: Ledger>(
    source: Source<'_>,
    frame: &Frame,
    operand: Operand,
    table: &mut Writer,
    steps: &mut Steps<L>,
) -> Result<u32, Memory>
    requires inside { IsOperand source.nodes.now operand }
    ensures added { IfOk result (λ n. Added table.old.exprs (term_of frame.now.scopes (operand_formula
        source.entry.nodes.now operand)) table.new.exprs n) }
    ensures faults { OnOk result
        (table.new.found ≡ first_of_both table.old.found (first (formula_faults frame.now.scopes
        (operand_formula source.entry.nodes.now operand)))) }
    ensures stmts { table.new.stmts ≡ table.old.stmts }
    ensures cost { steps.new ≤ steps.old + 6 * operand_nodes source.entry.nodes.now operand + 3 }
{
    formula(
        source,
        &frame.scopes,
        operand,
        &mut table.exprs,
        &mut table.found,
        steps,
    )
}
