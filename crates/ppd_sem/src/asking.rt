ghost use Rattle.std.specs.Prelude.{◌≡◌, ◌+◌, ◌<◌, ◌^◌, ℕ, length, IfOk, IfErr, Ok, Err};
ghost use Rattle.ppd_ast.specs.Table.{AreChildrenBelow, EachAt};
ghost use Rattle.ppd_ast.specs.Term.{node, term, terms};
ghost use Rattle.ppd_sem.specs.Ask.{ask as ask_of};
ghost use Rattle.ppd_sem.specs.Asked.{lift, read_shared};
ghost use Rattle.ppd_sem.specs.Parts.{AreCellsBelow, by_both as by_both_of, by_first as by_first_of, first_of, leaf as leaf_of, second_of};
ghost use Rattle.ppd_sem.specs.Reads.{ask_place};
ghost use Rattle.ppd_sem.specs.Within.{IsWithin};

use crate::eval::{calc, element, is_zero, negated, truth};
use ppd_ast::{Expr, Trap};

/// Why evaluation stops: the shared cell that is wanted next, or a trap.
#[derive(Clone, Copy)]
pub enum Pause {
    Wants(u16),
    Traps(Trap),
}

/// The expression `at`. Its parts stand below it, and they name no cell that it does not.
pub(crate) fn expr_at(exprs: &[Expr], at: u32) -> Expr
    requires children { EachAt AreChildrenBelow exprs.now }
    requires at_in { at < length exprs.now }
    ensures is { term exprs.now at ≡ node (terms exprs.now) result }
    ensures below { AreChildrenBelow at result }
    ensures within { (n : ℕ) → IsWithin n (term exprs.now at) → IsWithin n (node (terms exprs.now) result) }
{
    exprs[at as usize]
}

/// The operand of an expression that is evaluated first, if it has one.
pub(crate) fn first_operand(expr: Expr) -> Option<u32>
    ensures { result ≡ first_of expr }
{
    match expr {
        Expr::Const(_) | Expr::Local(_) | Expr::Shared(_) => None,
        Expr::LocalAt { at, .. } | Expr::SharedAt { at, .. } => Some(at),
        Expr::Neg(a) | Expr::Not(a) => Some(a),
        Expr::Two(_, a, _) | Expr::And(a, _) | Expr::Or(a, _) => Some(a),
    }
}

/// The operand that is evaluated once the first came to `x`, if there is one.
pub(crate) fn second_operand(expr: Expr, x: i64) -> Option<u32>
    ensures { result ≡ second_of expr x }
{
    match expr {
        Expr::Two(_, _, b) => Some(b),
        Expr::And(_, b) if !is_zero(x) => Some(b),
        Expr::Or(_, b) if is_zero(x) => Some(b),
        _ => None,
    }
}

fn next_answer(cell: u16, answers: &[i64]) -> Result<(i64, &[i64]), Pause>
    ensures ok { IfOk result (λ r. read_shared answers.now cell ≡ Ok (r.0, r.1.now)) }
    ensures err { IfErr result (λ p. read_shared answers.now cell ≡ Err p) }
{
    match answers {
        [] => Err(Pause::Wants(cell)),
        [value, rest @ ..] => Ok((*value, rest)),
    }
}

/// The value of an expression without operands.
fn leaf<'a>(expr: Expr, cells: &[i64], answers: &'a [i64]) -> Result<(i64, &'a [i64]), Pause>
    requires { AreCellsBelow (length cells.now) expr }
    ensures ok { IfOk result (λ r. leaf_of expr cells.now answers.now ≡ Ok (r.0, r.1.now)) }
    ensures err { IfErr result (λ p. leaf_of expr cells.now answers.now ≡ Err p) }
{
    match expr {
        Expr::Const(value) => Ok((value, answers)),
        Expr::Local(cell) => Ok((cells[cell as usize], answers)),
        Expr::Shared(cell) => next_answer(cell, answers),
        _ => Ok((0, answers)),
    }
}

/// The value of an expression that is evaluated once its first operand came to `x`.
#[tactic(auto, using(crate::proofs::Asks::steps))]
fn by_first<'a>(
    expr: Expr,
    x: i64,
    cells: &[i64],
    answers: &'a [i64],
) -> Result<(i64, &'a [i64]), Pause>
    requires cells { AreCellsBelow (length cells.now) expr }
    requires limit { length cells.now < 2 ^ 16 }
    ensures ok { IfOk result (λ r. by_first_of expr x cells.now answers.now ≡ Ok (r.0, r.1.now)) }
    ensures err { IfErr result (λ p. by_first_of expr x cells.now answers.now ≡ Err p) }
{
    match expr {
        Expr::LocalAt { base, len, .. } => {
            let cell = element(base, len, x)?;
            Ok((cells[cell as usize], answers))
        }
        Expr::SharedAt { base, len, .. } => next_answer(element(base, len, x)?, answers),
        Expr::Neg(_) => Ok((negated(x)?, answers)),
        Expr::Not(_) => Ok((truth(is_zero(x)), answers)),
        Expr::Or(..) => Ok((1, answers)),
        _ => Ok((0, answers)),
    }
}

/// The value of an expression once its operands came to `x` and `y`.
#[tactic(auto, using(crate::proofs::Asks::steps))]
fn by_both<'a>(expr: Expr, x: i64, y: i64, answers: &'a [i64]) -> Result<(i64, &'a [i64]), Pause>
    ensures ok { IfOk result (λ r. lift answers.now (by_both_of expr x y) ≡ Ok (r.0, r.1.now)) }
    ensures err { IfErr result (λ p. lift answers.now (by_both_of expr x y) ≡ Err p) }
{
    match expr {
        Expr::Two(op, ..) => Ok((calc(op, x, y)?, answers)),
        _ => Ok((truth(!is_zero(y)), answers)),
    }
}

/// The value of expression `at` over a frame's cells, with the answers that are left after its
/// shared reads; each of these takes the next answer. `Wants` says that the answers came to an
/// end at a read of this shared cell, `Traps` why there is no value.
#[tactic(auto, using(crate::proofs::Asks::steps))]
pub fn ask<'a>(
    exprs: &[Expr],
    at: u32,
    cells: &[i64],
    answers: &'a [i64],
) -> Result<(i64, &'a [i64]), Pause>
    requires children { EachAt AreChildrenBelow exprs.now }
    requires at_in { at < length exprs.now }
    requires within { IsWithin (length cells.now) (term exprs.now at) }
    requires limit { length cells.now < 2 ^ 16 }
    ensures ok { IfOk result (λ r. ask_of (term exprs.now at) cells.now answers.now ≡ Ok (r.0, r.1.now)) }
    ensures err { IfErr result (λ p. ask_of (term exprs.now at) cells.now answers.now ≡ Err p) }
{
    let expr = expr_at(exprs, at);
    let Some(first) = first_operand(expr) else {
        return leaf(expr, cells, answers);
    };
    let (x, rest) = ask(exprs, first, cells, answers)?;
    let Some(second) = second_operand(expr, x) else {
        return by_first(expr, x, cells, rest);
    };
    let (y, rest) = ask(exprs, second, cells, rest)?;
    by_both(expr, x, y, rest)
}

/// The cell of an array's element by its index, which is tested, with the answers that are left.
#[tactic(auto, using(crate::proofs::Asks::steps))]
pub(crate) fn place<'a>(
    exprs: &[Expr],
    base: u16,
    len: u16,
    at: u32,
    cells: &[i64],
    answers: &'a [i64],
) -> Result<(u16, &'a [i64]), Pause>
    requires children { EachAt AreChildrenBelow exprs.now }
    requires limit { length cells.now < 2 ^ 16 }
    requires at_in { at < length exprs.now }
    requires within { IsWithin (length cells.now) (term exprs.now at) }
    requires range { base + len < 2 ^ 16 }
    ensures ok { IfOk result (λ r. ask_place (term exprs.now at) base len cells.now answers.now ≡ Ok (r.0, r.1.now)) }
    ensures inside { IfOk result (λ r. r.0 < base + len) }
    ensures err { IfErr result (λ p. ask_place (term exprs.now at) base len cells.now answers.now ≡ Err p) }
{
    let (index, rest) = ask(exprs, at, cells, answers)?;
    let cell = element(base, len, index)?;
    Ok((cell, rest))
}
