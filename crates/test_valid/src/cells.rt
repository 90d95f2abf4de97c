ghost use Rattle.std.specs.Prelude.{◌≡◌, ◌<◌, ◌≤◌, ◌↔◌, ℕ, IsTrue, length};
ghost use Rattle.std.specs.List.{All, count_by};
ghost use Rattle.ppd_ast.specs.Cells.{after, holds, CoverCells, IsScalarOf, IsArrayOf, AreParams, NamesWhole, IsWholeTarget, IsScalarIfAny, WritesWhole};
ghost use Rattle.ppd_ast.specs.Table.{EachAt, AreChildrenBelow};
ghost use Rattle.ppd_ast.specs.Term.{term};

use ppd_ast::{Expr, Kind, Target, Var};

fn after(var: &Var) -> usize
    ensures { result ≡ after var.now }
{
    let cells = match var.len {
        None => 1,
        Some(len) => len as usize,
    };
    var.base as usize + cells
}

fn holds(var: &Var, cell: usize) -> bool
    ensures { result ≡ holds cell var.now }
{
    var.base as usize <= cell && cell < after(var)
}

fn holders(vars: &[Var], cell: usize) -> usize
    ensures { result ≡ count_by (holds cell) vars.now }
{
    vars.iter().filter(|var| holds(var, cell)).count()
}

fn are_within(vars: &[Var], cells: usize) -> bool
    ensures { IsTrue result ↔ All (λ v. after v ≤ cells) vars.now }
{
    vars.iter().all(|var| after(var) <= cells)
}

fn is_each_held_once(vars: &[Var], cells: usize) -> bool
    ensures { IsTrue result ↔ ((c : ℕ) → c < cells → count_by (holds c) vars.now ≡ 1) }
{
    for cell in 0..cells {
        if holders(vars, cell) != 1 {
            return false;
        }
    }
    true
}

pub(crate) fn do_cover(vars: &[Var], cells: usize) -> bool
    ensures { IsTrue result ↔ CoverCells vars.now cells }
{
    are_within(vars, cells) && is_each_held_once(vars, cells)
}

fn has_scalar(vars: &[Var], cell: u16) -> bool
    ensures { IsTrue result ↔ IsScalarOf vars.now cell }
{
    vars.iter().any(|var| var.base == cell && var.len.is_none())
}

fn has_array(vars: &[Var], base: u16, len: u16) -> bool
    ensures { IsTrue result ↔ IsArrayOf vars.now base len }
{
    vars.iter()
        .any(|var| var.base == base && var.len == Some(len))
}

pub(crate) fn are_params(vars: &[Var], params: u16) -> bool
    ensures { IsTrue result ↔ AreParams vars.now params }
{
    for place in 0..params {
        match vars.get(place as usize) {
            None => return false,
            Some(var) => {
                if var.base != place || var.len.is_some() {
                    return false;
                }
            }
        }
    }
    true
}

// Whether the expression names whole variables of these.
pub(crate) fn does_name_whole(exprs: &[Expr], number: u32, shareds: &[Var], locals: &[Var]) -> bool
    requires ordered { EachAt AreChildrenBelow exprs.now }
    requires there { number < length exprs.now }
    ensures { IsTrue result ↔ NamesWhole shareds.now locals.now (term exprs.now number) }
{
    let expr = exprs[number as usize];
    match expr {
        Expr::Const(_) => true,
        Expr::Local(cell) => has_scalar(locals, cell),
        Expr::LocalAt { base, len, at } => {
            has_array(locals, base, len) && does_name_whole(exprs, at, shareds, locals)
        }
        Expr::Shared(cell) => has_scalar(shareds, cell),
        Expr::SharedAt { base, len, at } => {
            has_array(shareds, base, len) && does_name_whole(exprs, at, shareds, locals)
        }
        Expr::Neg(a) | Expr::Not(a) => does_name_whole(exprs, a, shareds, locals),
        Expr::Two(_, a, b) | Expr::And(a, b) | Expr::Or(a, b) => {
            does_name_whole(exprs, a, shareds, locals) && does_name_whole(exprs, b, shareds, locals)
        }
    }
}

fn is_whole_target(target: &Target, shareds: &[Var], locals: &[Var]) -> bool
    ensures { IsTrue result ↔ IsWholeTarget shareds.now locals.now target.now }
{
    match *target {
        Target::Local(cell) => has_scalar(locals, cell),
        Target::LocalAt { base, len, .. } => has_array(locals, base, len),
        Target::Shared(cell) => has_scalar(shareds, cell),
        Target::SharedAt { base, len, .. } => has_array(shareds, base, len),
    }
}

fn is_scalar_if_any(locals: &[Var], into: Option<u16>) -> bool
    ensures { IsTrue result ↔ IsScalarIfAny locals.now into }
{
    match into {
        None => true,
        Some(cell) => has_scalar(locals, cell),
    }
}

pub(crate) fn does_write_whole(kind: &Kind, shareds: &[Var], locals: &[Var]) -> bool
    ensures { IsTrue result ↔ WritesWhole shareds.now locals.now kind.now }
{
    match kind {
        Kind::Set(target, _) => is_whole_target(target, shareds, locals),
        Kind::Zero { base, len } => has_array(locals, *base, *len),
        Kind::Call { into, .. } => is_scalar_if_any(locals, *into),
        Kind::Recv(_, into) => has_scalar(locals, *into),
        _ => true,
    }
}
