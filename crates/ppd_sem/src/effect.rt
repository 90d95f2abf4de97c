ghost use Rattle.std.specs.Prelude.{◌≡◌, ◌<◌, ◌^◌, length, IfOk, IfErr, Ok, Err};
ghost use Rattle.std.specs.List.{All};
ghost use Rattle.ppd_ast.specs.Table.{AreChildrenBelow, EachAt};
ghost use Rattle.ppd_ast.specs.declared.program.Kind.TheVariants.{Set};
ghost use Rattle.ppd_sem.specs.Asked.{outcome};
ghost use Rattle.ppd_sem.specs.Deed.{ask_all, ask_deed};
ghost use Rattle.ppd_sem.specs.Described.{valued as valued_of};
ghost use Rattle.ppd_sem.specs.Effects.{HasRange, deed_if, given, given_if};
ghost use Rattle.ppd_sem.specs.Runs.{AreUses, IsTargetWithin, IsUse};
ghost use Rattle.ppd_sem.specs.Stored.{ask_target, by_value as by_value_of, stored as stored_of, without_value as without_value_of};

use crate::asking::{Pause, ask, place};
use crate::eval::is_zero;
use ppd_ast::{Expr, Kind, Target, Trap};

/// What a statement does once all its values are there. Lists of statements and arguments are
/// left in the statement.
#[derive(Clone, Copy)]
pub enum Effect {
    SetLocal(u16, i64),
    SetShared(u16, i64),
    Clear(u16, u16),
    /// The test of an `If`, and whether it holds.
    Branch(bool),
    /// The test of a `While` that holds.
    Turn,
    /// The test of a `While` that does not hold.
    Leave,
    /// A call, with the cell that receives its value.
    Invoke(u16, Option<u16>),
    Back(Option<i64>),
    Take(u8),
    Give(u8),
    Send(u8, i64),
    Receive(u8, u16),
    Print(i64),
    /// An assertion that holds.
    Pass,
    Finish,
}

/// Evaluates the arguments, left to right.
fn check_all(exprs: &[Expr], arguments: &[u32], cells: &[i64], answers: &[i64]) -> Result<(), Pause>
    requires children { EachAt AreChildrenBelow exprs.now }
    requires limit { length cells.now < 2 ^ 16 }
    requires uses { All (IsUse exprs.now (length cells.now)) arguments.now }
    ensures { outcome (ask_all exprs.now arguments.now cells.now answers.now)
        ≡ given_if (given exprs.now arguments.now cells.now answers.now) result }
{
    match arguments {
        [] => Ok(()),
        [first, rest @ ..] => {
            let (_, left) = ask(exprs, *first, cells, answers)?;
            check_all(exprs, rest, cells, left)
        }
    }
}

/// The cell of a target, with the answers that are left after its index, which is tested.
pub(crate) fn target_cell<'a>(
    exprs: &[Expr],
    target: Target,
    cells: &[i64],
    answers: &'a [i64],
) -> Result<(u16, &'a [i64]), Pause>
    requires children { EachAt AreChildrenBelow exprs.now }
    requires limit { length cells.now < 2 ^ 16 }
    requires target { IsTargetWithin exprs.now (length cells.now) target }
    ensures ok { IfOk result (λ r. ask_target exprs.now target cells.now answers.now ≡ Ok (r.0, r.1.now)) }
    ensures err { IfErr result (λ p. ask_target exprs.now target cells.now answers.now ≡ Err p) }
{
    match target {
        Target::Local(cell) | Target::Shared(cell) => Ok((cell, answers)),
        Target::LocalAt { base, len, at } | Target::SharedAt { base, len, at } => {
            place(exprs, base, len, at, cells, answers)
        }
    }
}

/// The assignment of a value to a target whose cell is this.
fn stored(target: Target, cell: u16, value: i64) -> Effect
    ensures { result ≡ stored_of target cell value }
{
    match target {
        Target::Local(_) | Target::LocalAt { .. } => Effect::SetLocal(cell, value),
        Target::Shared(_) | Target::SharedAt { .. } => Effect::SetShared(cell, value),
    }
}

/// What an assignment stores, and where.
fn assigned(
    exprs: &[Expr],
    target: Target,
    value: u32,
    cells: &[i64],
    answers: &[i64],
) -> Result<Effect, Pause>
    requires children { EachAt AreChildrenBelow exprs.now }
    requires limit { length cells.now < 2 ^ 16 }
    requires target { IsTargetWithin exprs.now (length cells.now) target }
    requires value { IsUse exprs.now (length cells.now) value }
    ensures deed { outcome (ask_deed exprs.now (Set target value) cells.now answers.now)
        ≡ deed_if exprs.now (Set target value) cells.now answers.now result }
    ensures range { IfOk result HasRange }
{
    let (cell, rest) = target_cell(exprs, target, cells, answers)?;
    let (value, _) = ask(exprs, value, cells, rest)?;
    Ok(stored(target, cell, value))
}

/// The one expression that a statement evaluates which is no assignment and no call.
pub(crate) fn valued(kind: &Kind) -> Option<u32>
    ensures { result ≡ valued_of kind.now }
{
    match kind {
        Kind::If(value, ..) | Kind::While(value, _) => Some(*value),
        Kind::Return(value) => *value,
        Kind::Send(_, value) | Kind::Print(value) | Kind::Assert(value) => Some(*value),
        _ => None,
    }
}

/// What such a statement does by the value, or that it traps.
fn by_value(kind: &Kind, value: i64) -> Result<Effect, Pause>
    ensures { result ≡ by_value_of kind.now value }
{
    match kind {
        Kind::If(..) => Ok(Effect::Branch(!is_zero(value))),
        Kind::While(..) if is_zero(value) => Ok(Effect::Leave),
        Kind::While(..) => Ok(Effect::Turn),
        Kind::Send(chan, _) => Ok(Effect::Send(*chan, value)),
        Kind::Print(_) => Ok(Effect::Print(value)),
        Kind::Assert(_) if is_zero(value) => Err(Pause::Traps(Trap::Assert)),
        Kind::Assert(_) => Ok(Effect::Pass),
        _ => Ok(Effect::Back(Some(value))),
    }
}

/// What a statement does that evaluates nothing.
fn without_value(kind: &Kind) -> Effect
    ensures { result ≡ without_value_of kind.now }
{
    match kind {
        Kind::Zero { base, len } => Effect::Clear(*base, *len),
        Kind::P(sem) => Effect::Take(*sem),
        Kind::V(sem) => Effect::Give(*sem),
        Kind::Recv(chan, into) => Effect::Receive(*chan, *into),
        Kind::Return(_) => Effect::Back(None),
        _ => Effect::Finish,
    }
}

/// What a statement of this kind does, or why a value is not there yet.
pub(crate) fn effect_of(
    exprs: &[Expr],
    kind: &Kind,
    cells: &[i64],
    answers: &[i64],
) -> Result<Effect, Pause>
    requires children { EachAt AreChildrenBelow exprs.now }
    requires limit { length cells.now < 2 ^ 16 }
    requires uses { AreUses exprs.now (length cells.now) kind.now }
    ensures deed { outcome (ask_deed exprs.now kind.now cells.now answers.now)
        ≡ deed_if exprs.now kind.now cells.now answers.now result }
    ensures range { IfOk result HasRange }
{
    match kind {
        Kind::Set(target, value) => assigned(exprs, *target, *value, cells, answers),
        Kind::Call {
            function,
            args,
            into,
        } => {
            check_all(exprs, args.as_slice(), cells, answers)?;
            Ok(Effect::Invoke(*function, *into))
        }
        _ => match valued(kind) {
            Some(value) => {
                let (value, _) = ask(exprs, value, cells, answers)?;
                by_value(kind, value)
            }
            None => Ok(without_value(kind)),
        },
    }
}
