ghost use Rattle.std.specs.Prelude.{◌≡◌, ◌+◌, ◌<◌, ◌^◌, IfOk, ◌+ℤ◌, ◌-ℤ◌, ◌*ℤ◌, neg_ℤ, pos};
ghost use Rattle.std.specs.Ordering.{int_eq};
ghost use Rattle.ppd_sem.specs.Asked.{paused};
ghost use Rattle.ppd_sem.specs.Ask.{truth as truth_of, checked, calc as calc_of, element as element_of};

use crate::asking::Pause;
use ppd_ast::{Op, Trap};

fn sum(x: i64, y: i64) -> Result<i64, Trap>
    ensures { result ≡ checked (x +ℤ y) }
{
    x.checked_add(y).ok_or(Trap::Overflow)
}

fn difference(x: i64, y: i64) -> Result<i64, Trap>
    ensures { result ≡ checked (x -ℤ y) }
{
    x.checked_sub(y).ok_or(Trap::Overflow)
}

fn product(x: i64, y: i64) -> Result<i64, Trap>
    ensures { result ≡ checked (x *ℤ y) }
{
    x.checked_mul(y).ok_or(Trap::Overflow)
}

pub(crate) fn negated(x: i64) -> Result<i64, Pause>
    ensures { result ≡ paused (checked (neg_ℤ x)) }
{
    x.checked_neg().ok_or(Pause::Traps(Trap::Overflow))
}

pub(crate) fn element(base: u16, len: u16, at: i64) -> Result<u16, Pause>
    requires { base + len < 2 ^ 16 }
    ensures value { result ≡ paused (element_of base len at) }
    ensures inside { IfOk result (λ cell. cell < base + len) }
{
    if at >= 0 && at < len as i64 {
        Ok(base + at as u16)
    } else {
        Err(Pause::Traps(Trap::Index))
    }
}

/// The value of an operator, or its trap as a pause.
pub(crate) fn calc(op: Op, x: i64, y: i64) -> Result<i64, Pause>
    ensures { result ≡ paused (calc_of op x y) }
{
    result_of(op, x, y).map_err(Pause::Traps)
}

fn result_of(op: Op, x: i64, y: i64) -> Result<i64, Trap>
    ensures { result ≡ calc_of op x y }
{
    match op {
        Op::Mul => product(x, y),
        Op::Div if y == 0 => Err(Trap::Zero),
        Op::Div => x.checked_div(y).ok_or(Trap::Overflow),
        Op::Rem if y == 0 => Err(Trap::Zero),
        Op::Rem => x.checked_rem(y).ok_or(Trap::Overflow),
        Op::Add => sum(x, y),
        Op::Sub => difference(x, y),
        Op::Lt => Ok(i64::from(x < y)),
        Op::Le => Ok(i64::from(x <= y)),
        Op::Gt => Ok(i64::from(x > y)),
        Op::Ge => Ok(i64::from(x >= y)),
        Op::Eq => Ok(i64::from(x == y)),
        Op::Ne => Ok(i64::from(x != y)),
    }
}

pub(crate) fn is_zero(x: i64) -> bool
    ensures { result ≡ int_eq x (pos 0) }
{
    x == 0
}

pub(crate) fn truth(answer: bool) -> i64
    ensures { result ≡ truth_of answer }
{
    if answer { 1 } else { 0 }
}
