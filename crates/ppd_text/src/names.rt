// The names of a program's parts.
ghost use Rattle.std.specs.Prelude.{◌≡◌, ◌++◌, OnOk, codes};
ghost use Rattle.std.specs.List.{flat_map};
ghost use Rattle.ppd_text.specs.Names.{at_number, names_text};
ghost use Rattle.ppd_ast.specs.Lookups.{body_numbered};

use crate::text::put;
use ppd_ast::{Memory, Program, Var};

/// The name of a body, empty where there is none of this number.
pub fn body_name(program: &Program, body: usize) -> &[u8]
    ensures { result.now ≡ (body_numbered program.now body).name }
{
    match program.bodies.get(body) {
        Some(body) => body.name.as_slice(),
        None => &[],
    }
}

pub(crate) fn function_name(program: &Program, function: u16) -> &[u8]
    ensures { result.now ≡ (body_numbered program.now function).name }
{
    body_name(program, function as usize)
}

/// The name of a semaphore, empty where there is none of this number.
pub fn sem_name(program: &Program, sem: u8) -> &[u8]
    ensures { result.now ≡ at_number (λ s. s.name) program.now.sems sem }
{
    match program.sems.get(sem as usize) {
        Some(sem) => sem.name.as_slice(),
        None => &[],
    }
}

/// The name of a channel, empty where there is none of this number.
pub fn chan_name(program: &Program, chan: u8) -> &[u8]
    ensures { result.now ≡ at_number (λ c. c.name) program.now.chans chan }
{
    match program.chans.get(chan as usize) {
        Some(chan) => chan.name.as_slice(),
        None => &[],
    }
}

/// The name of the variable with this number, from 0, and none past the list.
pub fn var_name(vars: &[Var], var: u16) -> &[u8]
    ensures { result.now ≡ at_number (λ x. x.name) vars.now var }
{
    match vars.get(var as usize) {
        Some(var) => var.name.as_slice(),
        None => &[],
    }
}

// Appends a variable's name after a space.
fn put_name(text: &mut Vec<u8>, vars: &[Var], var: u16) -> Result<(), Memory>
    ensures { OnOk result (text.new.items ≡ text.old.items ++ (codes " " ++ at_number (λ x. x.name) vars.now var)) }
{
    put(text, b" ")?;
    put(text, var_name(vars, var))
}

fn put_each(text: &mut Vec<u8>, vars: &[Var], numbers: &[u16]) -> Result<(), Memory>
    ensures { OnOk result
        (text.new.items
        ≡ text.old.items ++ flat_map (λ w. codes " " ++ at_number (λ x. x.name) vars.now w) numbers.now) }
{
    for number in numbers {
        put_name(text, vars, *number)?;
    }
    Ok(())
}

// Appends the names of these variables, each after a space, or `-` for none.
pub(crate) fn put_names(text: &mut Vec<u8>, vars: &[Var], numbers: &[u16]) -> Result<(), Memory>
    ensures { OnOk result (text.new.items ≡ text.old.items ++ names_text vars.now numbers.now) }
{
    if numbers.is_empty() {
        return put(text, b" -");
    }
    put_each(text, vars, numbers)
}
