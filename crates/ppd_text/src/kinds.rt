// What a statement is, in a word and the name of what it is about.
ghost use Rattle.std.specs.Prelude.{◌≡◌, ◌++◌, OnOk};
ghost use Rattle.ppd_text.specs.Kinds.{kind_text};

use crate::names::{chan_name, function_name, sem_name};
use crate::text::put;
use ppd_ast::{Kind, Memory, Program};

/// Appends a word and a name.
pub fn put_named(text: &mut Vec<u8>, word: &[u8], name: &[u8]) -> Result<(), Memory>
    ensures { OnOk result (text.new.items ≡ text.old.items ++ (word.now ++ name.now)) }
{
    put(text, word)?;
    put(text, name)
}

/// Appends what a statement of this kind is: a word, and the name of the function, semaphore or channel where it
/// uses one.
pub fn put_kind(text: &mut Vec<u8>, program: &Program, kind: &Kind) -> Result<(), Memory>
    ensures { OnOk result (text.new.items ≡ text.old.items ++ kind_text program.now kind.now) }
{
    match kind {
        Kind::Set(_, _) => put(text, b"set"),
        Kind::Zero { .. } => put(text, b"zero"),
        Kind::If(_, _, _) | Kind::While(_, _) => put(text, b"test"),
        Kind::Call { function, .. } => {
            put_named(text, b"call ", function_name(program, *function))
        }
        Kind::Return(_) => put(text, b"return"),
        Kind::P(sem) => put_named(text, b"P ", sem_name(program, *sem)),
        Kind::V(sem) => put_named(text, b"V ", sem_name(program, *sem)),
        Kind::Send(chan, _) => put_named(text, b"send ", chan_name(program, *chan)),
        Kind::Recv(chan, _) => put_named(text, b"recv ", chan_name(program, *chan)),
        Kind::Print(_) => put(text, b"print"),
        Kind::Assert(_) => put(text, b"assert"),
        Kind::End => put(text, b"end"),
    }
}
