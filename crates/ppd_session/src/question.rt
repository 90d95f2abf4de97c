// What a command line asks.
ghost use Rattle.std.specs.Prelude.{◌≡◌, ℕ, List, [], ◌∷◌, drop, map};
ghost use Rattle.std.specs.Option.{option_map_or, option_zip};
ghost use Rattle.ppd_ast.specs.Valid.{IsValid};
ghost use Rattle.ppd_session.specs.Questions.{asked as asked_of};
ghost use Rattle.ppd_session.specs.Questions.{is_quit, process_named as process_by_name, words_of};
ghost use Rattle.ppd_session.specs.declared.question.Question.TheVariants as ask;

use ppd_ast::{Body, Program};
use ppd_text::number_in;

/// What a line asks. A process is none where no process has the name.
#[derive(Clone, Copy)]
pub(crate) enum Question {
    /// The line has no word.
    Nothing,
    /// The line is none of the commands.
    Unknown,
    Races,
    Final,
    Blocks(Option<u8>),
    Open(Option<u8>, u64),
    Why(Option<u8>, u64, u64),
    Deps(u64),
    Quit,
}

/// What a line asks of an interval of a process: all its items, or one of them. A process is none where no process has
/// the name.
#[derive(Clone, Copy)]
pub(crate) struct Opening {
    pub(crate) process: Option<u8>,
    pub(crate) interval: u64,
    pub(crate) item: Option<u64>,
}

/// The bodies of the processes of a valid program.
fn process_bodies(program: &Program) -> &[Body]
    requires { IsValid program.now }
    ensures { result.now ≡ drop program.now.functions program.now.bodies }
{
    &program.bodies.as_slice()[program.functions as usize..]
}

/// The process of this name.
pub fn process_named(program: &Program, name: &[u8]) -> Option<u8>
    requires { IsValid program.now }
    ensures { result ≡ process_by_name program.now name.now }
{
    let bodies = process_bodies(program);
    for number in 0..bodies.len() {
        if bodies[number].name.as_slice() == name {
            return Some(number as u8);
        }
    }
    None
}

fn alone(_program: &Program, word: &[u8]) -> Question
    ensures { result ≡ asked_of _program.now (word.now ∷ []) }
{
    if word == b"races".as_slice() {
        Question::Races
    } else if word == b"final".as_slice() {
        Question::Final
    } else if word == b"quit".as_slice() {
        Question::Quit
    } else {
        Question::Unknown
    }
}

fn deps_of(statement: Option<u64>) -> Question
    ensures { result ≡ option_map_or ask.Deps statement ask.Unknown }
{
    match statement {
        Some(statement) => Question::Deps(statement),
        None => Question::Unknown,
    }
}

fn with_one(program: &Program, word: &[u8], a: &[u8]) -> Question
    requires { IsValid program.now }
    ensures { result ≡ asked_of program.now (word.now ∷ a.now ∷ []) }
{
    if word == b"blocks".as_slice() {
        Question::Blocks(process_named(program, a))
    } else if word == b"deps".as_slice() {
        deps_of(number_in(a))
    } else {
        Question::Unknown
    }
}

fn open_of(process: Option<u8>, interval: Option<u64>) -> Question
    ensures { result ≡ option_map_or (ask.Open process) interval ask.Unknown }
{
    match interval {
        Some(interval) => Question::Open(process, interval),
        None => Question::Unknown,
    }
}

fn with_two(program: &Program, word: &[u8], a: &[u8], b: &[u8]) -> Question
    requires { IsValid program.now }
    ensures { result ≡ asked_of program.now (word.now ∷ a.now ∷ b.now ∷ []) }
{
    if word == b"open".as_slice() {
        open_of(process_named(program, a), number_in(b))
    } else {
        Question::Unknown
    }
}

fn why_of(process: Option<u8>, interval: Option<u64>, item: Option<u64>) -> Question
    ensures { result
        ≡ option_map_or (λ n. ask.Why process n.0 n.1) (option_zip interval item) ask.Unknown }
{
    match interval {
        Some(interval) => match item {
            Some(item) => Question::Why(process, interval, item),
            None => Question::Unknown,
        },
        None => Question::Unknown,
    }
}

fn with_three(program: &Program, word: &[u8], a: &[u8], b: &[u8], c: &[u8]) -> Question
    requires { IsValid program.now }
    ensures { result ≡ asked_of program.now (word.now ∷ a.now ∷ b.now ∷ c.now ∷ []) }
{
    if word == b"why".as_slice() {
        why_of(process_named(program, a), number_in(b), number_in(c))
    } else {
        Question::Unknown
    }
}

/// What these words ask of a program's run.
pub(crate) fn asked(program: &Program, words: &[&[u8]]) -> Question
    requires { IsValid program.now }
    ensures { result ≡ asked_of program.now (map (λ w. w.now) words.now) }
{
    match words {
        [] => Question::Nothing,
        [word] => alone(program, word),
        [word, a] => with_one(program, word, a),
        [word, a, b] => with_two(program, word, a, b),
        [word, a, b, c] => with_three(program, word, a, b, c),
        _ => Question::Unknown,
    }
}

/// Whether these words end the session.
pub(crate) fn quits(words: &[&[u8]]) -> bool
    ensures { (line : List ℕ) → words_of line ≡ map (λ w. w.now) words.now → result ≡ is_quit line }
{
    match words {
        [word] => *word == b"quit".as_slice(),
        _ => false,
    }
}
