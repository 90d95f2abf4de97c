// What sources are read to, and why they are refused, as text.

use crate::tokens::{told_at, told_error};
use ppd_ast::{Body, Expr, Kind, Op, Program, Stmt, Target, Var};
use ppd_check::{CheckError, Limit, SourceError, read_source};
use ppd_parse::{LexError, SyntaxError};
use std::alloc::{AllocError, Global};
use test_valid::is_valid_program;

/// Appends a part, if there is memory for it.
fn add(text: &mut String, part: Result<String, AllocError>) -> Result<(), AllocError> {
    text.push_str(&part?)?;
    Ok(())
}

/// Numbers with blanks between them.
fn list(alloc: Global, ids: &[u32]) -> Result<String, AllocError> {
    let mut text = String::new(alloc);
    for id in ids {
        if !text.is_empty() {
            text.push_str(" ")?;
        }
        add(&mut text, format!(in alloc; "{id}"))?;
    }
    Ok(text)
}

fn name(alloc: Global, bytes: &[u8]) -> Result<String, AllocError> {
    match std::str::from_utf8(bytes) {
        Ok(text) => text.to_string(alloc),
        Err(_) => format!(in alloc; "?"),
    }
}

fn branches(alloc: Global, test: u32, yes: &[u32], no: &[u32]) -> Result<String, AllocError> {
    let yes = list(alloc, yes)?;
    let no = list(alloc, no)?;
    format!(in alloc; "if {test} [{yes}] [{no}]")
}

fn round(alloc: Global, test: u32, inside: &[u32]) -> Result<String, AllocError> {
    let inside = list(alloc, inside)?;
    format!(in alloc; "while {test} [{inside}]")
}

fn call(
    alloc: Global,
    function: u16,
    args: &[u32],
    into: Option<u16>,
) -> Result<String, AllocError> {
    let args = list(alloc, args)?;
    format!(in alloc; "call {function} ({args}) {into:?}")
}

/// An array's cells with the index.
fn cells(alloc: Global, word: &str, base: u16, len: u16, index: u32) -> Result<String, AllocError> {
    format!(in alloc; "{word} {{ base: {base}, len: {len}, at: {index} }}")
}

fn told_target(alloc: Global, target: &Target) -> Result<String, AllocError> {
    match target {
        Target::Local(cell) => format!(in alloc; "Local({cell})"),
        Target::LocalAt { base, len, at } => cells(alloc, "LocalAt", *base, *len, *at),
        Target::Shared(cell) => format!(in alloc; "Shared({cell})"),
        Target::SharedAt { base, len, at } => cells(alloc, "SharedAt", *base, *len, *at),
    }
}

fn operator(op: &Op) -> &'static str {
    match op {
        Op::Mul => "Mul",
        Op::Div => "Div",
        Op::Rem => "Rem",
        Op::Add => "Add",
        Op::Sub => "Sub",
        Op::Lt => "Lt",
        Op::Le => "Le",
        Op::Gt => "Gt",
        Op::Ge => "Ge",
        Op::Eq => "Eq",
        Op::Ne => "Ne",
    }
}

fn told_expr(alloc: Global, expr: &Expr) -> Result<String, AllocError> {
    match expr {
        Expr::Const(value) => format!(in alloc; "Const({value})"),
        Expr::Local(cell) => format!(in alloc; "Local({cell})"),
        Expr::LocalAt { base, len, at } => cells(alloc, "LocalAt", *base, *len, *at),
        Expr::Shared(cell) => format!(in alloc; "Shared({cell})"),
        Expr::SharedAt { base, len, at } => cells(alloc, "SharedAt", *base, *len, *at),
        Expr::Neg(operand) => format!(in alloc; "Neg({operand})"),
        Expr::Not(operand) => format!(in alloc; "Not({operand})"),
        Expr::Two(op, left, right) => {
            let op = operator(op);
            format!(in alloc; "Two({op}, {left}, {right})")
        }
        Expr::And(left, right) => format!(in alloc; "And({left}, {right})"),
        Expr::Or(left, right) => format!(in alloc; "Or({left}, {right})"),
    }
}

fn set(alloc: Global, target: &Target, value: u32) -> Result<String, AllocError> {
    let target = told_target(alloc, target)?;
    format!(in alloc; "{target} = {value}")
}

fn kind(alloc: Global, kind: &Kind) -> Result<String, AllocError> {
    match kind {
        Kind::Set(target, value) => set(alloc, target, *value),
        Kind::Zero { base, len } => format!(in alloc; "zero {base} {len}"),
        Kind::If(test, yes, no) => branches(alloc, *test, yes.as_slice(), no.as_slice()),
        Kind::While(test, inside) => round(alloc, *test, inside.as_slice()),
        Kind::Call {
            function,
            args,
            into,
        } => call(alloc, *function, args.as_slice(), *into),
        Kind::Return(value) => format!(in alloc; "return {value:?}"),
        Kind::P(sem) => format!(in alloc; "P {sem}"),
        Kind::V(sem) => format!(in alloc; "V {sem}"),
        Kind::Send(chan, value) => format!(in alloc; "send {chan} {value}"),
        Kind::Recv(chan, cell) => format!(in alloc; "recv {chan} {cell}"),
        Kind::Print(value) => format!(in alloc; "print {value}"),
        Kind::Assert(value) => format!(in alloc; "assert {value}"),
        Kind::End => format!(in alloc; "end"),
    }
}

fn stmt(alloc: Global, stmt: &Stmt) -> Result<String, AllocError> {
    let does = kind(alloc, &stmt.kind)?;
    let place = stmt.place;
    match stmt.parent {
        Some(parent) => {
            format!(in alloc;
                "{}:{} of {} in {parent} {does}\n",
                place.line, place.column, stmt.body
            )
        }
        None => format!(in alloc; "{}:{} of {} {does}\n", place.line, place.column, stmt.body),
    }
}

fn var(alloc: Global, var: &Var) -> Result<String, AllocError> {
    let text = name(alloc, var.name.as_slice())?;
    match var.len {
        Some(len) => format!(in alloc; " {text}[{len}]@{}", var.base),
        None => format!(in alloc; " {text}@{}", var.base),
    }
}

fn vars(alloc: Global, list: &[Var]) -> Result<String, AllocError> {
    let mut text = String::new(alloc);
    for item in list {
        add(&mut text, var(alloc, item))?;
    }
    Ok(text)
}

/// A process, or a function with its count of parameters and a star where it gives a value.
fn body(alloc: Global, body: &Body) -> Result<String, AllocError> {
    let text = name(alloc, body.name.as_slice())?;
    let locals = vars(alloc, body.locals.as_slice())?;
    let top = list(alloc, body.top.as_slice())?;
    let sort = if body.process { "process" } else { "function" };
    let value = if body.value { "*" } else { "" };
    format!(in alloc;
        "{sort} {text}({}){value} {} cells{locals} [{top}] {}-{}\n",
        body.params, body.cells, body.first, body.end
    )
}

/// The expressions of a table, one a line.
fn exprs(alloc: Global, program: &Program) -> Result<String, AllocError> {
    let mut text = String::new(alloc);
    for expr in program.exprs.as_slice() {
        add(&mut text, told_expr(alloc, expr))?;
        text.push_str("\n")?;
    }
    Ok(text)
}

/// Its statements.
fn stmts(alloc: Global, program: &Program) -> Result<String, AllocError> {
    let mut text = String::new(alloc);
    for item in program.stmts.as_slice() {
        add(&mut text, stmt(alloc, item))?;
    }
    Ok(text)
}

/// The start values of what is shared.
fn starts(alloc: Global, program: &Program) -> Result<String, AllocError> {
    let mut text = String::new(alloc);
    for start in program.starts.as_slice() {
        add(&mut text, format!(in alloc; " {start}"))?;
    }
    Ok(text)
}

fn object(alloc: Global, word: &str, label: &[u8], number: u32) -> Result<String, AllocError> {
    let label = name(alloc, label)?;
    format!(in alloc; "{word} {label} {number}\n")
}

fn sems(alloc: Global, program: &Program) -> Result<String, AllocError> {
    let mut text = String::new(alloc);
    for sem in program.sems.as_slice() {
        add(
            &mut text,
            object(alloc, "sem", sem.name.as_slice(), sem.start),
        )?;
    }
    Ok(text)
}

fn chans(alloc: Global, program: &Program) -> Result<String, AllocError> {
    let mut text = String::new(alloc);
    for chan in program.chans.as_slice() {
        let capacity = u32::from(chan.capacity);
        add(
            &mut text,
            object(alloc, "chan", chan.name.as_slice(), capacity),
        )?;
    }
    Ok(text)
}

/// What is shared with its start values, and the semaphores and the channels.
fn shared(alloc: Global, program: &Program) -> Result<String, AllocError> {
    let shared = vars(alloc, program.shared.as_slice())?;
    let starts = starts(alloc, program)?;
    format!(in alloc; "shared{shared}\nstarts{starts}\n")
}

/// What is shared, the semaphores and the channels, and how many functions there are.
fn globals(alloc: Global, program: &Program) -> Result<String, AllocError> {
    let shared = shared(alloc, program)?;
    let sems = sems(alloc, program)?;
    let chans = chans(alloc, program)?;
    format!(in alloc; "{shared}{sems}{chans}functions {}\n", program.functions)
}

/// Its bodies, with what is shared before them.
fn bodies(alloc: Global, program: &Program) -> Result<String, AllocError> {
    let mut text = globals(alloc, program)?;
    for item in program.bodies.as_slice() {
        add(&mut text, body(alloc, item))?;
    }
    Ok(text)
}

fn told_limit(limit: Limit) -> &'static str {
    match limit {
        Limit::Statements => "Statements",
        Limit::Functions => "Functions",
        Limit::Processes => "Processes",
        Limit::Semaphores => "Semaphores",
        Limit::Channels => "Channels",
        Limit::Shared => "Shared",
        Limit::Locals => "Locals",
    }
}

fn told_lex(alloc: Global, error: LexError) -> Result<String, AllocError> {
    let told = told_error(alloc, error)?;
    format!(in alloc; "lex {told}")
}

fn told_syntax(alloc: Global, error: SyntaxError) -> Result<String, AllocError> {
    match error {
        SyntaxError::Unexpected(place) => told_at(alloc, "syntax Unexpected", place),
        SyntaxError::Deep(place) => told_at(alloc, "syntax Deep", place),
        SyntaxError::Wide(place) => told_at(alloc, "syntax Wide", place),
        SyntaxError::Memory => format!(in alloc; "inner memory"),
    }
}

fn refusal(alloc: Global, error: CheckError) -> Result<String, AllocError> {
    match error {
        CheckError::Twice(place) => told_at(alloc, "Twice", place),
        CheckError::Unknown(place) => told_at(alloc, "Unknown", place),
        CheckError::WrongKind(place) => told_at(alloc, "WrongKind", place),
        CheckError::Arity(place) => told_at(alloc, "Arity", place),
        CheckError::ReturnPlace(place) => told_at(alloc, "ReturnPlace", place),
        CheckError::VoidValue(place) => told_at(alloc, "VoidValue", place),
        CheckError::NoProcess(place) => told_at(alloc, "NoProcess", place),
        CheckError::TooMany(place, limit) => {
            let told = told_at(alloc, "TooMany", place)?;
            format!(in alloc; "{told} {}", told_limit(limit))
        }
        CheckError::BadSize(place) => told_at(alloc, "BadSize", place),
        CheckError::Memory => format!(in alloc; "inner memory"),
    }
}

/// The word for a program that was read.
fn accepted(alloc: Global, program: &Program) -> Result<String, AllocError> {
    let told = if is_valid_program(program) {
        "accepted"
    } else {
        "not valid"
    };
    told.to_string(alloc)
}

/// The table of a program: its expressions, its statements, and its bodies with what is shared.
fn table(alloc: Global, program: &Program) -> Result<String, AllocError> {
    let exprs = exprs(alloc, program)?;
    let stmts = stmts(alloc, program)?;
    let bodies = bodies(alloc, program)?;
    format!(in alloc; "{exprs}{stmts}{bodies}")
}

fn told_program(alloc: Global, program: &Program, is_table: bool) -> Result<String, AllocError> {
    if is_table {
        table(alloc, program)
    } else {
        accepted(alloc, program)
    }
}

/// What comes of a source: that it is accepted or its table, or the refusal.
pub(crate) fn told_source(
    alloc: Global,
    source: &[u8],
    is_table: bool,
) -> Result<String, AllocError> {
    match read_source(alloc, source) {
        Ok(program) => told_program(alloc, &program, is_table),
        Err(SourceError::Lex(error)) => told_lex(alloc, error),
        Err(SourceError::Syntax(error)) => told_syntax(alloc, error),
        Err(SourceError::Check(error)) => refusal(alloc, error),
        Err(SourceError::Memory) => format!(in alloc; "memory"),
    }
}
