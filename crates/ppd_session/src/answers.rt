// The answer to each question.
ghost use Rattle.std.specs.Prelude.{◌≡◌, ◌++◌, None, OnErr, OnOk, IfErr, codes, if◌then◌else◌, length, nat_lt};
ghost use Rattle.ppd_flow_past.specs.Pasts.{IsPast};
ghost use Rattle.ppd_session.specs.Keeping.{AreAsked, AreAskedInPart};
ghost use Rattle.ppd_session.specs.Sessions.{IsSession, IsWhy, blocks_of, known_by, state_of};
ghost use Rattle.ppd_session.specs.declared.question.Question.TheVariants.{Blocks};
ghost use Rattle.ppd_session.specs.Texts.{answer_text, deps_text, failure};

use crate::blocks::put_intervals;
use crate::deps::put_deps;
use crate::kept::Kept;
use crate::lasts::put_final;
use crate::opening::put_open;
use crate::question::{Opening, Question};
use crate::races::put_races;
use crate::refusing::put_refusal;
use crate::reply::SessionError;
use ppd_ast::Memory;
use ppd_flow_past::Past;
use ppd_model::Race;
use ppd_text::put;
use std::alloc::Global;

fn put_blocks(
    text: &mut Vec<u8>,
    past: &Past,
    races: &[Race],
    process: Option<u8>,
) -> Result<(), Memory>
    requires { IsPast past.now }
    ensures { OnOk result
        (text.new.items ≡ text.old.items ++ answer_text (known_by past.now races.now) (Blocks process)) }
{
    let Some(process) = process else {
        return put(text, b"? process\n");
    };
    put_intervals(text, past.program, past.plan, past.index, process)
}

fn put_statement(
    alloc: Global,
    text: &mut Vec<u8>,
    past: &Past,
    statement: u64,
) -> Result<(), Memory>
    requires { IsPast past.now }
    ensures { OnOk result
        (text.new.items
        ≡ text.old.items
        ++ (if nat_lt statement (length past.now.program.now.stmts) then deps_text past.now.program.now statement
        else codes "? statement\n")) }
{
    if statement >= past.program.stmts.len() as u64 {
        return put(text, b"? statement\n");
    }
    put_deps(alloc, text, past.program, statement as u32)
}

/// Appends the answer to a question about a past with these races, of which these blocks are kept. It fails where a
/// replay fails, or for want of memory.
pub(crate) fn put_answer(
    alloc: Global,
    text: &mut Vec<u8>,
    past: &Past,
    races: &[Race],
    kept: &mut Kept,
    question: Question,
) -> Result<(), SessionError>
    requires { IsSession past.now races.now kept.old }
    ensures text { OnOk result
        (text.new.items ≡ text.old.items ++ answer_text (known_by past.now races.now) question) }
    ensures told { OnOk result (failure (known_by past.now races.now) question ≡ None) }
    ensures error { IfErr result (IsWhy (failure (known_by past.now races.now) question)) }
    ensures kept { OnOk result
        (AreAsked (known_by past.now races.now) (blocks_of (state_of past.now races.now kept.old) question)
        kept.old kept.new) }
    ensures part { OnErr result
        (AreAskedInPart (known_by past.now races.now) (blocks_of (state_of past.now races.now kept.old) question)
        kept.old kept.new) }
{
    match question {
        Question::Nothing | Question::Quit => Ok(()),
        Question::Unknown => put_refusal(text, b"? command\n"),
        Question::Races => {
            put_races(text, past.program, races)?;
            Ok(())
        }
        Question::Final => put_final(alloc, text, past, races, kept),
        Question::Blocks(process) => {
            put_blocks(text, past, races, process)?;
            Ok(())
        }
        Question::Open(process, interval) => {
            let opening = Opening {
                process,
                interval,
                item: None,
            };
            put_open(alloc, text, past, races, kept, opening)
        }
        Question::Why(process, interval, item) => {
            let opening = Opening {
                process,
                interval,
                item: Some(item),
            };
            put_open(alloc, text, past, races, kept, opening)
        }
        Question::Deps(statement) => {
            put_statement(alloc, text, past, statement)?;
            Ok(())
        }
    }
}
