// The line that says why a source is refused.
ghost use Rattle.std.specs.Prelude.{◌≡◌, ◌≢◌, ◌++◌, OnOk, IfOk, decimal};
ghost use Rattle.ppd_ast.specs.declared.program.Place.{Place};
ghost use Rattle.ppd_check.specs.declared.error.CheckError.TheVariants as check;
ghost use Rattle.ppd_check.specs.declared.error.SourceError.TheVariants as source;
ghost use Rattle.ppd_text_refusals.specs.Sources.{limit_part, refused};

use crate::stage::put_stage;
use ppd_ast::limits::{
    MOST_CHANNELS, MOST_FUNCTIONS, MOST_LOCAL_CELLS, MOST_PROCESSES, MOST_SEMAPHORES,
    MOST_SHARED_CELLS, MOST_STATEMENTS,
};
use ppd_ast::{Memory, Place};
use ppd_check::{CheckError, SourceError};
use ppd_check_names::Limit;
use ppd_text::{put, put_count};
use std::alloc::Global;

/// A limit's word after a space, and how many there may be at most.
fn limit_row(limit: Limit) -> (&'static [u8], usize)
    ensures { (place : Place) → result.0.now ++ decimal result.1
        ≡ limit_part (source.Check (check.TooMany place limit)) }
{
    match limit {
        Limit::Statements => (b" statements ", MOST_STATEMENTS),
        Limit::Functions => (b" functions ", MOST_FUNCTIONS),
        Limit::Processes => (b" processes ", MOST_PROCESSES),
        Limit::Semaphores => (b" semaphores ", MOST_SEMAPHORES),
        Limit::Channels => (b" channels ", MOST_CHANNELS),
        Limit::Shared => (b" shared ", MOST_SHARED_CELLS),
        Limit::Locals => (b" locals ", MOST_LOCAL_CELLS),
    }
}

/// Appends a limit's word and number.
fn put_limit(line: &mut Vec<u8>, place: Place, limit: Limit) -> Result<(), Memory>
    ensures { OnOk result
        (line.new.items ≡ line.old.items ++ limit_part (source.Check (check.TooMany place limit))) }
{
    let (word, most) = limit_row(limit);
    put(line, word)?;
    put_count(line, most)?;
    Ok(())
}

/// Appends what follows the place of the fault.
fn put_limit_part(line: &mut Vec<u8>, error: SourceError) -> Result<(), Memory>
    ensures { OnOk result (line.new.items ≡ line.old.items ++ limit_part error) }
{
    match error {
        SourceError::Check(CheckError::TooMany(place, limit)) => put_limit(line, place, limit),
        _ => Ok(()),
    }
}

/// The line that says why a source is refused.
pub fn refusal_line(alloc: Global, error: SourceError) -> Result<Vec<u8>, Memory>
    ensures line { IfOk result (λ line. line.items ≡ refused error) }
    ensures fault { OnOk result (error ≢ source.Memory) }
{
    let mut line = Vec::new(alloc);
    put(&mut line, b"refused ")?;
    put_stage(&mut line, error)?;
    put_limit_part(&mut line, error)?;
    put(&mut line, b"\n")?;
    Ok(line)
}
