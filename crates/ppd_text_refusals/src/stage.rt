// The first fault of a source, as a part of a line.
ghost use Rattle.std.specs.Prelude.{◌≡◌, ◌≢◌, ◌++◌, OnOk};
ghost use Rattle.ppd_check.specs.declared.error.SourceError.TheVariants as source;
ghost use Rattle.ppd_text.specs.Texts.{place_text};
ghost use Rattle.ppd_text_refusals.specs.Stages.{stage_text};

use ppd_ast::{Memory, Place};
use ppd_check::{CheckError, SourceError};
use ppd_parse::{LexError, SyntaxError};
use ppd_text::{put, put_place};

/// Appends a stage, a number and a name, and a place.
fn put_fault(text: &mut Vec<u8>, what: &[u8], place: Place) -> Result<(), Memory>
    ensures { OnOk result (text.new.items ≡ text.old.items ++ (what.now ++ place_text place)) }
{
    put(text, what)?;
    put_place(text, place)
}

fn put_lex(text: &mut Vec<u8>, error: LexError) -> Result<(), Memory>
    ensures { OnOk result (text.new.items ≡ text.old.items ++ stage_text (source.Lex error)) }
{
    match error {
        LexError::BadByte(place) => put_fault(text, b"lex 1 BadByte ", place),
        LexError::BadNumber(place) => put_fault(text, b"lex 2 BadNumber ", place),
        LexError::OpenComment(place) => put_fault(text, b"lex 3 OpenComment ", place),
        LexError::TooLong(place) => put_fault(text, b"lex 4 TooLong ", place),
        LexError::LongName(place) => put_fault(text, b"lex 5 LongName ", place),
        LexError::Memory => Err(Memory),
    }
}

fn put_syntax(text: &mut Vec<u8>, error: SyntaxError) -> Result<(), Memory>
    ensures { OnOk result (text.new.items ≡ text.old.items ++ stage_text (source.Syntax error)) }
{
    match error {
        SyntaxError::Unexpected(place) => put_fault(text, b"syntax 1 Unexpected ", place),
        SyntaxError::Deep(place) => put_fault(text, b"syntax 2 Deep ", place),
        SyntaxError::Wide(place) => put_fault(text, b"syntax 3 Wide ", place),
        SyntaxError::Memory => Err(Memory),
    }
}

fn put_check(text: &mut Vec<u8>, error: CheckError) -> Result<(), Memory>
    ensures { OnOk result (text.new.items ≡ text.old.items ++ stage_text (source.Check error)) }
{
    match error {
        CheckError::Twice(place) => put_fault(text, b"check 1 Twice ", place),
        CheckError::Unknown(place) => put_fault(text, b"check 2 Unknown ", place),
        CheckError::WrongKind(place) => put_fault(text, b"check 3 WrongKind ", place),
        CheckError::Arity(place) => put_fault(text, b"check 4 Arity ", place),
        CheckError::ReturnPlace(place) => put_fault(text, b"check 5 ReturnPlace ", place),
        CheckError::VoidValue(place) => put_fault(text, b"check 6 VoidValue ", place),
        CheckError::NoProcess(place) => put_fault(text, b"check 7 NoProcess ", place),
        CheckError::TooMany(place, _) => put_fault(text, b"check 8 TooMany ", place),
        CheckError::BadSize(place) => put_fault(text, b"check 9 BadSize ", place),
        CheckError::Memory => Err(Memory),
    }
}

/// Appends the stage, the number, the name and the place of a source's first fault. The error is want of memory, and
/// is also what comes where that is the fault.
pub fn put_stage(text: &mut Vec<u8>, error: SourceError) -> Result<(), Memory>
    ensures text { OnOk result (text.new.items ≡ text.old.items ++ stage_text error) }
    ensures fault { OnOk result (error ≢ source.Memory) }
{
    match error {
        SourceError::Lex(error) => put_lex(text, error),
        SourceError::Syntax(error) => put_syntax(text, error),
        SourceError::Check(error) => put_check(text, error),
        SourceError::Memory => Err(Memory),
    }
}
