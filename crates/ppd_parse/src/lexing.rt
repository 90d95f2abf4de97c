ghost use Rattle.std.specs.Prelude.{◌≡◌, ◌<◌, ◌≤◌, ◌+◌, ◌^◌, length, fold, IfOk, IfErr, IsErrOf};
ghost use Rattle.ppd_parse.specs.Tokens.{after_byte, place_of, IsTokens, IsRefused, error_of};
ghost use Rattle.ppd_parse.specs.Formed.{AreFormed};

use crate::scan::{Fault, Piece, front};
use crate::token::{LexError, Token, TokenKind};
use ppd_ast::Place;
use ppd_ast::limits::MOST_SOURCE_BYTES;
use std::alloc::Global;

// The place after a byte.
fn after_byte(place: Place, b: u8) -> Place
    requires { place.line + place.column < 2 ^ 31 }
    ensures { result ≡ after_byte place b }
{
    if b == b'\n' {
        Place {
            line: place.line + 1,
            column: 1,
        }
    } else {
        Place {
            line: place.line,
            column: place.column + 1,
        }
    }
}

// The place after some bytes.
fn after(place: Place, bytes: &[u8]) -> Place
    requires sum { place.line + place.column + length bytes.now < 2 ^ 31 }
    requires column { 1 ≤ place.column }
    ensures { result ≡ fold after_byte place bytes.now }
{
    let mut place = place;
    for b in bytes {
        place = after_byte(place, *b);
    }
    place
}

fn error_at(fault: Fault, place: Place) -> LexError
    ensures { result ≡ error_of fault place }
{
    match fault {
        Fault::BadByte => LexError::BadByte(place),
        Fault::BadNumber => LexError::BadNumber(place),
        Fault::OpenComment => LexError::OpenComment(place),
        Fault::LongName => LexError::LongName(place),
    }
}

/// The tokens of a source, or the first fault in it. A source has at most 262,144 bytes.
///
/// The tokens come in source order without white space and comments; the last, and no other, is
/// `End`, just after the last byte. Offsets count bytes from 0; lines and columns count from 1, the
/// columns in bytes, and byte 10 ends a line. Of marks, names and numbers the longest is taken.
///
/// `TooLong`, at 1:1, is answered before every other fault, and no memory is taken for it; `BadByte`,
/// `BadNumber`, `OpenComment` and `LongName` where they stand first in the source; `Memory` is want of memory.
pub fn lex(alloc: Global, bytes: &[u8]) -> Result<Vec<Token>, LexError>
    ensures tokens { IfOk result (λ tokens. IsTokens bytes.now tokens.items) }
    ensures formed { IfOk result (λ tokens. AreFormed (length bytes.now) tokens.items) }
    ensures fault { IfErr result (λ error. IsRefused bytes.now error) }
    ensures long { 2 ^ 18 < length bytes.now → IsErrOf result (LexError.TooLong (place_of bytes.now 0)) }
{
    let mut place = Place { line: 1, column: 1 };
    if bytes.len() > MOST_SOURCE_BYTES {
        return Err(LexError::TooLong(place));
    }
    let mut tokens = Vec::new(alloc);
    let mut at = 0;
    while at < bytes.len() {
        match front(alloc, &bytes[at..])? {
            Piece::Gap(n) => {
                place = after(place, &bytes[at..at + n]);
                at += n;
            }
            Piece::Read(n, kind) => {
                tokens.push(Token {
                    kind,
                    from: at as u32,
                    to: (at + n) as u32,
                    place,
                })?;
                place = after(place, &bytes[at..at + n]);
                at += n;
            }
            Piece::Bad(fault) => return Err(error_at(fault, place)),
        }
    }
    tokens.push(Token {
        kind: TokenKind::End,
        from: at as u32,
        to: at as u32,
        place,
    })?;
    Ok(tokens)
}
