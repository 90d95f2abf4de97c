// What stands at the front of some bytes.
ghost use Rattle.std.specs.Prelude.{◌≡◌, ◌<◌, ◌+◌, ◌^◌, length, IfOk};
ghost use Rattle.ppd_parse.specs.Front.{front, read_word, read_number, read_mark, close_from};
ghost use Rattle.std.specs.Option.{option_map_or};
ghost use Rattle.ppd_parse.specs.declared.scan.Fault.TheVariants.{OpenComment};
ghost use Rattle.ppd_parse.specs.declared.scan.Piece.TheVariants.{Gap, Bad};

use crate::text::{close_from, is_letter, is_space, keyword, line_len, mark, name_len, number_of};
use crate::token::TokenKind;
use ppd_ast::limits::MOST_NAME_BYTES;
use ppd_ast::{Bytes, is_digit};
use std::alloc::{AllocError, Global};

/// What is wrong at a byte.
#[derive(Clone, Copy)]
pub enum Fault {
    BadByte,
    BadNumber,
    OpenComment,
    LongName,
}

/// What stands at the front of some bytes, with its length in bytes.
#[derive(Drop)]
pub enum Piece {
    /// White space or a comment.
    Gap(usize),
    /// A token.
    Read(usize, TokenKind),
    /// No token.
    Bad(Fault),
}

// Letters, digits and `_` that begin with no digit.
fn read_word(alloc: Global, text: &[u8]) -> Result<Piece, AllocError>
    ensures { IfOk result (λ found. found ≡ read_word text.now) }
{
    if text.len() > MOST_NAME_BYTES {
        return Ok(Piece::Bad(Fault::LongName));
    }
    match keyword(text) {
        Some(kind) => Ok(Piece::Read(text.len(), TokenKind::Word(kind))),
        None => {
            let name = Bytes::from_vec(Vec::from_slice(alloc, text)?);
            Ok(Piece::Read(text.len(), TokenKind::Name(name)))
        }
    }
}

// Letters, digits and `_` that begin with a digit.
fn read_number(text: &[u8]) -> Piece
    ensures { result ≡ read_number text.now }
{
    match number_of(text) {
        Some(value) => Piece::Read(text.len(), TokenKind::Number(value as i64)),
        None => Piece::Bad(Fault::BadNumber),
    }
}

// A block comment, by what follows its `/*`.
fn read_block(rest: &[u8]) -> Piece
    requires { 2 + length rest.now < 2 ^ 63 }
    ensures { result ≡ option_map_or Gap (close_from 2 rest.now) (Bad OpenComment) }
{
    match close_from(2, rest) {
        Some(n) => Piece::Gap(n),
        None => Piece::Bad(Fault::OpenComment),
    }
}

// The longest mark that begins with this byte.
fn read_mark(first: u8, rest: &[u8]) -> Piece
    ensures { result ≡ read_mark first rest.now }
{
    if let Some(second) = rest.first() {
        if let Some(kind) = mark(&[first, *second]) {
            return Piece::Read(2, TokenKind::Mark(kind));
        }
    }
    match mark(&[first]) {
        Some(kind) => Piece::Read(1, TokenKind::Mark(kind)),
        None => Piece::Bad(Fault::BadByte),
    }
}

/// What stands at the front. No byte is no token.
pub fn front(alloc: Global, bytes: &[u8]) -> Result<Piece, AllocError>
    ensures { IfOk result (λ found. found ≡ front bytes.now) }
{
    let Some((first, rest)) = bytes.split_first() else {
        return Ok(Piece::Bad(Fault::BadByte));
    };
    let b = *first;
    if is_space(b) {
        return Ok(Piece::Gap(1));
    }
    if is_letter(b) {
        return read_word(alloc, &bytes[..name_len(bytes)]);
    }
    if is_digit(b) {
        return Ok(read_number(&bytes[..name_len(bytes)]));
    }
    if bytes.starts_with(b"//") {
        return Ok(Piece::Gap(line_len(bytes)));
    }
    if bytes.starts_with(b"/*") {
        return Ok(read_block(&bytes[2..]));
    }
    Ok(read_mark(b, rest))
}
