// The words of a command line.
ghost use Rattle.std.specs.Prelude.{◌≡◌, ◌++◌, [], ◌∷◌, IfOk, OnOk, filter, map};
ghost use Rattle.std.specs.List.{slice_split};
ghost use Rattle.ppd_session.specs.Questions.{is_blank as is_blank_byte, is_word as is_word_of, words_of as words_in};

use ppd_ast::Memory;
use std::alloc::{AllocError, Global};

fn is_blank(byte: u8) -> bool
    ensures { result ≡ is_blank_byte byte }
{
    byte == b'\t' || byte == b'\r' || byte == b' '
}

fn is_word(part: &[u8]) -> bool
    ensures { result ≡ is_word_of part.now }
{
    !part.is_empty()
}

/// The parts of a line between blanks, empty ones among them.
fn parts_of(alloc: Global, line: &[u8]) -> Result<Vec<&[u8]>, AllocError>
    ensures { IfOk result (λ parts. map (λ w. w.now) parts.items ≡ slice_split is_blank_byte line.now) }
{
    line.split(|byte| is_blank(*byte)).collect(alloc)
}

/// Appends a part that is a word.
fn push_word<'a>(words: &mut Vec<&'a [u8]>, part: &'a [u8]) -> Result<(), Memory>
    ensures { OnOk result
        (map (λ w. w.now) words.new.items
        ≡ map (λ w. w.now) words.old.items ++ filter is_word_of (part.now ∷ [])) }
{
    if !is_word(part) {
        return Ok(());
    }
    words.push(part)?;
    Ok(())
}

/// The words among these parts.
fn words_among<'a>(alloc: Global, parts: &[&'a [u8]]) -> Result<Vec<&'a [u8]>, Memory>
    ensures { IfOk result (λ words. map (λ w. w.now) words.items ≡ filter is_word_of (map (λ w. w.now) parts.now)) }
{
    let mut words = Vec::new(alloc);
    for part in parts {
        push_word(&mut words, *part)?;
    }
    Ok(words)
}

/// The words of a line, between tabulators, spaces and the bytes 13.
pub(crate) fn words_of(alloc: Global, line: &[u8]) -> Result<Vec<&[u8]>, Memory>
    ensures { IfOk result (λ words. map (λ w. w.now) words.items ≡ words_in line.now) }
{
    let parts = parts_of(alloc, line)?;
    words_among(alloc, parts.as_slice())
}
