ghost use Rattle.std.specs.Prelude.{◌≡◌, ◌++◌, OnOk, codes, decimal};
ghost use Rattle.std.specs.Fmt.{signed_decimal};
ghost use Rattle.ppd_text.specs.Texts.{place_text};

use itoa::Buffer;
use ppd_ast::{Memory, Place};

/// Appends bytes. `Memory` is want of memory, here and below; what the text then holds is not said.
pub fn put(text: &mut Vec<u8>, bytes: &[u8]) -> Result<(), Memory>
    ensures { OnOk result (text.new.items ≡ text.old.items ++ bytes.now) }
{
    text.extend_from_slice(bytes)?;
    Ok(())
}

/// Appends a number in decimal.
pub fn put_number(text: &mut Vec<u8>, number: u32) -> Result<(), Memory>
    ensures { OnOk result (text.new.items ≡ text.old.items ++ decimal number) }
{
    let mut buffer = Buffer::new();
    put(text, buffer.format(number).as_bytes())
}

/// Appends a count in decimal.
pub fn put_count(text: &mut Vec<u8>, count: usize) -> Result<(), Memory>
    ensures { OnOk result (text.new.items ≡ text.old.items ++ decimal count) }
{
    let mut buffer = Buffer::new();
    put(text, buffer.format(count).as_bytes())
}

/// Appends a word, a number in decimal and a space, with which a line begins.
pub(crate) fn put_head(text: &mut Vec<u8>, word: &[u8], number: usize) -> Result<(), Memory>
    ensures { OnOk result (text.new.items ≡ text.old.items ++ (word.now ++ decimal number ++ codes " ")) }
{
    put(text, word)?;
    put_count(text, number)?;
    put(text, b" ")
}

/// Appends a value in decimal, with `-` before one below 0.
pub fn put_value(text: &mut Vec<u8>, value: i64) -> Result<(), Memory>
    ensures { OnOk result (text.new.items ≡ text.old.items ++ signed_decimal value) }
{
    let mut buffer = Buffer::new();
    put(text, buffer.format(value).as_bytes())
}

/// Appends `=` and a value.
pub(crate) fn put_equal(text: &mut Vec<u8>, value: i64) -> Result<(), Memory>
    ensures { OnOk result (text.new.items ≡ text.old.items ++ (codes "=" ++ signed_decimal value)) }
{
    put(text, b"=")?;
    put_value(text, value)
}

/// Appends a place: its line, `:`, and its column, both from 1.
pub fn put_place(text: &mut Vec<u8>, place: Place) -> Result<(), Memory>
    ensures { OnOk result (text.new.items ≡ text.old.items ++ place_text place) }
{
    put_number(text, place.line)?;
    put(text, b":")?;
    put_number(text, place.column)
}

/// Appends the number and the place of a statement, with which its line and those of its events begin.
pub(crate) fn put_stmt_head(text: &mut Vec<u8>, number: u32, place: Place) -> Result<(), Memory>
    ensures { OnOk result
        (text.new.items
        ≡ text.old.items ++ (codes "stmt " ++ decimal number ++ codes " " ++ place_text place ++ codes " ")) }
{
    put_head(text, b"stmt ", number as usize)?;
    put_place(text, place)?;
    put(text, b" ")
}
