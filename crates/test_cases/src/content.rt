// The bytes that the lines of a block stand for.

use crate::fault::Fault;
use std::alloc::Global;

/// A number in decimal.
pub(crate) fn number(word: &str) -> Result<u32, Fault> {
    word.parse::<u32>().map_err(|_| Fault::Line)
}

/// The first word of a text, and what stands behind the blank after it.
pub(crate) fn first_word(text: &str) -> (&str, &str) {
    text.split_once(' ').unwrap_or((text, ""))
}

fn hex_digit(byte: u8) -> Result<u8, Fault> {
    match byte {
        b'0'..=b'9' => Ok(byte - b'0'),
        b'a'..=b'f' => Ok(byte - b'a' + 10),
        _ => Err(Fault::Line),
    }
}

/// Appends bytes of two hexadecimal digits each, with blanks between them as one likes.
fn add_hex(bytes: &mut Vec<u8>, text: &str) -> Result<(), Fault> {
    let mut high = None;
    for byte in text.bytes() {
        if byte == b' ' {
            continue;
        }
        let digit = hex_digit(byte)?;
        match high {
            None => high = Some(digit),
            Some(first) => {
                bytes.push(digit.wrapping_add(16u8.wrapping_mul(first)))?;
                high = None;
            }
        }
    }
    if high.is_some() {
        Err(Fault::Line)
    } else {
        Ok(())
    }
}

/// Appends a text, and what stands behind it.
fn add_text(bytes: &mut Vec<u8>, text: &str, behind: &[u8]) -> Result<(), Fault> {
    bytes.extend_from_slice(text.as_bytes())?;
    bytes.extend_from_slice(behind)?;
    Ok(())
}

/// Appends a text so many times, each with what stands behind it.
fn add_times(bytes: &mut Vec<u8>, rest: &str, behind: &[u8]) -> Result<(), Fault> {
    let (count, text) = first_word(rest);
    for _ in 0..number(count)? {
        add_text(bytes, text, behind)?;
    }
    Ok(())
}

/// Appends so many lines, in each of which its number, from 1, stands for `@`.
fn add_numbered(alloc: Global, bytes: &mut Vec<u8>, rest: &str) -> Result<(), Fault> {
    let (count, text) = first_word(rest);
    let (front, back) = text.split_once('@').unwrap_or((text, ""));
    for row in 1..=number(count)? {
        let line = format!(in alloc; "{front}{row}{back}\n")?;
        bytes.extend_from_slice(line.as_bytes())?;
    }
    Ok(())
}

/// Sets the bytes from a place on, which have to be there.
fn set(bytes: &mut [u8], place: usize, new: &[u8]) -> Result<(), Fault> {
    for (offset, byte) in new.iter().enumerate() {
        match bytes.get_mut(place.saturating_add(offset)) {
            Some(old) => *old = *byte,
            None => return Err(Fault::Line),
        }
    }
    Ok(())
}

/// Changes bytes that are there: a place, and the bytes from there on.
fn change(alloc: Global, bytes: &mut Vec<u8>, rest: &str) -> Result<(), Fault> {
    let (place, text) = first_word(rest);
    let mut new = Vec::new(alloc);
    add_hex(&mut new, text)?;
    set(bytes, number(place)? as usize, &new)
}

/// Keeps so many of the first bytes.
fn cut(bytes: &mut Vec<u8>, rest: &str) -> Result<(), Fault> {
    bytes.truncate(number(rest)? as usize);
    Ok(())
}

/// The words with which a line begins that stands for bytes.
const CONTENT: [&str; 9] = [
    "|", ">", "=", "hex", "times", "lines", "numbered", "at", "cut",
];

/// Whether a line that begins with this word stands for bytes.
pub(crate) fn is_content(mark: &str) -> bool {
    CONTENT.contains(&mark)
}

/// Appends what a line stands for, or changes what there is so far.
fn add_plain(alloc: Global, bytes: &mut Vec<u8>, mark: &str, rest: &str) -> Result<(), Fault> {
    match mark {
        "|" => add_text(bytes, rest, b"\n"),
        ">" => add_text(bytes, rest, b""),
        "hex" => add_hex(bytes, rest),
        "times" => add_times(bytes, rest, b""),
        "lines" => add_times(bytes, rest, b"\n"),
        "numbered" => add_numbered(alloc, bytes, rest),
        "at" => change(alloc, bytes, rest),
        "cut" => cut(bytes, rest),
        _ => Err(Fault::Line),
    }
}

/// Appends the text of this name, which stands before the first case.
fn add_named(alloc: Global, texts: &str, bytes: &mut Vec<u8>, name: &str) -> Result<(), Fault> {
    let mut is_inside = false;
    let mut is_there = false;
    for line in texts.lines() {
        let (mark, rest) = first_word(line);
        if is_inside && is_content(mark) {
            add_plain(alloc, bytes, mark, rest)?;
        }
        if mark == "text" {
            is_inside = rest == name;
            is_there = is_there || is_inside;
        }
    }
    if is_there { Ok(()) } else { Err(Fault::Line) }
}

/// Appends what a line stands for, also where it names a text.
fn add(
    alloc: Global,
    texts: &str,
    bytes: &mut Vec<u8>,
    mark: &str,
    rest: &str,
) -> Result<(), Fault> {
    if mark == "=" {
        add_named(alloc, texts, bytes, rest)
    } else {
        add_plain(alloc, bytes, mark, rest)
    }
}

/// The bytes of the lines that stand under this one.
pub(crate) fn block(alloc: Global, texts: &str, part: &str, head: &str) -> Result<Vec<u8>, Fault> {
    let mut bytes = Vec::new(alloc);
    let mut is_inside = false;
    for line in part.lines() {
        let (mark, rest) = first_word(line);
        if !is_content(mark) {
            is_inside = line == head;
        } else if is_inside {
            add(alloc, texts, &mut bytes, mark, rest)?;
        }
    }
    Ok(bytes)
}
