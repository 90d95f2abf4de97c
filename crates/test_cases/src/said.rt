// What the lines of a part of a case say.

use crate::content::{first_word, is_content, number};
use crate::fault::Fault;
use std::alloc::Global;

/// Where a line stands.
#[derive(Clone, Copy)]
pub(crate) enum Part {
    /// Among the texts before the first case.
    Texts,
    /// Before the first call of a case.
    Before,
    /// Under a call.
    Under,
}

/// Whether content may stand under a line of this word.
fn is_head(key: &str) -> bool {
    matches!(key, "text" | "file" | "input" | "output" | "stored")
}

/// Whether a line of this word may stand before the first call of a case.
fn is_before(key: &str) -> bool {
    matches!(key, "file" | "shelf-fails" | "each" | "wrong")
}

/// Words of lines that may stand under a call: what the call is given, and what it must come to.
const UNDER: [&str; 16] = [
    "input",
    "chunk",
    "input-fails",
    "waits",
    "holds",
    "room",
    "output-fails",
    "budget",
    "leaf",
    "loops",
    "status",
    "output",
    "taken",
    "length",
    "stored",
    "refused",
];

/// Whether a line of this word may stand under a call.
fn is_under(key: &str) -> bool {
    UNDER.contains(&key)
}

/// Whether a line of this word, which is no content, may stand there.
fn may_stand(key: &str, part: Part) -> bool {
    match part {
        Part::Texts => key == "text",
        Part::Before => is_before(key),
        Part::Under => is_under(key),
    }
}

/// The first line that may not stand where it does, if there is one.
pub(crate) fn stray_line(lines: &str, part: Part) -> Option<&str> {
    let mut is_inside = false;
    for line in lines.lines() {
        let (key, _) = first_word(line);
        if is_content(key) {
            if !is_inside {
                return Some(line);
            }
        } else if key == "" || key == "#" || may_stand(key, part) {
            is_inside = is_head(key);
        } else {
            return Some(line);
        }
    }
    None
}

/// What stands behind this word in the first line that begins with it.
pub(crate) fn said<'a>(part: &'a str, key: &str) -> Option<&'a str> {
    for line in part.lines() {
        let (word, rest) = first_word(line);
        if word == key {
            return Some(rest);
        }
    }
    None
}

/// The number that stands behind this word, or this one where no line begins with it.
pub(crate) fn number_said(part: &str, key: &str, otherwise: u32) -> Result<u32, Fault> {
    match said(part, key) {
        Some(rest) => number(rest),
        None => Ok(otherwise),
    }
}

/// The numbers that stand behind this word; none where no line begins with it.
pub(crate) fn numbers_said(alloc: Global, part: &str, key: &str) -> Result<Vec<u32>, Fault> {
    let mut found = Vec::new(alloc);
    for word in said(part, key).unwrap_or("").split_whitespace() {
        found.push(number(word)?)?;
    }
    Ok(found)
}

/// Numbers below 256, with blanks between them.
pub(crate) fn schedule_of(alloc: Global, text: &str) -> Result<Vec<u8>, Fault> {
    let mut found = Vec::new(alloc);
    for word in text.split_whitespace() {
        found.push(word.parse::<u8>().map_err(|_| Fault::Line)?)?;
    }
    Ok(found)
}
