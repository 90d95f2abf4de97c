// Whether calls come to what their case says.

use crate::asking::{Answer, answer_of, held, shelf_of};
use crate::content::{block, number};
use crate::fault::Fault;
use crate::said::{Part, number_said, said, schedule_of, stray_line};
use std::alloc::Global;
use std::sync::Wait;
use std::thread::Threads;
use test_devices::MemoryShelf;

/// How many cases there were, and how many of them were as they say.
#[derive(Clone, Copy)]
pub(crate) struct Count {
    pub(crate) cases: u64,
    pub(crate) alike: u64,
}

/// Whether the schedule that was taken is the one that is wanted, if one is.
fn is_taken(alloc: Global, under: &str, taken: &[u8]) -> Result<bool, Fault> {
    match said(under, "taken") {
        Some(rest) => Ok(schedule_of(alloc, rest)?.as_slice() == taken),
        None => Ok(true),
    }
}

/// Whether the schedule that was taken has as many numbers as are wanted, if it is said how many.
fn has_length(under: &str, taken: &[u8]) -> Result<bool, Fault> {
    match said(under, "length") {
        Some(rest) => Ok(number(rest)? as usize == taken.len()),
        None => Ok(true),
    }
}

/// Whether the shelf holds what is wanted, under each name that is told.
fn is_stored(
    alloc: Global,
    texts: &str,
    under: &str,
    shelf: &mut MemoryShelf,
) -> Result<bool, Fault> {
    for line in under.lines() {
        if let Some(name) = line.strip_prefix("stored ") {
            let wanted = block(alloc, texts, under, line)?;
            if held(alloc, shelf, name)? != wanted {
                return Ok(false);
            }
        }
    }
    Ok(true)
}

/// Whether an answer is the one that is wanted.
fn is_alike(alloc: Global, texts: &str, under: &str, answer: &Answer) -> Result<bool, Fault> {
    let status = number_said(under, "status", 0)?;
    let text = block(alloc, texts, under, "output")?;
    let refused = said(under, "refused").unwrap_or("");
    Ok(
        u32::from(answer.status) == status
            && answer.text == text
            && answer.refused.as_str() == refused,
    )
}

/// Appends a call and what it came to.
fn tell(alloc: Global, told: &mut String, call: &str, answer: &Answer) -> Result<(), Fault> {
    let text = String::from_utf8_lossy(alloc, &answer.text)?;
    let status = answer.status;
    let refused = answer.refused.as_str();
    let line = format!(in alloc;
        "$ {call}\nstatus {status}\ntaken {:?}\nrefused {refused}\n{text}\n",
        answer.taken
    )?;
    told.push_str(line.as_str())?;
    Ok(())
}

/// Whether a call comes to what stands under it. What differs is told.
fn judge_call<R: Threads + Wait + Sync>(
    rt: &R,
    alloc: Global,
    texts: &str,
    call: &str,
    under: &str,
    shelf: &mut MemoryShelf,
    told: &mut String,
) -> Result<bool, Fault> {
    let answer = answer_of(rt, alloc, texts, call, under, shelf)?;
    let is_well = is_alike(alloc, texts, under, &answer)?
        && is_taken(alloc, under, &answer.taken)?
        && has_length(under, &answer.taken)?
        && is_stored(alloc, texts, under, shelf)?;
    if !is_well {
        tell(alloc, told, call, &answer)?;
    }
    Ok(is_well)
}

/// Stops at a line that may not stand where it does, and tells it.
fn check_lines(told: &mut String, lines: &str, part: Part) -> Result<(), Fault> {
    match stray_line(lines, part) {
        Some(line) => {
            told.push_str("not known: ")?;
            told.push_str(line)?;
            told.push_str("\n")?;
            Err(Fault::Line)
        }
        None => Ok(()),
    }
}

/// Whether all these calls come to what stands under the last of them.
fn judge_calls<R: Threads + Wait + Sync>(
    rt: &R,
    alloc: Global,
    texts: &str,
    calls: &[&str],
    under: &str,
    shelf: &mut MemoryShelf,
    told: &mut String,
) -> Result<bool, Fault> {
    check_lines(told, under, Part::Under)?;
    let mut is_well = true;
    for call in calls {
        is_well = judge_call(rt, alloc, texts, call, under, shelf, told)? && is_well;
    }
    Ok(is_well)
}

/// Whether all calls of a case come to what it says, one after another over one shelf.
fn judge_all<R: Threads + Wait + Sync>(
    rt: &R,
    alloc: Global,
    texts: &str,
    all: &str,
    shelf: &mut MemoryShelf,
    told: &mut String,
) -> Result<bool, Fault> {
    let mut calls: Vec<&str> = Vec::new(alloc);
    let mut is_well = true;
    for piece in all.split("\n$ ") {
        let (call, under) = piece.split_once('\n').unwrap_or((piece, ""));
        calls.push(call)?;
        if under != "" {
            is_well = judge_calls(rt, alloc, texts, &calls, under, shelf, told)? && is_well;
            calls.clear();
        }
    }
    if calls.is_empty() {
        Ok(is_well)
    } else {
        Err(Fault::Line)
    }
}

/// A case's name, what stands before its first call, and its calls.
fn parts_of(case: &str) -> (&str, &str, &str) {
    let (head, calls) = case.split_once("\n$ ").unwrap_or((case, ""));
    let (name, before) = head.split_once('\n').unwrap_or((head, ""));
    (name, before, calls)
}

/// Whether a case comes to what it says, or to something else where it has the line `wrong`.
fn is_well<R: Threads + Wait + Sync>(
    rt: &R,
    alloc: Global,
    texts: &str,
    case: &str,
    told: &mut String,
) -> Result<bool, Fault> {
    let (_, before, calls) = parts_of(case);
    check_lines(told, before, Part::Before)?;
    let mut shelf = shelf_of(alloc, texts, before)?;
    let is_well = judge_all(rt, alloc, texts, calls, &mut shelf, told)?;
    Ok(is_well != said(before, "wrong").is_some())
}

/// Runs a case and counts it. Where it is not well, what differs is told.
fn judge<R: Threads + Wait + Sync>(
    rt: &R,
    alloc: Global,
    texts: &str,
    case: &str,
    count: &mut Count,
    told: &mut String,
) -> Result<(), Fault> {
    let (name, _, _) = parts_of(case);
    let mut difference = format!(in alloc; "differs: {name}\n")?;
    let answer = is_well(rt, alloc, texts, case, &mut difference);
    count.cases = count.cases.saturating_add(1);
    if answer == Ok(true) {
        count.alike = count.alike.saturating_add(1);
    } else {
        told.push_str(difference.as_str())?;
    }
    answer.map(|_| ())
}

/// Runs a case, or one for each word of its line `each`, which stands for `@`.
fn judge_each<R: Threads + Wait + Sync>(
    rt: &R,
    alloc: Global,
    texts: &str,
    case: &str,
    count: &mut Count,
    told: &mut String,
) -> Result<(), Fault> {
    let (_, before, _) = parts_of(case);
    let Some(numbers) = said(before, "each") else {
        return judge(rt, alloc, texts, case, count, told);
    };
    for number in numbers.split_whitespace() {
        let one = case.replace(alloc, "@", number)?;
        judge(rt, alloc, texts, one.as_str(), count, told)?;
    }
    Ok(())
}

/// Runs the cases of a file. What stands before the first case are texts that cases name.
pub(crate) fn judge_file<R: Threads + Wait + Sync>(
    rt: &R,
    alloc: Global,
    text: &str,
    told: &mut String,
) -> Result<Count, Fault> {
    let mut count = Count { cases: 0, alike: 0 };
    let (texts, cases) = text.split_once("\ncase ").unwrap_or((text, ""));
    check_lines(told, texts, Part::Texts)?;
    for case in cases.split("\ncase ") {
        judge_each(rt, alloc, texts, case, &mut count, told)?;
    }
    Ok(count)
}
