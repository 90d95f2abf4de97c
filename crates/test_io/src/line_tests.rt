use crate::io_tests::source_of;
use ppd_io::{LineError, LineReader, Source, SteadySource};
use std::alloc::Global;

/// The mark of how a call for the next line ends: with a line, at the end, or by an error.
fn mark_of(answer: Result<bool, LineError>) -> u8 {
    match answer {
        Ok(true) => b'|',
        Ok(false) => b'.',
        Err(LineError::Failed) => b'!',
        Err(LineError::LongLine) => b'>',
    }
}

/// What is left of what is told once the next line is read: a line is told after a bar, and the mark of how the lines
/// end is the last byte. None where another line comes, or another end.
fn left<'a, I: Source>(
    reader: &mut LineReader,
    source: &mut I,
    told: &'a [u8],
) -> Option<&'a [u8]> {
    let mark = mark_of(reader.next(source));
    let (first, rest) = told.split_first()?;
    if *first != mark {
        None
    } else if mark == b'|' {
        rest.strip_prefix(reader.line())
    } else if rest.is_empty() {
        Some(rest)
    } else {
        None
    }
}

/// Whether the lines of a source up to its end or an error are told so.
fn are_lines<I: Source>(reader: &mut LineReader, source: &mut I, told: &[u8]) -> bool {
    let mut told = told;
    // No test has more lines.
    for _ in 0..100 {
        match left(reader, source, told) {
            Some([]) => return true,
            Some(rest) => told = rest,
            None => return false,
        }
    }
    false
}

/// Whether a line of so many bytes comes first, if any is said, and the others are told so.
fn follow<I: Source>(alloc: Global, source: &mut I, first: Option<usize>, told: &[u8]) -> bool {
    let Ok(mut reader) = LineReader::new(alloc) else {
        return false;
    };
    if let Some(len) = first {
        if mark_of(reader.next(source)) != b'|' || reader.line().len() != len {
            return false;
        }
    }
    are_lines(&mut reader, source, told)
}

/// Whether the lines of bytes that come in chunks, by a source that fails at these calls, are told so.
fn are_told(alloc: Global, bytes: &[u8], chunk: usize, fails: &[u32], told: &[u8]) -> bool {
    match source_of(alloc, bytes, chunk, fails) {
        Some(mut source) => follow(alloc, &mut source, None, told),
        None => false,
    }
}

/// Bytes, and how they are told in any chunks.
const LINES: [(&str, &str); 6] = [
    ("", "."),
    ("\n", "|."),
    ("\n\nab\n", "|||ab."),
    ("final\nopen a 0", "|final|open a 0."),
    ("final\nopen a 0\n", "|final|open a 0."),
    ("a\tb\r\n c ", "|a\tb\r| c ."),
];

fn come_in_chunks(alloc: Global, bytes: &str, told: &str) -> bool {
    let (bytes, told) = (bytes.as_bytes(), told.as_bytes());
    are_told(alloc, bytes, 1, &[], told)
        && are_told(alloc, bytes, 3, &[], told)
        && are_told(alloc, bytes, 4096, &[], told)
}

/// Bytes, the greatest chunk, the calls that fail, and what is told.
type Failing = (&'static str, usize, &'static [u32], &'static str);

// Each read in turn fails, and nothing is read once a line is there; at the end a last line without a newline is given,
// and nothing is read after it.
const FAILING: [Failing; 16] = [
    ("ab\ncd\n", 1, &[0], "!"),
    ("ab\ncd\n", 1, &[1], "!"),
    ("ab\ncd\n", 1, &[2], "!"),
    ("ab\ncd\n", 1, &[3], "|ab!"),
    ("ab\ncd\n", 1, &[4], "|ab!"),
    ("ab\ncd\n", 1, &[5], "|ab!"),
    ("ab\ncd\n", 1, &[6], "|ab|cd!"),
    ("ab\ncd\n", 1, &[7], "|ab|cd."),
    ("ab\ncd\n", 3, &[0], "!"),
    ("ab\ncd\n", 3, &[1], "|ab!"),
    ("ab\ncd\n", 3, &[2], "|ab|cd!"),
    ("ab\ncd\n", 3, &[3], "|ab|cd."),
    ("ab\ncd\n", 4096, &[0], "!"),
    ("ab\ncd\n", 4096, &[1], "|ab|cd!"),
    ("ab\ncd\n", 4096, &[2], "|ab|cd."),
    ("ab\ncd", 4096, &[2, 3, 4], "|ab|cd."),
];

#[test]
fn lines_come_in_chunks_up_to_a_failure(rt: HostRuntime) {
    for (bytes, told) in &LINES {
        assert!(rt; come_in_chunks(rt.alloc(), bytes, told), "{told}");
    }
    for (bytes, chunk, fails, told) in &FAILING {
        assert!(rt;
            are_told(rt.alloc(), bytes.as_bytes(), *chunk, fails, told.as_bytes()),
            "{told}"
        );
    }
}

/// So many bytes, and then these.
fn long_bytes(alloc: Global, count: usize, rest: &str) -> Option<Vec<u8>> {
    let mut bytes = vec![in alloc; b'x'; count].ok()?;
    bytes.extend_from_slice(rest.as_bytes()).ok()?;
    Some(bytes)
}

/// How many bytes come before which others, the length of the first line, if there is one, and what is told after it.
type Long = (usize, &'static str, Option<usize>, &'static str);

const LONG: [Long; 4] = [
    (4096, "", Some(4096), "."),
    (4096, "\nab", Some(4096), "|ab."),
    (4097, "", None, ">"),
    (4097, "\n", None, ">"),
];

fn is_long_told(alloc: Global, chunk: usize, (count, rest, first, told): &Long) -> bool {
    match long_bytes(alloc, *count, rest) {
        Some(bytes) => {
            let mut source = SteadySource::new(bytes, chunk.max(1));
            follow(alloc, &mut source, *first, told.as_bytes())
        }
        None => false,
    }
}

#[test]
fn a_line_has_at_most_4096_bytes(rt: HostRuntime) {
    for row in &LONG {
        assert!(rt; is_long_told(rt.alloc(), 1, row));
        assert!(rt; is_long_told(rt.alloc(), 4096, row));
        assert!(rt; is_long_told(rt.alloc(), 5000, row));
    }
}
