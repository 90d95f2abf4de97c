use ppd_io::{
    Failed, FreeGate, Gate, HostShelf, Shelf, ShelfError, Sink, Source, StdSink, StdSource,
    SteadySource, put_all,
};
use std::alloc::Global;
use std::io::{Read, Write};
use std::{fs, io};
use test_devices::{MemoryShelf, MemorySink, MemorySource, SteadyShelf, SteadySink};

/// What a device takes of each piece.
#[derive(Clone, Copy)]
enum Takes {
    Nothing,
    One,
    TheGreaterHalf,
    /// All, but it cannot be flushed.
    Unflushed,
}

/// A writer that keeps what it takes; as a reader it never works.
#[derive(Drop)]
struct Device {
    takes: Takes,
    kept: Vec<u8>,
}

fn count_of(takes: Takes, len: usize) -> Option<usize> {
    match takes {
        Takes::Nothing => None,
        Takes::One => Some(len.min(1)),
        Takes::TheGreaterHalf => Some(len - len / 2),
        Takes::Unflushed => Some(len),
    }
}

impl Read for Device {
    fn read(&mut self, _buf: &mut [u8]) -> io::Result<usize> {
        Err(io::Error::from(io::ErrorKind::BrokenPipe))
    }
}

impl Write for Device {
    fn write(&mut self, buf: &[u8]) -> io::Result<usize> {
        match count_of(self.takes, buf.len()) {
            Some(count) if count <= buf.len() => {
                self.kept.extend_from_slice(&buf[..count])?;
                Ok(count)
            }
            _ => Err(io::Error::from(io::ErrorKind::BrokenPipe)),
        }
    }

    fn flush(&mut self) -> io::Result<()> {
        match self.takes {
            Takes::Unflushed => Err(io::Error::from(io::ErrorKind::BrokenPipe)),
            _ => Ok(()),
        }
    }
}

fn device_of(alloc: Global, takes: Takes) -> Device {
    Device {
        takes,
        kept: Vec::new(alloc),
    }
}

/// Whether a read of three bytes gives this, where "!" stands for `Failed`.
fn is_read<I: Source>(source: &mut I, answer: &str) -> bool {
    let mut into = [0u8; 3];
    match source.read(&mut into) {
        Ok(count) => &into[..count] == answer.as_bytes(),
        Err(Failed) => answer == "!",
    }
}

/// Whether reads give these one after the other.
fn are_read<I: Source>(source: &mut I, answers: &[&str]) -> bool {
    for answer in answers {
        if !is_read(source, answer) {
            return false;
        }
    }
    true
}

/// A source of these bytes that fails at these calls. None where memory is wanting.
pub(crate) fn source_of(
    alloc: Global,
    bytes: &[u8],
    chunk: usize,
    fails: &[u32],
) -> Option<MemorySource> {
    let fails = Vec::from_slice(alloc, fails).ok()?;
    let bytes = Vec::from_slice(alloc, bytes).ok()?;
    Some(MemorySource::new(bytes, chunk.max(1), fails))
}

/// A chunk, the calls that fail, and what the reads give.
const READS: [(usize, &[u32], &[&str]); 3] = [
    (2, &[1], &["ab", "!", "cd", "e", ""]),
    (9, &[0, 3], &["!", "abc", "de", "!", ""]),
    (1, &[], &["a", "b", "c", "d", "e", ""]),
];

fn gives(alloc: Global, chunk: usize, fails: &[u32], answers: &[&str]) -> bool {
    match source_of(alloc, b"abcde", chunk, fails) {
        Some(mut source) => are_read(&mut source, answers),
        None => false,
    }
}

/// Whether a steady source gives chunks.
fn steady_gives(alloc: Global, answers: &[&str]) -> bool {
    match Vec::from_slice(alloc, b"abc") {
        Ok(bytes) => are_read(&mut SteadySource::new(bytes, 2), answers),
        Err(_) => false,
    }
}

// Chunks, and failures at the listed calls; a steady source has none of these; and readers are sources.
#[test]
fn sources_give_chunks_and_fail(rt: HostRuntime) {
    for (chunk, fails, answers) in &READS {
        assert!(rt; gives(rt.alloc(), *chunk, fails, answers));
    }
    assert!(rt; steady_gives(rt.alloc(), &["ab", "c", ""]));
    assert!(rt;
        are_read(
            &mut StdSource::new(device_of(rt.alloc(), Takes::Nothing)),
            &["!", "!"]
        )
    );
    assert!(rt; are_read(&mut StdSource::new(b"xyz".as_slice()), &["xyz", ""]));
}

/// Whether a write takes so many bytes, where 9 stands for `Failed`.
fn is_taken<O: Sink>(sink: &mut O, piece: &str, count: usize) -> bool {
    match sink.write(piece.as_bytes()) {
        Ok(taken) => taken == count,
        Err(Failed) => count == 9,
    }
}

fn are_taken<O: Sink>(sink: &mut O, pieces: &[(&str, usize)]) -> bool {
    for (piece, count) in pieces {
        if !is_taken(sink, piece, *count) {
            return false;
        }
    }
    true
}

/// Whether all these pieces are put.
fn are_put<O: Sink>(sink: &mut O, pieces: &[&str]) -> bool {
    for piece in pieces {
        if put_all(sink, piece.as_bytes()).is_err() {
            return false;
        }
    }
    true
}

/// The room of a sink, the calls that fail, pieces with how many bytes of each are taken, and what is kept in the end.
type Room = (
    usize,
    &'static [u32],
    &'static [(&'static str, usize)],
    &'static str,
);

const ROOMS: [Room; 3] = [
    (
        4,
        &[1],
        &[("ab", 2), ("cd", 9), ("cd", 2), ("ef", 9), ("", 0)],
        "abcd",
    ),
    (3, &[], &[("ab", 2), ("cd", 1), ("d", 9)], "abc"),
    (0, &[0], &[("", 9), ("", 0), ("a", 9)], ""),
];

fn sink_of(alloc: Global, room: usize, fails: &[u32]) -> Option<MemorySink> {
    let fails = Vec::from_slice(alloc, fails).ok()?;
    MemorySink::new(alloc, room, fails).ok()
}

fn keeps(alloc: Global, (room, fails, pieces, kept): &Room) -> bool {
    match sink_of(alloc, *room, fails) {
        Some(mut sink) => are_taken(&mut sink, pieces) && sink.bytes() == kept.as_bytes(),
        None => false,
    }
}

/// Whether a sink with room for three bytes has the first three of four.
fn is_filled(alloc: Global) -> bool {
    match sink_of(alloc, 3, &[]) {
        Some(mut sink) => !are_put(&mut sink, &["abcd"]) && sink.bytes() == b"abc".as_slice(),
        None => false,
    }
}

/// Whether a steady sink keeps the pieces up to the first for which it has no room.
fn steady_keeps(alloc: Global) -> bool {
    match SteadySink::new(alloc, 3) {
        Ok(mut sink) => {
            are_put(&mut sink, &["ab", "cd", "e"]) && sink.bytes() == b"ab".as_slice()
        }
        Err(_) => false,
    }
}

// What fits, and failures at the listed calls.
#[test]
fn sinks_take_what_fits_and_fail(rt: HostRuntime) {
    for room in &ROOMS {
        assert!(rt; keeps(rt.alloc(), room));
    }
    assert!(rt; is_filled(rt.alloc()) && steady_keeps(rt.alloc()));
}

/// What a device takes, pieces, whether all are put, and what the device has in the end.
type Putting = (Takes, &'static [&'static str], bool, &'static str);

// A writer may take less than it is given: what it did not take is given again, and nothing twice.
const PUTS: [Putting; 4] = [
    (Takes::Nothing, &["a"], false, ""),
    (Takes::Unflushed, &["a"], false, "a"),
    (Takes::One, &["abcdefg", "", "h"], true, "abcdefgh"),
    (
        Takes::TheGreaterHalf,
        &["abcdefg", "", "h"],
        true,
        "abcdefgh",
    ),
];

fn has_put(alloc: Global, (takes, pieces, put, kept): &Putting) -> bool {
    let mut device = device_of(alloc, *takes);
    are_put(&mut StdSink::new(&mut device), pieces) == *put
        && device.kept.as_slice() == kept.as_bytes()
}

#[test]
fn writers_are_sinks(rt: HostRuntime) {
    for row in &PUTS {
        assert!(rt; has_put(rt.alloc(), row));
    }
    assert!(rt; is_taken(&mut StdSink::new(io::writer(&rt)), "", 0));
}

/// A call of a shelf: a store of bytes under a name, and whether it succeeds; or a load of at most so many bytes, and
/// what it gives, where "!" stands for `Failed`.
enum Call {
    Store(&'static str, &'static str, bool),
    Load(&'static str, usize, &'static str),
}

fn is_loaded<F: Shelf>(alloc: Global, shelf: &mut F, name: &str, most: usize, want: &str) -> bool {
    match shelf.load(alloc, name, most) {
        Ok(bytes) => bytes.as_slice() == want.as_bytes(),
        Err(ShelfError::Failed) => want == "!",
        Err(ShelfError::Memory) => false,
    }
}

fn is_stored<F: Shelf>(
    alloc: Global,
    shelf: &mut F,
    name: &str,
    bytes: &[u8],
    stored: bool,
) -> bool {
    match shelf.store(alloc, name, bytes) {
        Ok(()) => stored,
        Err(error) => !stored && matches!(error, ShelfError::Failed),
    }
}

/// Whether calls give these one after the other.
fn are_given<F: Shelf>(alloc: Global, shelf: &mut F, calls: &[Call]) -> bool {
    for call in calls {
        let is_given = match call {
            Call::Store(name, bytes, stored) => {
                is_stored(alloc, shelf, name, bytes.as_bytes(), *stored)
            }
            Call::Load(name, most, want) => is_loaded(alloc, shelf, name, *most, want),
        };
        if !is_given {
            return false;
        }
    }
    true
}

/// Which calls of a shelf fail, and what its calls give.
const SHELVES: [(&[u32], &[Call]); 2] = [
    (
        &[3],
        &[
            Call::Store("a", "xyz", true),
            Call::Load("a", 2, "xy"),
            Call::Load("b", 9, "!"),
            Call::Load("a", 9, "!"),
            Call::Load("a", 9, "xyz"),
        ],
    ),
    // a store that fails changes nothing
    (
        &[1],
        &[
            Call::Store("b", "q", true),
            Call::Store("b", "r", false),
            Call::Store("a", "w", true),
            Call::Load("a", 9, "w"),
            Call::Load("b", 9, "q"),
        ],
    ),
];

fn shelf_gives(alloc: Global, fails: &[u32], calls: &[Call]) -> bool {
    match Vec::from_slice(alloc, fails) {
        Ok(fails) => are_given(alloc, &mut MemoryShelf::new(alloc, fails), calls),
        Err(_) => false,
    }
}

/// The same of a shelf on which each name is there.
const STEADY: [Call; 3] = [
    Call::Load("a", 9, ""),
    Call::Store("a", "xyz", true),
    Call::Load("a", 2, "xy"),
];

/// The same of files.
const FILES: [Call; 5] = [
    Call::Load("no-such-folder/file", 9, "!"),
    Call::Load("/dev/null", 9, ""),
    Call::Load("/dev/zero", 2, "\0\0"),
    Call::Store("no-such-folder/file", "a", false),
    Call::Store("/dev/null", "a", true),
];

#[test]
fn shelves_hold_bytes_by_name(rt: HostRuntime) {
    for (fails, calls) in &SHELVES {
        assert!(rt; shelf_gives(rt.alloc(), fails, calls));
    }
    assert!(rt; are_given(rt.alloc(), &mut SteadyShelf::new(rt.alloc()), &STEADY));
    assert!(rt; are_given(rt.alloc(), &mut HostShelf::new(&rt), &FILES));
    FreeGate.pass(0, 0);
}

/// Whether a load of at most so many bytes gives so many.
fn has_length<F: Shelf>(alloc: Global, shelf: &mut F, name: &str, most: usize, len: usize) -> bool {
    match shelf.load(alloc, name, most) {
        Ok(bytes) => bytes.len() == len,
        Err(_) => false,
    }
}

/// Whether so many bytes are stored under a name, and a load that asks for fewer, for as many or for more gives these.
fn holds_long<F: Shelf>(alloc: Global, shelf: &mut F, name: &str, len: usize) -> bool {
    let Ok(bytes) = vec![in alloc; b'x'; len] else {
        return false;
    };
    shelf.store(alloc, name, &bytes).is_ok()
        && has_length(alloc, shelf, name, 262_144, len.min(262_144))
        && has_length(alloc, shelf, name, 262_145, len.min(262_145))
        && has_length(alloc, shelf, name, 262_146, len.min(262_146))
}

// A source of the greatest length is loaded whole, and of a longer one the byte that shows it is longer.
#[test]
fn files_of_the_greatest_source(rt: HostRuntime) {
    for (name, len) in [
        ("ppd_io_longest_source", 262_144),
        ("ppd_io_too_long_source", 262_145),
    ] {
        assert!(rt; holds_long(rt.alloc(), &mut HostShelf::new(&rt), name, len));
        assert!(rt; fs::remove_file(&rt, name).is_ok());
    }
}
