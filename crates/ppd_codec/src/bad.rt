use ppd_ast::Memory;
use ppd_check::SourceError;
use std::fmt;
use thiserror::Error;

/// The field of a recording that has no lawful value.
#[derive(Clone, Copy, Drop)]
pub enum Field {
    Budget,
    Leaf,
    Loops,
    Source,
    Processes,
    Tag,
    Kind,
    Number,
    Value,
    Cells,
    Status,
    Version,
}

/// Why bytes are no recording: the first field, in their order, that is not whole or not lawful. A number is an
/// offset in bytes, from 0, mostly that of the field.
#[derive(Clone, Copy, Drop, Error)]
pub enum BadBytes {
    /// The first four bytes are not `PPDR`.
    #[error("these bytes are no recording")]
    Magic(u32),
    /// The version is neither 1 nor 2.
    #[error("this version is not known")]
    Version(u32),
    /// The bytes end before this field does.
    #[error("the recording ends before this field does")]
    Short(u32),
    /// The field has no lawful value. `Version` is at 4: it is not the one that the source asks for.
    #[error("this field has no lawful value")]
    Range(u32, Field),
    /// A byte follows the last entry.
    #[error("bytes follow the last entry")]
    Trailing(u32),
    /// The source is not accepted: its first fault, which is never want of memory.
    #[error(transparent)]
    Source(SourceError),
    /// There are more than 268,435,456 bytes; tested first.
    #[error("the recording is too long")]
    TooLong,
    /// Want of memory.
    #[error("want of memory")]
    Memory,
}

impl From<Memory> for BadBytes {
    ghost use Rattle.std.specs.Prelude.{◌≡◌};
    ghost use Rattle.ppd_codec.specs.declared.bad.BadBytes.TheVariants as bad;

    ghost from_gives = { λ _ e. e ≡ bad.Memory };

    fn from(_memory: Memory) -> BadBytes {
        BadBytes::Memory
    }
}

impl fmt::Debug for BadBytes {
    fn fmt<W: fmt::Write>(&self, f: &mut fmt::Formatter<W>) -> fmt::Result {
        fmt::Display::fmt(self, f)
    }
}
