ghost use Rattle.std.specs.Prelude.{◌≡◌, ◌<◌, length, slice_get, Some};
ghost use Rattle.ppd_model.specs.Pieces.{piece_of};
ghost use Rattle.ppd_index.specs.Indexes.{entry_of, piece_in};
ghost use Rattle.ppd_index.specs.Tables.{number_of, piece_at as marked_piece, piece_there, values_at as values_of_entry};

use crate::row::{Mark, Row};
use ppd_model::{Entry, Piece};
use std::marker::Model;

/// The log of one interval, which lends parts of its process's log: its block, the values of its prelog, its
/// depth, and its pieces. An interval inside it is seen by its number, block and postlog alone.
#[derive(Drop)]
pub struct IntervalLog<'a> {
    pub(crate) entries: &'a [Entry],
    pub(crate) row: &'a Row,
}

impl<'a> Model for IntervalLog<'a> {
    ghost use Rattle.ppd_model.specs.IntervalLogs.{IntervalLog as LogOfInterval};
    ghost use Rattle.ppd_index.specs.Tables.{log_of};

    ghost Value = { LogOfInterval };

    ghost view = { λ s. log_of s.entries.now s.row.now };
}

fn values_at(entries: &[Entry], n: u32) -> &[i64]
    ensures { result.now ≡ values_of_entry entries.now n }
{
    match entries.get(n as usize) {
        Some(Entry::Prelog { values, .. }) => values.as_slice(),
        Some(Entry::Unit { values, .. }) => values.as_slice(),
        Some(Entry::Postlog { values, .. }) => values.as_slice(),
        _ => &[],
    }
}

/// The piece that an own entry is.
fn own_piece(entries: &[Entry], n: u32) -> Piece<'_>
    ensures { piece_of result ≡ piece_there (slice_get entries.now n) }
{
    match entries.get(n as usize) {
        Some(Entry::Unit { unit, values }) => Piece::Unit(*unit, values.as_slice()),
        Some(
            Entry::Sync {
                kind,
                object,
                number,
                value,
                ..
            },
        ) => Piece::Sync(*kind, *object, *number, *value),
        Some(Entry::End { status, rest, .. }) => Piece::End(*status, *rest),
        Some(Entry::Prelog { values, .. }) | Some(Entry::Postlog { values, .. }) => {
            Piece::Postlog(values.as_slice())
        }
        None => Piece::Postlog(&[]),
    }
}

fn piece_at<'a>(entries: &'a [Entry], mark: Mark) -> Piece<'a>
    ensures { piece_of result ≡ (marked_piece entries.now mark).1 }
{
    match mark {
        Mark::Own(n) => own_piece(entries, n),
        Mark::Left {
            interval,
            block,
            last,
            ..
        } => Piece::Nested(interval, block, values_at(entries, last)),
        Mark::Open {
            interval,
            block,
            ..
        } => Piece::Unfinished(interval, block),
    }
}

fn entry_at(mark: Mark) -> u32
    ensures { result ≡ number_of mark }
{
    match mark {
        Mark::Own(n) => n,
        Mark::Left { first, .. } => first,
        Mark::Open { first, .. } => first,
    }
}

impl<'a> IntervalLog<'a> {
    /// The interval's block.
    pub fn block(&self) -> u16
        ensures { result ≡ self.now.block }
    {
        self.row.block
    }

    /// The values of its prelog.
    pub fn values(&self) -> &'a [i64]
        ensures { result.now ≡ self.now.values }
    {
        values_at(self.entries, self.row.first)
    }

    /// How many intervals of functions are among it and those round it.
    pub fn depth(&self) -> u8
        ensures { result ≡ self.now.depth }
    {
        self.row.depth
    }

    /// How many pieces it has.
    pub fn pieces(&self) -> usize
        ensures { result ≡ length self.now.pieces }
    {
        self.row.marks.len()
    }

    /// Piece `n`, from 0.
    pub fn piece(&self, n: usize) -> Piece<'a>
        requires { n < length self.now.pieces }
        ensures { piece_in self.now n ≡ Some (piece_of result) }
    {
        piece_at(self.entries, self.row.marks.as_slice()[n])
    }

    /// The number of piece `n` in the process's log: that of its entry, and of an interval inside that of its
    /// prelog.
    pub fn entry(&self, n: usize) -> u32
        requires { n < length self.now.pieces }
        ensures { entry_of self.now n ≡ Some result }
    {
        entry_at(self.row.marks.as_slice()[n])
    }
}
