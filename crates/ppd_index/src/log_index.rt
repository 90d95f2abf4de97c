ghost use Rattle.std.specs.Prelude.{◌≡◌, ◌<◌, ◌^◌, length, option_map, slice_get, get_or, []};
ghost use Rattle.std.specs.List.{All};
ghost use Rattle.ppd_index.specs.Indexes.{IsLogOf, interval_of as interval_in, rows_at as rows_in};

use crate::interval::Interval;
use crate::interval_log::IntervalLog;
use crate::row::Row;
use ppd_ast::Seq;
use ppd_model::{Entry, Logs};

/// The intervals of each process of logs, numbered from 0 in the order of their prelogs. It keeps the numbers
/// of entries and no entry.
#[derive(Drop)]
pub struct LogIndex {
    pub(crate) tables: Seq<Seq<Row>>,
    ghost few: { All (λ rows. length rows < 2 ^ 32) tables },
}

fn rows_at(tables: &[Seq<Row>], p: u8) -> &[Row]
    ensures { result.now ≡ rows_in tables.now p }
{
    match tables.get(p as usize) {
        Some(rows) => rows.as_slice(),
        None => &[],
    }
}

fn entries_at(logs: &Logs, p: u8) -> &[Entry]
    ensures { result.now ≡ get_or logs.now.lists p [] }
{
    match logs.lists.get(p as usize) {
        Some(entries) => entries.as_slice(),
        None => &[],
    }
}

fn interval_of(row: &Row) -> Interval
    ensures { result ≡ interval_in row.now }
{
    Interval {
        block: row.block,
        parent: row.parent,
        first: row.first,
        last: row.last.unwrap_or(0),
        closed: row.closed,
        depth: row.depth,
    }
}

impl LogIndex {
    /// How many intervals a process has, and 0 past the processes.
    pub fn count(&self, p: u8) -> u32
        ensures { result ≡ length (rows_in self.now.tables p) }
    {
        rows_at(self.tables.as_slice(), p).len() as u32
    }

    /// Interval `k` of process `p`, and none exactly where `k` is not below the count.
    pub fn interval(&self, p: u8, k: u32) -> Option<Interval>
        ensures { result ≡ option_map interval_in (slice_get (rows_in self.now.tables p) k) }
    {
        match rows_at(self.tables.as_slice(), p).get(k as usize) {
            Some(row) => Some(interval_of(row)),
            None => None,
        }
    }

    /// The log of interval `k` of process `p`, where the index is that of these logs. It lends the entries that
    /// are the interval's own pieces.
    pub fn log<'a>(&'a self, logs: &'a Logs, p: u8, k: u32) -> IntervalLog<'a>
        requires { k < length (rows_in self.now.tables p) }
        ensures { IsLogOf logs.now self.now.tables p k result }
    {
        let row = &rows_at(self.tables.as_slice(), p)[k as usize];
        IntervalLog {
            entries: entries_at(logs, p),
            row,
        }
    }
}
