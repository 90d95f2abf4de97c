ghost use Rattle.std.specs.Prelude.{◌≡◌, ◌<◌, drop, get_or};
ghost use Rattle.ppd_ast.specs.declared.status.Status.TheVariants.{Ended};
ghost use Rattle.ppd_model.specs.Pieces.{finish, piece_of};

use ppd_ast::Status;
use ppd_index::IntervalLog;
use ppd_model::Piece;
use std::marker::Model;

/// The pieces of an interval's log that are left.
#[derive(Drop)]
pub struct Pieces<'a> {
    log: &'a IntervalLog<'a>,
    next: usize,
}

impl<'a> Model for Pieces<'a> {
    ghost use Rattle.std.specs.Prelude.{ℕ, List, drop};
    ghost use Rattle.ppd_model.specs.Pieces.{Piece as PieceOf};

    ghost Value = { List (ℕ × PieceOf) };

    ghost view = { λ s. drop s.next s.log.now.pieces };
}

impl<'a> Pieces<'a> {
    /// All pieces of a log.
    pub(crate) fn new(log: &'a IntervalLog<'a>) -> Pieces<'a>
        ensures { result ≡ log.now.pieces }
    {
        Pieces { log, next: 0 }
    }

    /// The next piece with the number of its entry. Past the last one it is an end that fits nothing.
    pub fn next(&self) -> (u32, Piece<'a>)
        ensures { (result.0, piece_of result.1) ≡ get_or self.now 0 (0, finish Ended 0) }
    {
        if self.next < self.log.pieces() {
            (self.log.entry(self.next), self.log.piece(self.next))
        } else {
            (0, Piece::End(Status::Ended, 0))
        }
    }

    /// Goes past the next piece, if there is one.
    pub(crate) fn pass(&mut self)
        ensures { self.new ≡ drop 1 self.old }
    {
        if self.next < self.log.pieces() {
            self.next += 1;
        }
    }
}
