ghost use Rattle.std.specs.Prelude.{◌≡◌, IfOk};
ghost use Rattle.ppd_model.specs.Fits.{found_of as found_of_piece};
ghost use Rattle.ppd_model.specs.Pieces.{piece_of};

use ppd_ast::{Memory, Nums, Seq, SyncKind};
use ppd_model::{Found, Piece};
use std::alloc::Global;

/// The values on a copy. `Memory` is want of memory.
pub fn copied(alloc: Global, values: &[i64]) -> Result<Nums, Memory>
    ensures { IfOk result (λ copy. copy ≡ values.now) }
{
    Ok(Seq::from_vec(Vec::from_slice(alloc, values)?))
}

/// A piece as it is compared. `Memory` is want of memory.
pub fn found_of(alloc: Global, piece: Piece) -> Result<Found, Memory>
    ensures { IfOk result (λ found. found ≡ found_of_piece (piece_of piece.entry)) }
{
    Ok(match piece {
        Piece::Unit(unit, _) => Found::Unit(unit),
        Piece::Sync(SyncKind::Send, object, _, value) => {
            Found::Sync(SyncKind::Send, object, value)
        }
        Piece::Sync(kind, object, _, _) => Found::Sync(kind, object, 0),
        Piece::Nested(_, block, _) => Found::Nested(block),
        Piece::Unfinished(_, block) => Found::Nested(block),
        Piece::Postlog(values) => Found::Postlog(copied(alloc, values)?),
        Piece::End(status, _) => Found::End(status),
    })
}
