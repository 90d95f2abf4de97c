ghost use Rattle.std.specs.Prelude.{◌≡◌};
ghost use Rattle.ppd_model.specs.Fits.{fits as fits_of, found_of as found_of_piece, same_trap};
ghost use Rattle.ppd_model.specs.Pieces.{piece_of};
ghost use Rattle.ppd_model.specs.declared.wanted.Wanted.TheVariants as wanted;

use ppd_ast::{SyncKind, Trap};
use ppd_model::{Piece, Wanted, same_kind};

/// Whether the traps are one.
pub(crate) fn is_same_trap(a: Trap, b: Trap) -> bool
    ensures { result ≡ same_trap a b }
{
    matches!(
        (a, b),
        (Trap::Overflow, Trap::Overflow)
            | (Trap::Zero, Trap::Zero)
            | (Trap::Index, Trap::Index)
            | (Trap::Assert, Trap::Assert)
            | (Trap::Depth, Trap::Depth)
    )
}

/// Whether the piece is this synchronization; the value counts for a send alone.
fn fits_sync(kind: SyncKind, object: u8, value: i64, piece: Piece) -> bool
    ensures { result ≡ fits_of (wanted.Sync kind object value) (found_of_piece (piece_of piece.entry)) }
{
    match piece {
        Piece::Sync(SyncKind::Send, found, _, sent) => {
            same_kind(kind, SyncKind::Send) && object == found && value == sent
        }
        Piece::Sync(other, found, _, _) => {
            same_kind(kind, other) && object == found && value == 0
        }
        _ => false,
    }
}

/// Whether the piece is the one that is wanted.
pub(crate) fn fits(wanted: &Wanted, piece: Piece) -> bool
    ensures { result ≡ fits_of wanted.now (found_of_piece (piece_of piece.entry)) }
{
    match wanted {
        Wanted::Unit(unit) => matches!(piece, Piece::Unit(found, _) if found == *unit),
        Wanted::Sync(kind, object, value) => fits_sync(*kind, *object, *value, piece),
        Wanted::Nested(block) => match piece {
            Piece::Nested(_, found, _) => found == *block,
            Piece::Unfinished(_, found) => found == *block,
            _ => false,
        },
        Wanted::Postlog(values) => match piece {
            Piece::Postlog(found) => values.as_slice() == found,
            _ => false,
        },
        Wanted::End(_) | Wanted::Fewer => false,
    }
}
