ghost use Rattle.std.specs.Prelude.{◌≡◌, nat_eq};
ghost use Rattle.std.specs.List.{find};
ghost use Rattle.ppd_codec_fields.specs.Fields.{fits_kind as fits_kind_of, is_next as is_next_of, kind_code, kinds, status_code, statuses, tag_code, tags};

use crate::tag::Tag;
use ppd_ast::{Status, SyncKind, Trap};

/// The tag of this code.
pub fn tag_at(byte: u8) -> Option<Tag>
    ensures { result ≡ find (λ tag. nat_eq (tag_code tag) byte) tags }
{
    match byte {
        1 => Some(Tag::Prelog),
        2 => Some(Tag::Unit),
        3 => Some(Tag::Sync),
        4 => Some(Tag::Postlog),
        5 => Some(Tag::End),
        _ => None,
    }
}

/// The kind of this code in a recording of this version: `Done` stands in version 2 alone.
pub fn kind_at(version: u8, byte: u8) -> Option<SyncKind>
    ensures { result ≡ find (λ kind. nat_eq (kind_code kind) byte) (kinds version) }
{
    match byte {
        1 => Some(SyncKind::P),
        2 => Some(SyncKind::V),
        3 => Some(SyncKind::Send),
        4 => Some(SyncKind::Recv),
        5 if version == 2 => Some(SyncKind::Done),
        _ => None,
    }
}

/// The status of this code.
pub fn status_at(byte: u8) -> Option<Status>
    ensures { result ≡ find (λ status. nat_eq (status_code status) byte) statuses }
{
    match byte {
        0 => Some(Status::Ended),
        1 => Some(Status::Trap(Trap::Overflow)),
        2 => Some(Status::Trap(Trap::Zero)),
        3 => Some(Status::Trap(Trap::Index)),
        4 => Some(Status::Trap(Trap::Assert)),
        5 => Some(Status::Trap(Trap::Depth)),
        6 => Some(Status::Budget),
        7 => Some(Status::Blocked),
        _ => None,
    }
}

/// Whether a synchronization of this kind may have this value: 0 but for what is sent and received.
pub fn fits_kind(kind: SyncKind, value: i64) -> bool
    ensures { result ≡ fits_kind_of kind value }
{
    match kind {
        SyncKind::P | SyncKind::V | SyncKind::Done => value == 0,
        SyncKind::Send | SyncKind::Recv => true,
    }
}

/// Whether the cell is at least `low` and below the count of shared cells.
pub fn is_next(shared: u32, low: u32, cell: u16) -> bool
    ensures { result ≡ is_next_of shared low cell }
{
    low <= u32::from(cell) && u32::from(cell) < shared
}
