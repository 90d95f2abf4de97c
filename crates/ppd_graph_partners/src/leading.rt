ghost use Rattle.std.specs.Prelude.{◌≡◌, ℕ};
ghost use Rattle.ppd_graph_partners.specs.Wanted.{named, wanted_by};

use ppd_model::SyncKind;

/// The kind and the number of a synchronization of some object.
type KindAndNumber = (SyncKind, u32);

// What leads to a send: the receive that freed its place, or for capacity 0 the completion before it.
fn wanted_by_send(capacity: u8, number: u32) -> Option<KindAndNumber>
    ensures { (object : ℕ) → named object result ≡ wanted_by capacity SyncKind.Send object number }
{
    if capacity == 0 {
        if number == 0 {
            return None;
        }
        return Some((SyncKind::Done, number - 1));
    }
    let capacity = u32::from(capacity);
    if capacity <= number {
        return Some((SyncKind::Recv, number - capacity));
    }
    None
}

// What leads to a completion.
fn wanted_by_done(capacity: u8, number: u32) -> Option<KindAndNumber>
    ensures { (object : ℕ) → named object result ≡ wanted_by capacity SyncKind.Done object number }
{
    if capacity == 0 {
        return Some((SyncKind::Recv, number));
    }
    None
}

/// What leads to a synchronization by its number, of one object with this capacity: its kind and its number; none
/// where nothing of the object does.
pub fn wanted(capacity: u8, kind: SyncKind, number: u32) -> Option<(SyncKind, u32)>
    ensures { (object : ℕ) → named object result ≡ wanted_by capacity kind object number }
{
    match kind {
        SyncKind::P => Some((SyncKind::V, number)),
        SyncKind::V => None,
        SyncKind::Recv => Some((SyncKind::Send, number)),
        SyncKind::Done => wanted_by_done(capacity, number),
        SyncKind::Send => wanted_by_send(capacity, number),
    }
}
