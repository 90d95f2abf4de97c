// Numbers in a list, by place.
ghost use Rattle.std.specs.Prelude.{◌≡◌, get_or};

/// The number at a place, and 0 past the list's end.
pub(crate) fn number_at(numbers: &[u32], place: usize) -> u32
    ensures { result ≡ get_or numbers.now place 0 }
{
    if place < numbers.len() {
        numbers[place]
    } else {
        0
    }
}
