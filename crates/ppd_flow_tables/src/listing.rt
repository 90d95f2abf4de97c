// Places that are listed under numbers, by halves.
ghost use Rattle.std.specs.Prelude.{◌≡◌, ◌&&◌, ◌||◌, ◌<◌, ◌^◌, ℕ, OnOk, nat_eq};
ghost use Rattle.std.specs.List.Sorted.{IsNonDecreasing};
ghost use Rattle.ppd_ast.specs.Members.{has};
ghost use Rattle.ppd_flow_tables.specs.Writing.{IsCut};
ghost use Rattle.ppd_flow_tables.specs.Listed.{IsFirstUnder, IsLastUnder, IsPlaceUnder, key as key_of};

use ppd_ast::{Memory, Seq};

/// Places that are listed under numbers. It keeps 8 bytes a place.
#[derive(Drop)]
pub(crate) struct Listing {
    pub(crate) keys: Seq<u64>,
    ghost rising: { IsNonDecreasing keys },
}

/// A place under a number: all places under one number have keys in a row.
fn key(number: u32, place: u32) -> u64
    ensures { result ≡ key_of number place }
{
    (number as u64) * (1 << 32) + place as u64
}

/// The place of a key, if it is under this number.
fn place_under(number: u32, key: u64) -> Option<usize>
    ensures { IsPlaceUnder number key result }
{
    if key / (1 << 32) == number as u64 {
        Some((key % (1 << 32)) as usize)
    } else {
        None
    }
}

/// Adds the key of a place under a number.
pub(crate) fn push_place(keys: &mut Seq<u64>, number: u32, place: u32) -> Result<(), Memory>
    ensures { OnOk result ((n i : ℕ) → i < 2 ^ 32 → has keys.new (key_of n i)
        ≡ (has keys.old (key_of n i) || (nat_eq place i && nat_eq n number))) }
{
    keys.push(key(number, place))?;
    Ok(())
}

/// Adds it where the test holds.
pub(crate) fn push_if(
    keys: &mut Seq<u64>,
    test: bool,
    number: u32,
    place: u32,
) -> Result<(), Memory>
    ensures { OnOk result ((n i : ℕ) → i < 2 ^ 32 → has keys.new (key_of n i)
        ≡ (has keys.old (key_of n i) || (nat_eq place i && (test && nat_eq n number)))) }
{
    if test {
        return push_place(keys, number, place);
    }
    Ok(())
}

impl Listing {
    /// The places of these keys.
    pub(crate) fn new(keys: Seq<u64>) -> Listing
        ensures { (k : ℕ) → has result.keys k ≡ has keys k }
    {
        let mut keys = keys.into_vec();
        keys.sort_unstable();
        Listing {
            keys: Seq::from_vec(keys),
        }
    }

    /// How many keys are below a limit.
    fn count_below(&self, limit: u64) -> usize
        ensures { IsCut limit self.now.keys result }
    {
        self.keys.as_slice().partition_point(|key| *key < limit)
    }

    /// The first place under a number.
    pub(crate) fn first_under(&self, number: u32) -> Option<usize>
        ensures { IsFirstUnder self.now.keys number result }
    {
        let count = self.count_below(key(number, 0));
        if count == self.keys.len() {
            return None;
        }
        place_under(number, self.keys[count])
    }

    /// The last place under a number that is before a place.
    pub(crate) fn last_under(&self, number: u32, place: u32) -> Option<usize>
        ensures { IsLastUnder self.now.keys number place result }
    {
        let count = self.count_below(key(number, place));
        if count == 0 {
            return None;
        }
        place_under(number, self.keys[count - 1])
    }
}
