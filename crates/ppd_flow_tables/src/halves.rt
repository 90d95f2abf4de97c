// The last of some rising numbers below a limit, by halves.
ghost use Rattle.std.specs.Prelude.{◌≡◌, ◌<◌, ◌≤◌, ◌+◌, ◌^◌, length};
ghost use Rattle.std.specs.List.Sorted.{IsNonDecreasing};
ghost use Rattle.ppd_flow_tables.specs.LatestEdges.{last_below as last_below_of};
ghost use Rattle.ppd_flow_tables.specs.Writing.{IsCut};

use ppd_ast::Steps;
use std::sync::ledger::Ledger;

fn count_of(numbers: &[u32]) -> usize
    ensures count { result ≡ length numbers.now }
    ensures fits { length numbers.now < 2 ^ 64 }
{
    numbers.len()
}

/// How many of these numbers are below a limit: by halves, of which there are at most 64.
fn count_below<L: Ledger>(numbers: &[u32], limit: u32, steps: &mut Steps<L>) -> usize
    requires { IsNonDecreasing numbers.now }
    ensures cut { IsCut limit numbers.now result }
    ensures cost { steps.new ≤ steps.old + 64 }
{
    let mut low = 0;
    let mut high = count_of(numbers);
    while low < high {
        steps.tick();
        let middle = low + (high - low) / 2;
        if numbers[middle] < limit {
            low = middle + 1;
        } else {
            high = middle;
        }
    }
    low
}

/// The last of these numbers below a limit, in at most 64 steps.
pub(crate) fn last_below<L: Ledger>(
    numbers: &[u32],
    limit: u32,
    steps: &mut Steps<L>,
) -> Option<u32>
    requires { IsNonDecreasing numbers.now }
    ensures last { result ≡ last_below_of limit numbers.now }
    ensures cost { steps.new ≤ steps.old + 64 }
{
    let count = count_below(numbers, limit, steps);
    if count == 0 {
        return None;
    }
    Some(numbers[count - 1])
}
