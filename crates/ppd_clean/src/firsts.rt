// The least internal edge of each process that races touch.
ghost use Rattle.std.specs.Prelude.{◌≡◌, ◌++◌, IfOk, OnOk};
ghost use Rattle.ppd_clean.specs.Firsts.{edge_if, firsts_of, least_of, lesser as lesser_of, lesser_if as lesser_where, with_race};

use ppd_ast::{Memory, Seq};
use ppd_model::{EdgeId, Race};
use std::alloc::Global;

fn lesser(found: Option<u32>, edge: u32) -> Option<u32>
    ensures { result ≡ lesser_of found edge }
{
    match found {
        Some(least) => {
            if least <= edge {
                Some(least)
            } else {
                Some(edge)
            }
        }
        None => Some(edge),
    }
}

fn lesser_if(counts: bool, found: Option<u32>, edge: u32) -> Option<u32>
    ensures { result ≡ lesser_where counts found edge }
{
    if counts { lesser(found, edge) } else { found }
}

/// The least edge of a process so far, after one more race.
fn least_with(process: u8, found: Option<u32>, race: Race) -> Option<u32>
    ensures { result ≡ with_race process found race }
{
    let first = lesser_if(race.p == process, found, race.i);
    lesser_if(race.q == process, first, race.j)
}

fn least(races: &[Race], process: u8) -> Option<u32>
    ensures { result ≡ least_of races.now process }
{
    let mut least = None;
    for race in races {
        least = least_with(process, least, *race);
    }
    least
}

/// Puts the edge behind these, if there is one.
fn push_if(edges: &mut Seq<EdgeId>, process: u8, edge: Option<u32>) -> Result<(), Memory>
    ensures { OnOk result (edges.new ≡ edges.old ++ edge_if process edge) }
{
    match edge {
        Some(edge) => edges.push(EdgeId { process, edge }),
        None => Ok(()),
    }
}

/// Of each of so many processes the least edge that one of these races has. A past that has another edge of the process
/// in a race has this one too, since what is before an edge is before the next one. `Memory` is want of memory, also
/// for processes that have no 8-bit numbers.
pub(crate) fn first_edges(
    alloc: Global,
    races: &[Race],
    processes: usize,
) -> Result<Seq<EdgeId>, Memory>
    ensures { IfOk result (λ firsts. firsts ≡ firsts_of races.now processes) }
{
    let mut firsts = Seq::new(alloc);
    for number in 0..processes {
        let Ok(process) = u8::try_from(number) else {
            return Err(Memory);
        };
        push_if(&mut firsts, process, least(races, process))?;
    }
    Ok(firsts)
}
