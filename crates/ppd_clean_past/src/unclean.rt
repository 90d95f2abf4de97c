// Whether the past of an item has a race.
ghost use Rattle.std.specs.Prelude.{◌≡◌};
ghost use Rattle.ppd_clean_past.specs.ByOrder.{is_led_to as is_led_to_of, is_unclean_at as is_unclean_in_edge};
ghost use Rattle.ppd_flow_past.specs.Pasts.{IsPast};

use crate::asked::Asked;
use crate::by_order::{last_edge, leads_from_race};
use ppd_flow_past::{Past, is_sync_item};
use ppd_model::{EdgeId, Item};

/// Whether a race ends before the item, where it is the synchronization that ends this edge.
fn is_led_to(past: &Past, asked: &Asked, item: &Item, edge: EdgeId) -> bool
    requires { IsPast past.now }
    ensures { result ≡ is_led_to_of past.now asked.now item.now edge }
{
    is_sync_item(item)
        && leads_from_race(
            past.graph,
            asked.firsts,
            last_edge(past, edge.process),
            edge,
        )
}

/// Whether the past of an item of the process that is asked has a race, where the last of its steps lies in this edge.
pub fn is_unclean_at(past: &Past, asked: &Asked, item: &Item, edge: u32) -> bool
    requires { IsPast past.now }
    ensures { result ≡ is_unclean_in_edge past.now asked.now item.now edge asked.now.first }
{
    let Some(first) = asked.first else {
        return false;
    };
    let here = EdgeId {
        process: asked.process,
        edge,
    };
    first <= edge || is_led_to(past, asked, item, here)
}
