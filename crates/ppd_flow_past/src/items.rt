// The items of an interval, owned or lent.
ghost use Rattle.std.specs.Prelude.{◌≡◌};

use ppd_ast::Seq;
use ppd_model::Item;
use std::marker::Model;

#[derive(Drop)]
enum Held<'a> {
    Kept(&'a [Item]),
    Replayed(Seq<Item>),
}

/// The items of an interval: lent where they are kept, else of a replay.
#[derive(Drop)]
pub struct Items<'a> {
    held: Held<'a>,
}

impl<'a> Model for Items<'a> {
    ghost use Rattle.std.specs.Prelude.{List};
    ghost use Rattle.ppd_model.specs.declared.flow.Item.{Item};
    ghost use Rattle.ppd_flow_past.specs.Held.{items_held};

    ghost Value = { List Item };

    ghost view = { λ s. items_held s.held };
}

impl<'a> Items<'a> {
    pub(crate) fn kept(items: &'a [Item]) -> Items<'a>
        ensures { result ≡ items.now }
    {
        Items {
            held: Held::Kept(items),
        }
    }

    pub(crate) fn replayed(items: Seq<Item>) -> Items<'a>
        ensures { result ≡ items }
    {
        Items {
            held: Held::Replayed(items),
        }
    }

    /// The items in order.
    pub fn as_slice(&self) -> &[Item]
        ensures { result.now ≡ self.now }
    {
        match &self.held {
            Held::Kept(items) => items,
            Held::Replayed(items) => items.as_slice(),
        }
    }
}
