// Tables of the block in which last values are looked for.
ghost use Rattle.std.specs.Prelude.{◌≡◌, IfSome, option_copied};
ghost use Rattle.ppd_flow_past.specs.declared.past.Past.{Past as APast};
ghost use Rattle.ppd_flow_past.specs.Pasts.{IsPast};
ghost use Rattle.ppd_flow_past.specs.SeenBy.{items_in};
ghost use Rattle.ppd_flow.specs.Tabled.{IsOfInterval};
ghost use Rattle.ppd_session.specs.LastTables.{AreOfLast, same_tables};

use crate::place::Place;
use ppd_flow::{BlockTables, block_tables};
use ppd_flow_past::Past;
use ppd_model::Item;
use std::alloc::Global;
use std::mem::replace;

/// The block that was asked for last, and the tables of its items once it was asked for twice in turn.
#[derive(Drop)]
pub(crate) struct LastTables {
    pub(crate) place: Option<Place>,
    pub(crate) tables: Option<BlockTables>,
}

impl LastTables {
    /// No block was asked for yet.
    pub(crate) fn new() -> LastTables
        ensures { (past : APast) → AreOfLast past result }
    {
        LastTables {
            place: None,
            tables: None,
        }
    }

    fn is_last(&self, place: Place) -> bool {
        match self.place {
            Some(last) => last.process == place.process && last.interval == place.interval,
            None => false,
        }
    }

    /// The tables of this block, whose items these are, if it was asked for last and memory serves.
    fn made(&self, alloc: Global, past: &Past, place: Place, items: &[Item]) -> Option<BlockTables>
        requires past { IsPast past.now }
        requires items { items.now ≡ items_in past.now place.process place.interval }
        ensures { IfSome result (IsOfInterval past.now place.process place.interval) }
    {
        if !self.is_last(place) {
            return None;
        }
        match block_tables(alloc, past, place.process, place.interval, items) {
            Ok(tables) => Some(tables),
            Err(_) => None,
        }
    }

    /// This block, whose items these are, is asked for.
    pub(crate) fn ask(&mut self, alloc: Global, past: &Past, place: Place, items: &[Item])
        requires past { IsPast past.now }
        requires items { items.now ≡ items_in past.now place.process place.interval }
        requires tables { AreOfLast past.now self.old }
        ensures { AreOfLast past.now self.new }
    {
        if self.find(place).is_some() {
            return;
        }
        let tables = self.made(alloc, past, place, items);
        self.place = Some(place);
        drop(replace(&mut self.tables, tables));
    }

    /// The tables of this block, if they were made.
    pub(crate) fn find(&self, place: Place) -> Option<&BlockTables>
        ensures { (past : APast) → AreOfLast past self.now
            → IfSome (option_copied result) (IsOfInterval past place.process place.interval) }
    {
        match self.place {
            Some(last) => self.at(last, place),
            None => None,
        }
    }

    /// The tables of one place, where the other is the same.
    fn at(&self, last: Place, place: Place) -> Option<&BlockTables>
        ensures { option_copied result ≡ same_tables last place self.now.tables }
    {
        if place.process == last.process && place.interval == last.interval {
            self.tables.as_ref()
        } else {
            None
        }
    }
}
