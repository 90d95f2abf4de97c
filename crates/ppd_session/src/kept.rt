// The blocks that were replayed last.
ghost use Rattle.std.specs.Prelude.{◌≡◌, ◌⊎◌, None, IfOk};
ghost use Rattle.std.specs.Option.{option_copied};
ghost use Rattle.ppd_session.specs.Keeping.{in_front, kept_of, none_kept, with_block};

use crate::place::Place;
use lru::LruCache;
use ppd_ast::{Memory, Seq};
use ppd_model::Item;
use std::alloc::Global;
use std::marker::Model;
use std::num::NonZeroUsize;

/// The items of the intervals that were replayed last, as many as may be kept.
#[derive(Drop)]
pub(crate) struct Kept {
    cache: LruCache<Place, Seq<Item>>,
    most: u32,
}

impl Model for Kept {
    ghost use Rattle.std.specs.Prelude.{◌≡◌, ◌<◌};
    ghost use Rattle.ppd_session.specs.Keeping.{Keeping};

    ghost Value = { Keeping };

    ghost view = { λ s. record { blocks = s.cache.entries; most = s.most } };

    ghost invariant = { λ s. 0 < s.most → s.cache.cap ≡ s.most };
}

impl Kept {
    /// Nothing yet, of at most so many blocks. `Memory` is want of memory.
    pub(crate) fn new(alloc: Global, most: u32) -> Result<Kept, Memory>
        ensures { IfOk result (λ kept. kept ≡ none_kept most) }
    {
        let room = NonZeroUsize::new(most as usize).unwrap_or(NonZeroUsize::MIN);
        let cache = LruCache::sparse(alloc, room)?;
        Ok(Kept { cache, most })
    }

    /// A block that is asked for now, if it is kept, is the last to go.
    pub(crate) fn touch(&mut self, place: Place)
        ensures { self.new ≡ in_front place self.old }
    {
        self.cache.promote(&place);
    }

    /// The items of a block that is kept.
    pub(crate) fn find(&self, place: Place) -> Option<&Seq<Item>>
        ensures { option_copied result ≡ kept_of self.now place }
    {
        self.cache.peek(&place)
    }

    /// Keeps a block that is not kept, in place of the one that was not asked for the longest time where there are too
    /// many. Where memory is wanted it is not kept.
    pub(crate) fn keep(&mut self, place: Place, items: Seq<Item>)
        requires { kept_of self.old place ≡ None }
        ensures { (self.new ≡ with_block place items self.old) ⊎ (self.new ≡ self.old) }
    {
        if self.most == 0 {
            return;
        }
        match self.cache.put(place, items) {
            Ok(_) => {}
            Err(_) => {}
        }
    }
}
