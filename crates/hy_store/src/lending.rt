// Instructions that open accesses.
ghost use Rattle.std.specs.Prelude.{◌≡◌, ◌<◌, None, OnOk, IsSomeAnd, length};
ghost use Rattle.hy_access.specs.Accesses.{IsLiveIfGiven};
ghost use Rattle.hy_object.specs.Checks.{is_empty};
ghost use Rattle.hy_object.specs.Lending.{lend};
ghost use Rattle.hy_store.specs.Frames.{kept};
ghost use Rattle.hy_store.specs.Opened.{abstract_way};
ghost use Rattle.hy_store.specs.Executes.{MayRunOut, StoreExecutes};
ghost use Rattle.hy_store.specs.Represents.{RepresentsSome, Opens, abstract_slot};

use crate::frame::Slot;
use crate::halt::Halt;
use crate::reach::{Reach, may_use};
use crate::store::{Store, check};
use hy_access::Range;
use hy_base::NoMemory;
use hy_object::{Fun, Kind, Place, Way};

// The way, as accesses keep it.
pub(crate) fn kept_way(way: Way) -> hy_access::Way
    ensures { abstract_way result ≡ way }
{
    match way {
        Way::Read => hy_access::Way::Read,
        Way::Write => hy_access::Way::Write,
    }
}

/// Whether a slot holds no access.
pub fn is_empty(slot: Slot) -> bool
    ensures { is_empty (abstract_slot slot) ≡ result }
{
    match slot {
        Slot::Empty => true,
        Slot::Given(_) | Slot::Filled(_) | Slot::Yielded(_, _) => false,
    }
}

impl Store {
    // Opens an access to what is reached under the next name, and fills a slot with it.
    pub(crate) fn open(
        &mut self,
        slot: u32,
        reach: Reach,
        header: Option<Range>,
        way: hy_access::Way,
    ) -> Result<(), NoMemory>
        requires live { IsLiveIfGiven reach.through self.old.opened.accesses }
        requires slot { IsSomeAnd (kept self.old.frames self.old.frame) (λ one. slot < length one.slots) }
        ensures { OnOk result (Opens self.old self.new slot reach.range header way reach.through) }
    {
        let name = self.counts.opened;
        if name == u64::MAX {
            return Err(NoMemory);
        }
        self.opened
            .lend(name, reach.range, header, way, reach.through)?;
        self.frames.set_slot(self.frame, slot, Slot::Filled(name));
        self.counts.opened = name + 1;
        Ok(())
    }

    /// Opens an access to words at a place.
    pub fn lend(
        &mut self,
        fun: &Fun,
        slot: u32,
        place: Place,
        words: u32,
        way: Way,
    ) -> Result<(), Halt>
        requires represented { RepresentsSome self.old fun.now }
        requires slot { slot < fun.now.slots }
        ensures { StoreExecutes MayRunOut fun.now self.old self.new result (λ s. lend s slot place words way) }
    {
        let empty = is_empty(self.frames.slot(self.frame, slot));
        check(empty, Kind::Slot)?;
        let x = self.reach(fun, place, words)?;
        check(may_use(&self.opened.accesses, way, x), Kind::Access)?;
        self.open(slot, x, None, kept_way(way))?;
        Ok(())
    }
}
