// Links that carry nobody.
ghost use Rattle.std.specs.Prelude.{◌≡◌, ◌<◌, IfOk, IfSome, length};
ghost use Rattle.slot_lists.specs.Orders.{last};
ghost use Rattle.slots_by_age.specs.Aged.{IsNone, of_kind};
ghost use Rattle.conn_pool.specs.Shelves.{Fits, best_for, longest_in, of_key, of_server, shelf_of};
ghost use Rattle.conn_pool.specs.Sized.{IsSmall, NoneIdle};
ghost use Rattle.conn_pool.specs.Pools.{brought_back, busy, busy_if, expiring, given_back, put_aside, rests_since};

use crate::lendable::Lendable;
use crate::shelf::Shelf;
use crate::sizes::Sizes;
use mx_base::OutOfMemory;
use slots_by_age::SlotsByAge;
use std::alloc::Global;
use std::marker::Model;

// Those that stand aside by server, and all of them by when they were given back.
#[derive(Drop)]
struct Rests {
    aside: SlotsByAge,
    resting: SlotsByAge,
}

/// Links that carry nobody: those that may be lent, and those that stand aside while their server takes none.
#[derive(Drop)]
pub struct IdleLinks {
    lendable: Lendable,
    rests: Rests,
}

impl Model for IdleLinks {
    ghost use Rattle.conn_pool.specs.Pools.{Idle, IsIdle};

    ghost Value = { Idle };

    ghost view = { λ i. record { lendable = i.lendable; aside = i.rests.aside; resting = i.rests.resting } };

    ghost invariant = { λ i. IsIdle (record { lendable = i.lendable; aside = i.rests.aside; resting = i.rests.resting }) };
}

impl IdleLinks {
    /// None yet.
    pub fn new(alloc: Global, sizes: &Sizes) -> Result<Self, OutOfMemory>
        requires { IsSmall sizes.now }
        ensures { IfOk result (λ idle. NoneIdle idle sizes.now) }
    {
        let lendable = Lendable::new(alloc, sizes)?;
        let rests = no_rests(alloc, sizes)?;
        Ok(IdleLinks { lendable, rests })
    }

    /// How many links of a key may be lent.
    pub fn count(&self, key: u32) -> u32
        requires { key < self.now.lendable.keys }
        ensures { result ≡ length (of_key self.now.lendable key) }
    {
        self.lendable.count(key)
    }

    /// A link carries nobody any more, and may be lent.
    pub fn give_back(&mut self, link: u32, at: &Shelf, now_ms: u64)
        requires link { link < self.old.lendable.slots }
        requires fits { Fits self.old.lendable at.now }
        ensures { self.new ≡ given_back self.old link at.now now_ms }
    {
        self.lendable.put(link, at, now_ms);
        self.rests.aside.take(link);
        self.rests.resting.put(link, 0, now_ms);
    }

    /// Lends a link of a key: the one that was given back last of those that were told the very place that is wanted, else of all of the
    /// key.
    pub fn lend(&mut self, key: u32, place: u32) -> Option<u32>
        requires key { key < self.old.lendable.keys }
        requires place { place < self.old.lendable.places }
        ensures link { result ≡ best_for self.old.lendable key place }
        ensures lent { self.new ≡ busy_if self.old result }
    {
        let link = self.best(key, place)?;
        self.take(link);
        Some(link)
    }

    /// Takes out of a hostgroup the link that may be lent longest, to be closed for one of another key.
    pub fn evict(&mut self, group: u32) -> Option<u32>
        requires { group < self.old.lendable.groups }
        ensures link { result ≡ longest_in self.old.lendable group }
        ensures evicted { self.new ≡ busy_if self.old result }
    {
        let link = self.lendable.oldest_of_group(group)?;
        self.take(link);
        Some(link)
    }

    /// Takes out a link that was given back so long ago, to be closed.
    pub fn expire(&mut self, now_ms: u64, idle_ms: u64) -> Option<u32>
        ensures link { result ≡ expiring self.old now_ms idle_ms }
        ensures expired { self.new ≡ busy_if self.old result }
    {
        let link = self.rests.resting.oldest_of_all()?;
        if u128::from(self.rests.resting.since(link)) + u128::from(idle_ms) > u128::from(now_ms) {
            return None;
        }
        self.take(link);
        Some(link)
    }

    /// Since when the link rests that was given back longest ago.
    pub fn rests_since(&self) -> Option<u64>
        ensures { result ≡ rests_since self.now }
    {
        let link = self.rests.resting.oldest_of_all()?;
        Some(self.rests.resting.since(link))
    }

    /// Puts aside one of the links to a server that may be lent, since it takes no statements now. None: there is no more.
    pub fn put_aside(&mut self, server: u32, now_ms: u64) -> Option<u32>
        requires { server < self.old.lendable.servers }
        ensures link { result ≡ last (of_server self.old.lendable server) }
        ensures aside { self.new ≡ put_aside self.old server now_ms result }
    {
        let link = self.lendable.oldest_of_server(server)?;
        self.lendable.take(link);
        self.rests.aside.put(link, server, now_ms);
        Some(link)
    }

    /// One of the links to a server that stand aside may be lent again. None: there is no more.
    pub fn bring_back(&mut self, server: u32, now_ms: u64) -> Option<u32>
        requires { server < self.old.lendable.servers }
        ensures link { result ≡ last (of_kind self.old.aside server) }
        ensures back { self.new ≡ brought_back self.old now_ms result }
    {
        let link = self.rests.aside.oldest(server)?;
        let at = self.lendable.shelf(link);
        self.lendable.put(link, &at, now_ms);
        self.rests.aside.take(link);
        Some(link)
    }

    // The link that is lent for a key and a place.
    fn best(&self, key: u32, place: u32) -> Option<u32>
        requires key { key < self.now.lendable.keys }
        requires place { place < self.now.lendable.places }
        ensures is { result ≡ best_for self.now.lendable key place }
        ensures within { IfSome result (λ link. link < self.now.lendable.slots) }
    {
        if let Some(link) = self.lendable.newest_of_place(place)
            && self.lendable.key(link) == key
        {
            return Some(link);
        }
        self.lendable.newest_of_key(key)
    }

    /// A link carries somebody, or is to be closed.
    pub fn take(&mut self, link: u32)
        requires { link < self.old.lendable.slots }
        ensures { self.new ≡ busy self.old link }
    {
        self.lendable.take(link);
        self.rests.aside.take(link);
        self.rests.resting.take(link);
    }
}

fn no_rests(alloc: Global, sizes: &Sizes) -> Result<Rests, OutOfMemory>
    requires { IsSmall sizes.now }
    ensures aside { IfOk result (λ rests. IsNone rests.aside sizes.now.links sizes.now.servers) }
    ensures resting { IfOk result (λ rests. IsNone rests.resting sizes.now.links 1) }
{
    let aside = SlotsByAge::new(alloc, sizes.links, sizes.servers)?;
    let resting = SlotsByAge::new(alloc, sizes.links, 1)?;
    Ok(Rests { aside, resting })
}
