// The pool.
ghost use Rattle.std.specs.Prelude.{◌≡◌, ◌<◌, ℕ, length, IfOk, IfSome, Some, slice_get, slice_index};
ghost use Rattle.slot_lists.specs.Orders.{before, last};
ghost use Rattle.slots_by_age.specs.Aged.{IsNone, of_kind, put, taken};
ghost use Rattle.conn_pool.specs.Shelves.{Fits, best_for, longest_in, of_key, of_server, shelf_of};
ghost use Rattle.conn_pool.specs.Sized.{IsFor, IsSmall};
ghost use Rattle.conn_pool.specs.Pools.{brought_back, busy_if, closed, coming, expiring, given_back, opened, put_aside, rests_since, wants_link};

use crate::idle::IdleLinks;
use crate::shelf::Shelf;
use crate::sizes::Sizes;
use mx_base::OutOfMemory;
use slots_by_age::SlotsByAge;
use std::alloc::Global;
use std::marker::Model;

// Open links by server, and by key those whose login isn't through or that have a step under way.
#[derive(Drop)]
struct Logins {
    links: SlotsByAge,
    entering: SlotsByAge,
}

/// Links to servers, and the clients that wait for one. Each call takes a step or two.
#[derive(Drop)]
pub struct Pool {
    logins: Logins,
    idle: IdleLinks,
    waiting: SlotsByAge,
}

impl Model for Pool {
    ghost use Rattle.conn_pool.specs.Pools.{AreSized, Links};

    ghost Value = { Links };

    ghost view = { λ p. record { links = p.logins.links; entering = p.logins.entering; idle = p.idle; waiting = p.waiting } };

    ghost invariant = { λ p. AreSized (record { links = p.logins.links; entering = p.logins.entering; idle = p.idle; waiting = p.waiting }) };
}

impl Pool {
    /// No link, and nobody who waits.
    pub fn new(alloc: Global, sizes: &Sizes) -> Result<Self, OutOfMemory>
        requires { IsSmall sizes.now }
        ensures { IfOk result (IsFor sizes.now) }
    {
        let logins = no_logins(alloc, sizes)?;
        let idle = IdleLinks::new(alloc, sizes)?;
        let waiting = SlotsByAge::new(alloc, sizes.waiters, sizes.keys)?;
        Ok(Pool {
            logins,
            idle,
            waiting,
        })
    }

    /// How many links are open to each server.
    pub fn connections(&self) -> &[u32]
        ensures length { length result.now ≡ self.now.links.kinds }
        ensures counts { (server : ℕ) → server < self.now.links.kinds
            → slice_index result.now server ≡ length (of_kind self.now.links server) }
    {
        self.logins.links.counts()
    }

    /// How many links are open, to all servers together.
    pub fn total(&self) -> u32
        ensures { result ≡ length self.now.links.order }
    {
        self.logins.links.len()
    }

    /// The link to a server that is open longest.
    pub fn oldest_link_to(&self, server: u32) -> Option<u32>
        requires { server < self.now.links.kinds }
        ensures { result ≡ last (of_kind self.now.links server) }
    {
        self.logins.links.oldest(server)
    }

    /// A link to a server was opened for a key; its login begins.
    pub fn opened(&mut self, link: u32, server: u32, key: u32, now_ms: u64)
        requires link { link < self.old.links.slots }
        requires server { server < self.old.links.kinds }
        requires key { key < self.old.entering.kinds }
        ensures { self.new ≡ opened self.old link server key now_ms }
    {
        self.logins.links.put(link, server, now_ms);
        self.logins.entering.put(link, key, now_ms);
    }

    /// A link's login is through, or its step or reset is answered.
    pub fn logged_in(&mut self, link: u32)
        requires { link < self.old.links.slots }
        ensures { self.new ≡ record self.old { entering = taken self.old.entering link } }
    {
        self.logins.entering.take(link);
    }

    /// A step or a reset is under way on a link of a key that carries nobody; once it is answered, the link is `logged_in` again.
    pub fn steps(&mut self, link: u32, key: u32, now_ms: u64)
        requires link { link < self.old.links.slots }
        requires key { key < self.old.entering.kinds }
        ensures { self.new ≡ record self.old { entering = put self.old.entering link key now_ms } }
    {
        self.logins.entering.put(link, key, now_ms);
    }

    /// A link carries nobody any more, and may be lent.
    pub fn give_back(&mut self, link: u32, at: &Shelf, now_ms: u64)
        requires link { link < self.old.links.slots }
        requires fits { Fits self.old.idle.lendable at.now }
        ensures { self.new ≡ record self.old { idle = given_back self.old.idle link at.now now_ms } }
    {
        self.idle.give_back(link, at, now_ms);
    }

    /// Lends a link of a key: the one that was given back last of those that were told the very place that is wanted, else of all of the
    /// key.
    pub fn lend(&mut self, key: u32, place: u32) -> Option<u32>
        requires key { key < self.old.idle.lendable.keys }
        requires place { place < self.old.idle.lendable.places }
        ensures link { result ≡ best_for self.old.idle.lendable key place }
        ensures lent { self.new ≡ record self.old { idle = busy_if self.old.idle result } }
    {
        self.idle.lend(key, place)
    }

    /// Takes out of a hostgroup the link that may be lent longest, to be closed for one of another key.
    pub fn evict(&mut self, group: u32) -> Option<u32>
        requires { group < self.old.idle.lendable.groups }
        ensures link { result ≡ longest_in self.old.idle.lendable group }
        ensures evicted { self.new ≡ record self.old { idle = busy_if self.old.idle result } }
    {
        self.idle.evict(group)
    }

    /// Takes out a link that was given back so long ago, to be closed.
    pub fn expire(&mut self, now_ms: u64, idle_ms: u64) -> Option<u32>
        ensures link { result ≡ expiring self.old.idle now_ms idle_ms }
        ensures expired { self.new ≡ record self.old { idle = busy_if self.old.idle result } }
    {
        self.idle.expire(now_ms, idle_ms)
    }

    /// Since when the link rests that was given back longest ago.
    pub fn rests_since(&self) -> Option<u64>
        ensures { result ≡ rests_since self.now.idle }
    {
        self.idle.rests_since()
    }

    /// Puts aside one of the links to a server that may be lent, since it takes no statements now. None: there is no more.
    pub fn put_aside(&mut self, server: u32, now_ms: u64) -> Option<u32>
        requires { server < self.old.links.kinds }
        ensures link { result ≡ last (of_server self.old.idle.lendable server) }
        ensures aside { self.new ≡ record self.old { idle = put_aside self.old.idle server now_ms result } }
    {
        self.idle.put_aside(server, now_ms)
    }

    /// One of the links to a server that stand aside may be lent again. None: there is no more.
    pub fn bring_back(&mut self, server: u32, now_ms: u64) -> Option<u32>
        requires { server < self.old.links.kinds }
        ensures link { result ≡ last (of_kind self.old.idle.aside server) }
        ensures back { self.new ≡ record self.old { idle = brought_back self.old.idle now_ms result } }
    {
        self.idle.bring_back(server, now_ms)
    }

    /// A link is closed or lost.
    pub fn close(&mut self, link: u32)
        requires { link < self.old.links.slots }
        ensures { self.new ≡ closed self.old link }
    {
        self.logins.links.take(link);
        self.logins.entering.take(link);
        self.idle.take(link);
    }

    /// A client waits for a link of a key, since a moment.
    pub fn wait(&mut self, client: u32, key: u32, since_ms: u64)
        requires client { client < self.old.waiting.slots }
        requires key { key < self.old.waiting.kinds }
        ensures { self.new ≡ record self.old { waiting = put self.old.waiting client key since_ms } }
    {
        self.waiting.put(client, key, since_ms);
    }

    /// A client waits no more.
    pub fn leave(&mut self, client: u32)
        requires { client < self.old.waiting.slots }
        ensures { self.new ≡ record self.old { waiting = taken self.old.waiting client } }
    {
        self.waiting.take(client);
    }

    /// The client that waits longest.
    pub fn oldest(&self) -> Option<u32>
        ensures { result ≡ last self.now.waiting.order }
    {
        self.waiting.oldest_of_all()
    }

    /// The client that waits longest for a link of a key.
    pub fn oldest_of(&self, key: u32) -> Option<u32>
        requires { key < self.now.waiting.kinds }
        ensures { result ≡ last (of_kind self.now.waiting key) }
    {
        self.waiting.oldest(key)
    }

    /// The client that waits longest of those that came after this one.
    pub fn next(&self, client: u32) -> Option<u32>
        requires { client < self.now.waiting.slots }
        ensures { (at : ℕ) → slice_get self.now.waiting.order at ≡ Some client → result ≡ before self.now.waiting.order at }
    {
        self.waiting.newer(client)
    }

    /// The moment since which a client waits, or waited last.
    pub fn waits_since(&self, client: u32) -> u64
        requires { client < self.now.waiting.slots }
        ensures { result ≡ slice_index self.now.waiting.since client }
    {
        self.waiting.since(client)
    }

    /// How many links of a key may be lent.
    pub fn idle(&self, key: u32) -> u32
        requires { key < self.now.idle.lendable.keys }
        ensures { result ≡ length (of_key self.now.idle.lendable key) }
    {
        self.idle.count(key)
    }

    /// How many links of a key may be lent, log in, or have a step under way.
    pub fn coming(&self, key: u32) -> u64
        requires { key < self.now.idle.lendable.keys }
        ensures { result ≡ coming self.now key }
    {
        u64::from(self.idle.count(key)) + u64::from(self.logins.entering.count(key))
    }

    /// Whether more clients of a key wait than there are links that may be lent to them, log in, or have a step under way.
    pub fn wants_link(&self, key: u32) -> bool
        requires { key < self.now.idle.lendable.keys }
        ensures { result ≡ wants_link self.now key }
    {
        self.coming(key) < u64::from(self.waiting.count(key))
    }
}

fn no_logins(alloc: Global, sizes: &Sizes) -> Result<Logins, OutOfMemory>
    requires { IsSmall sizes.now }
    ensures links { IfOk result (λ logins. IsNone logins.links sizes.now.links sizes.now.servers) }
    ensures entering { IfOk result (λ logins. IsNone logins.entering sizes.now.links sizes.now.keys) }
{
    let links = SlotsByAge::new(alloc, sizes.links, sizes.servers)?;
    let entering = SlotsByAge::new(alloc, sizes.links, sizes.keys)?;
    Ok(Logins { links, entering })
}
