// The pool.
ghost use Rattle.std.specs.Prelude.{◌≡◌, true};
ghost use Rattle.conn_pool.specs.Shelves.{Fits};
ghost use Rattle.conn_pool.specs.Sized.{IsSmall};

use conn_pool::{Pool, Shelf, Sizes};
use mx_base::OutOfMemory;
use std::alloc::Global;
use std::marker::Model;

/// Links to servers, and the clients that wait for one. What is beyond the sizes is passed over.
#[derive(Drop)]
pub struct Berths {
    pool: Pool,
    sizes: Sizes,
}

impl Model for Berths {
    ghost use Rattle.conn_pool.specs.Pools.{Links};
    ghost use Rattle.core_pool.specs.Sized.{IsPoolOf};

    ghost Value = { Links };

    ghost view = { λ b. b.pool };

    ghost invariant = { λ b. IsPoolOf b.pool b.sizes };
}

impl Berths {
    /// No link, and nobody who waits.
    pub fn new(alloc: Global, sizes: Sizes) -> Result<Self, OutOfMemory>
        requires { IsSmall sizes }
    {
        let pool = Pool::new(alloc, &sizes)?;
        Ok(Berths { pool, sizes })
    }

    /// How many links are open to each server.
    pub fn connections(&self) -> &[u32] {
        self.pool.connections()
    }

    /// A link to a server was opened for a key; its login begins. Takes no memory.
    pub fn opened(&mut self, link: u32, server: u32, key: u32, now_ms: u64) {
        if link < self.sizes.links && server < self.sizes.servers && key < self.sizes.keys {
            self.pool.opened(link, server, key, now_ms);
        }
    }

    /// A link's login is through, or its step is answered. Takes no memory.
    pub fn logged_in(&mut self, link: u32) {
        if link < self.sizes.links {
            self.pool.logged_in(link);
        }
    }

    /// A step is under way on a link of a key that carries nobody. Takes no memory.
    pub fn steps(&mut self, link: u32, key: u32, now_ms: u64) {
        if link < self.sizes.links && key < self.sizes.keys {
            self.pool.steps(link, key, now_ms);
        }
    }

    // Whether a shelf is within the sizes.
    fn fits(&self, at: &Shelf) -> bool
        ensures { result ≡ true → Fits self.now.idle.lendable at.now }
    {
        at.key < self.sizes.keys
            && at.place < self.sizes.places
            && at.group < self.sizes.groups
            && at.server < self.sizes.servers
    }

    /// A link carries nobody any more, and may be lent. Takes no memory.
    pub fn give_back(&mut self, link: u32, at: &Shelf, now_ms: u64) {
        if link < self.sizes.links && self.fits(at) {
            self.pool.give_back(link, at, now_ms);
        }
    }

    /// Lends a link of a key, best one that was told this place. Takes no memory.
    pub fn lend(&mut self, key: u32, place: u32) -> Option<u32> {
        if key < self.sizes.keys && place < self.sizes.places {
            self.pool.lend(key, place)
        } else {
            None
        }
    }

    /// Takes out of a hostgroup the link that may be lent longest. Takes no memory.
    pub fn evict(&mut self, group: u32) -> Option<u32> {
        if group < self.sizes.groups {
            self.pool.evict(group)
        } else {
            None
        }
    }

    /// Takes out a link that was given back so long ago. Takes no memory.
    pub fn expire(&mut self, now_ms: u64, idle_ms: u64) -> Option<u32> {
        self.pool.expire(now_ms, idle_ms)
    }

    /// Since when the link rests that was given back longest ago.
    pub fn rests_since(&self) -> Option<u64> {
        self.pool.rests_since()
    }

    /// Puts aside one of the links to a server that may be lent. Takes no memory.
    pub fn put_aside(&mut self, server: u32, now_ms: u64) -> Option<u32> {
        if server < self.sizes.servers {
            self.pool.put_aside(server, now_ms)
        } else {
            None
        }
    }

    /// One of the links to a server that stand aside may be lent again. Takes no memory.
    pub fn bring_back(&mut self, server: u32, now_ms: u64) -> Option<u32> {
        if server < self.sizes.servers {
            self.pool.bring_back(server, now_ms)
        } else {
            None
        }
    }

    /// A link is closed or lost. Takes no memory.
    pub fn close(&mut self, link: u32) {
        if link < self.sizes.links {
            self.pool.close(link);
        }
    }

    /// A client waits for a link of a key, since a moment. Takes no memory.
    pub fn wait(&mut self, client: u32, key: u32, since_ms: u64) {
        if client < self.sizes.waiters && key < self.sizes.keys {
            self.pool.wait(client, key, since_ms);
        }
    }

    /// A client waits no more. Takes no memory.
    pub fn leave(&mut self, client: u32) {
        if client < self.sizes.waiters {
            self.pool.leave(client);
        }
    }

    /// The client that waits longest for a link of a key.
    pub fn oldest_of(&self, key: u32) -> Option<u32> {
        if key < self.sizes.keys {
            self.pool.oldest_of(key)
        } else {
            None
        }
    }

    /// How many links of a key may be lent.
    pub fn idle(&self, key: u32) -> u32 {
        if key < self.sizes.keys {
            self.pool.idle(key)
        } else {
            0
        }
    }

    /// How many links of a key may be lent, log in, or have a step under way.
    pub fn coming(&self, key: u32) -> u64 {
        if key < self.sizes.keys {
            self.pool.coming(key)
        } else {
            0
        }
    }
}
