// Links that may be lent.
ghost use Rattle.std.specs.Prelude.{◌≡◌, ◌<◌, length, IfOk, IfSome, slice_get};
ghost use Rattle.slot_lists.specs.Orders.{has, last as oldest_of};
ghost use Rattle.conn_pool.specs.Shelves.{Fits, of_group, of_key, of_place, of_server, shelf_of, shelved, unshelved};
ghost use Rattle.slots_by_age.specs.Aged.{IsNone};
ghost use Rattle.conn_pool.specs.Sized.{AreNone, IsSmall};

use crate::shelf::Shelf;
use crate::sizes::Sizes;
use mx_base::OutOfMemory;
use slots_by_age::SlotsByAge;
use std::alloc::Global;
use std::marker::Model;

// By key and by place.
#[derive(Drop)]
struct Told {
    keys: SlotsByAge,
    places: SlotsByAge,
}

// By hostgroup and by server.
#[derive(Drop)]
struct Hosts {
    groups: SlotsByAge,
    servers: SlotsByAge,
}

/// Links that may be lent, by key, by place, by hostgroup and by server, each from the one that came last.
#[derive(Drop)]
pub struct Lendable {
    told: Told,
    hosts: Hosts,
}

impl Model for Lendable {
    ghost use Rattle.conn_pool.specs.Shelves.{AreSame, Shelves, shelves};

    ghost Value = { Shelves };

    ghost view = { λ s. shelves s.told.keys s.told.places s.hosts.groups s.hosts.servers };

    ghost invariant = { λ s. AreSame s.told.keys s.told.places s.hosts.groups s.hosts.servers };
}

impl Lendable {
    /// None yet.
    pub fn new(alloc: Global, sizes: &Sizes) -> Result<Self, OutOfMemory>
        requires { IsSmall sizes.now }
        ensures { IfOk result (λ all. AreNone all sizes.now) }
    {
        let told = none_told(alloc, sizes)?;
        let hosts = no_hosts(alloc, sizes)?;
        Ok(Lendable { told, hosts })
    }

    /// Whether a link may be lent.
    pub fn has(&self, link: u32) -> bool
        requires { link < self.now.slots }
        ensures { result ≡ has link self.now.order }
    {
        self.told.keys.has(link)
    }

    /// The key of those whom a link serves, or served last.
    pub fn key(&self, link: u32) -> u32
        requires { link < self.now.slots }
        ensures { result ≡ (shelf_of self.now link).key }
    {
        self.told.keys.kind(link)
    }

    /// Where a link belongs, or belonged last.
    pub fn shelf(&self, link: u32) -> Shelf
        requires { link < self.now.slots }
        ensures is { result ≡ shelf_of self.now link }
        ensures fits { Fits self.now result }
    {
        Shelf {
            key: self.told.keys.kind(link),
            place: self.told.places.kind(link),
            group: self.hosts.groups.kind(link),
            server: self.hosts.servers.kind(link),
        }
    }

    /// How many serve a key.
    pub fn count(&self, key: u32) -> u32
        requires { key < self.now.keys }
        ensures { result ≡ length (of_key self.now key) }
    {
        self.told.keys.count(key)
    }

    /// Of those that serve a key the one that came last.
    pub fn newest_of_key(&self, key: u32) -> Option<u32>
        requires { key < self.now.keys }
        ensures is { result ≡ slice_get (of_key self.now key) 0 }
        ensures within { IfSome result (λ link. link < self.now.slots) }
    {
        self.told.keys.newest(key)
    }

    /// Of those that were told a place the one that came last.
    pub fn newest_of_place(&self, place: u32) -> Option<u32>
        requires { place < self.now.places }
        ensures is { result ≡ slice_get (of_place self.now place) 0 }
        ensures within { IfSome result (λ link. link < self.now.slots) }
    {
        self.told.places.newest(place)
    }

    /// Of a hostgroup the one that came first.
    pub fn oldest_of_group(&self, group: u32) -> Option<u32>
        requires { group < self.now.groups }
        ensures is { result ≡ oldest_of (of_group self.now group) }
        ensures within { IfSome result (λ link. link < self.now.slots) }
    {
        self.hosts.groups.oldest(group)
    }

    /// Of a server the one that came first.
    pub fn oldest_of_server(&self, server: u32) -> Option<u32>
        requires { server < self.now.servers }
        ensures is { result ≡ oldest_of (of_server self.now server) }
        ensures within { IfSome result (λ link. link < self.now.slots) }
    {
        self.hosts.servers.oldest(server)
    }

    /// A link may be lent, from a moment on.
    pub fn put(&mut self, link: u32, at: &Shelf, moment: u64)
        requires link { link < self.old.slots }
        requires fits { Fits self.old at.now }
        ensures { self.new ≡ shelved self.old link at.now moment }
    {
        self.told.keys.put(link, at.key, moment);
        self.told.places.put(link, at.place, moment);
        self.hosts.groups.put(link, at.group, moment);
        self.hosts.servers.put(link, at.server, moment);
    }

    /// A link may be lent no more.
    pub fn take(&mut self, link: u32)
        requires { link < self.old.slots }
        ensures { self.new ≡ unshelved self.old link }
    {
        self.told.keys.take(link);
        self.told.places.take(link);
        self.hosts.groups.take(link);
        self.hosts.servers.take(link);
    }
}

fn none_told(alloc: Global, sizes: &Sizes) -> Result<Told, OutOfMemory>
    requires { IsSmall sizes.now }
    ensures keys { IfOk result (λ told. IsNone told.keys sizes.now.links sizes.now.keys) }
    ensures places { IfOk result (λ told. IsNone told.places sizes.now.links sizes.now.places) }
{
    let keys = SlotsByAge::new(alloc, sizes.links, sizes.keys)?;
    let places = SlotsByAge::new(alloc, sizes.links, sizes.places)?;
    Ok(Told { keys, places })
}

fn no_hosts(alloc: Global, sizes: &Sizes) -> Result<Hosts, OutOfMemory>
    requires { IsSmall sizes.now }
    ensures groups { IfOk result (λ hosts. IsNone hosts.groups sizes.now.links sizes.now.groups) }
    ensures servers { IfOk result (λ hosts. IsNone hosts.servers sizes.now.links sizes.now.servers) }
{
    let groups = SlotsByAge::new(alloc, sizes.links, sizes.groups)?;
    let servers = SlotsByAge::new(alloc, sizes.links, sizes.servers)?;
    Ok(Hosts { groups, servers })
}
