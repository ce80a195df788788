// Where the clients and the links stand.
ghost use Rattle.std.specs.Prelude.{◌≡◌, ◌+◌, ◌<◌, ◌≤◌, ◌&&◌, ◌||◌, not, length, slice_get, IfOk, IfSome, OnOk, OnErr};
ghost use Rattle.std.specs.List.{All, list_all, position};
ghost use Rattle.std.specs.Option.{option_map};
ghost use Rattle.handshake.specs.Spelling.{IsText};
ghost use Rattle.mx_wire.specs.Answers.{ReadsAtMost};
ghost use Rattle.mx_wire.specs.Adds.{Adds};
ghost use Rattle.scripted_wire.specs.Links.{has_news, link_rests, read_on};
ghost use Rattle.scripted_wire.specs.Marks.{option_log};
ghost use Rattle.scripted_wire.specs.Plays.{ServesTo};
ghost use Rattle.scripted_wire.specs.Sound.{AddsMarks};
ghost use Rattle.scripted_wire.specs.Stages.{IsFirst, KeepsLinks, Accepts, Opens, news_from, ReadsAt, Changes, closes, Writes, is_over, awake};

use crate::hosts::Hosts;
use crate::link::{Link, Peer};
use crate::salt::salt_of;
use crate::script::Script;
use crate::server_link::{LetsIn, ServerLink};
use crate::waiting::Waiting;
use mx_base::{ClientNo, LinkId, OutOfMemory};
use mx_wire::{Entry, Got, ToldLog};
use server_rule::TameServer;
use std::alloc::Global;

/// The clients that wait, the links by their numbers, the moment, and the number of the link from which on the last wake may still
/// name links.
#[derive(Drop)]
pub(crate) struct Stage {
    pub waiting: Waiting,
    pub links: Vec<Link>,
    pub moment: u64,
    pub next: usize,
}

// The first link from this one on of which there is something new.
fn news_from(links: &[Link], from: usize) -> Option<usize>
    ensures value { result ≡ news_from links.now from }
    ensures bound { IfSome result (λ at. at < length links.now) }
{
    if from >= links.len() {
        return None;
    }
    match first_news(&links[from..]) {
        Some(at) => Some(from + at),
        None => None,
    }
}

// The first link of which there is something new.
fn first_news(links: &[Link]) -> Option<usize>
    ensures first { result ≡ position has_news links.now }
    ensures bound { IfSome result (λ at. at < length links.now) }
{
    links.iter().position(|link| link.has_news())
}

// Whether one of two is so.
fn either(one: bool, other: bool) -> bool
    ensures { result ≡ (one || other) }
{
    one || other
}

// Adds a mark, where there is one.
fn add_mark(told: &mut ToldLog, mark: Option<Entry>)
    ensures { Adds told.old (option_log mark) told.new }
{
    if let Some(mark) = mark {
        told.add(mark);
    }
}

impl Stage {
    /// All clients wait. Takes no memory.
    pub fn new(alloc: Global, scripts: Vec<Script>) -> Self
        requires { All (λ script. IsText script.user) scripts.items }
        ensures { IsFirst scripts.items result }
    {
        Stage {
            waiting: Waiting::new(scripts),
            links: Vec::new(alloc),
            moment: 0,
            next: 0,
        }
    }

    /// The link that comes next.
    pub fn next_link(&self) -> LinkId
        ensures { result.0 ≡ length self.now.links.items }
    {
        LinkId(self.links.len() as u64)
    }

    /// The next client comes on the next link, where one waits. Behind OutOfMemory nothing is promised but that no link went.
    pub fn accept(&mut self, alloc: Global) -> Result<bool, OutOfMemory>
        ensures ok { IfOk result (λ came. Accepts came self.old self.new) }
        ensures err { OnErr result (KeepsLinks self.old self.new) }
    {
        let Some(client) = self.waiting.next(alloc)? else {
            return Ok(false);
        };
        self.links.push(Link::new(Peer::Client(client)))?;
        Ok(true)
    }

    /// The next link is one to the server at this place.
    pub fn open(&mut self, alloc: Global, server: usize) -> Result<(), OutOfMemory>
        ensures ok { OnOk result (Opens server self.old self.new) }
        ensures err { OnErr result (KeepsLinks self.old self.new) }
    {
        let number = self.links.len() as u64;
        let link = ServerLink::new(
            alloc,
            LetsIn::Anybody,
            server,
            ClientNo(number),
            salt_of(number),
        )?;
        self.links.push(Link::new(Peer::Server(link)))?;
        Ok(())
    }

    /// The next link that the last wake names.
    pub fn name(&mut self) -> Option<LinkId>
        ensures frame { self.new ≡ record self.old { next = self.new.next } }
        ensures named { option_map (λ link. link.0) result ≡ news_from self.old.links.items self.old.next }
        ensures some { IfSome result (λ link. self.new.next ≡ link.0 + 1) }
        ensures bound { IfSome result (λ link. link.0 < length self.old.links.items) }
    {
        let at = news_from(&self.links, self.next)?;
        self.next = at + 1;
        Some(LinkId(at as u64))
    }

    /// The router reads of a link.
    pub fn read(&mut self, link: LinkId, into: &mut [u8]) -> Got
        requires { 0 < length into.old }
        ensures reads { ReadsAt (slice_get self.old.links.items link.0) into.old into.new result }
        ensures after { Changes (read_on result) link.0 self.old self.new }
        ensures bound { ReadsAtMost (length into.old) result }
        ensures right { result ≡ Got.Failed → ⊥ }
    {
        if link.0 >= self.links.len() as u64 {
            return Got::NotReady;
        }
        self.links[link.0 as usize].give(into)
    }

    /// The router writes on a link. Behind OutOfMemory nothing is promised but that no link went.
    pub fn write(&mut self, alloc: Global, link: LinkId, piece: &[u8]) -> Result<(), OutOfMemory>
        ensures ok { OnOk result (Writes piece.now link.0 self.old self.new) }
        ensures kept { KeepsLinks self.old self.new }
    {
        if link.0 >= self.links.len() as u64 {
            return Ok(());
        }
        self.links[link.0 as usize].hear(alloc, &self.waiting, piece)
    }

    /// The router closes a link.
    pub fn close(&mut self, link: LinkId)
        ensures { Changes closes link.0 self.old self.new }
    {
        if link.0 < self.links.len() as u64 {
            let link = &mut self.links[link.0 as usize];
            link.closed = true;
        }
    }

    /// Each server does what it does at a wake, in the order of their links, which the log tells. Says whether one did anything.
    /// Behind OutOfMemory nothing is promised but that no link went.
    pub fn serve<R: TameServer>(
        &mut self,
        alloc: Global,
        hosts: &mut Hosts<R>,
        told: &mut ToldLog,
    ) -> Result<bool, OutOfMemory>
        ensures served { IfOk result (λ worked. ServesTo R.step (length self.old.links.items) self.old hosts.old told.old worked self.new hosts.new told.new) }
        ensures marks { OnOk result (AddsMarks (length self.old.links.items) told.old told.new) }
        ensures kept { KeepsLinks self.old self.new }
    {
        let mut worked = false;
        for at in 0..self.links.len() {
            let did = self.links[at].serve(alloc, hosts)?;
            add_mark(told, did.mark(LinkId(at as u64)));
            worked = either(worked, did.is_work());
        }
        Ok(worked)
    }

    // Whether nothing is to come, where no server has anything to do.
    fn is_over(&self) -> bool
        ensures { result ≡ is_over self.now }
    {
        self.waiting.is_empty() && self.all_rest()
    }

    /// Whether nothing is to come, where servers did something or nothing.
    pub fn is_done(&self, worked: bool) -> bool
        ensures { result ≡ (not worked && is_over self.now) }
    {
        !worked && self.is_over()
    }

    // Whether nothing is to come of the links.
    fn all_rest(&self) -> bool
        ensures { result ≡ list_all (link_rests self.now.waiting.scripts) self.now.links.items }
    {
        let waiting = &self.waiting;
        self.links.iter().all(|link| link.rests(waiting))
    }

    /// A wake begins, a millisecond behind the last.
    pub fn wake(&mut self)
        ensures next { self.new ≡ awake self.new.moment self.old }
        ensures later { self.old.moment ≤ self.new.moment }
    {
        self.moment = self.moment.saturating_add(1);
        self.next = 0;
    }
}
