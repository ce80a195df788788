// Whose turn it is to be named.
ghost use Rattle.std.specs.Prelude.{◌≡◌, ℕ, ◌+◌, ◌^◌, ◌<◌, ◌≤◌, ◌==◌, ◌&&◌, if◌then◌else◌, not, true, false, length, is_some, Some, None, OnOk, IfSome, IfNone};
ghost use Rattle.std.specs.Option.{option_or};
ghost use Rattle.std.specs.Ordering.{nat_cmp};
ghost use Rattle.std.specs.BTreeMap.{get};
ghost use Rattle.std.specs.BTreeSet.{contains};
ghost use Rattle.mem_wire.specs.Turns.{HasNone, Sees, Seen, Joins, IsFirstLine};

use crate::lines::name_in;
use crate::track::Track;
use crate::tracks::{link_at, place_of};
use mx_base::{LinkId, OutOfMemory};
use recording::RecordEntry;
use std::alloc::Global;
use std::collections::{BTreeMap, BTreeSet};

/// The links that a wake may still name, in order. A place is that of a track, a line its number in the recording.
#[derive(Drop)]
pub(crate) struct Turns {
    /// The first line of the last wake that names each place.
    pub firsts: BTreeMap<usize, usize>,
    /// Those lines with their places, but for some whose links aren't to be named.
    pub lines: BTreeMap<usize, usize>,
    /// The links that may be ready now, or in a later wake without a line of theirs.
    pub pending: BTreeSet<u64>,
    /// No link before this one is still to be named.
    pub link: u64,
}

impl Turns {
    /// Nothing is to be named. Takes no memory.
    pub fn new(alloc: Global) -> Self
        ensures { HasNone result }
    {
        Turns {
            firsts: BTreeMap::new(alloc),
            lines: BTreeMap::new(alloc),
            pending: BTreeSet::new(alloc),
            link: 0,
        }
    }

    /// A wake begins, whose lines are numbered from this number on.
    pub fn wake(
        &mut self,
        alloc: Global,
        tracks: &[Track],
        from: usize,
        lines: &[RecordEntry],
    ) -> Result<(), OutOfMemory>
        requires { from + length lines.now < 2 ^ 64 }
        ensures { OnOk result (Seen tracks.now from lines.now self.old self.new) }
    {
        self.firsts = BTreeMap::new(alloc);
        self.lines = BTreeMap::new(alloc);
        self.link = 0;
        for (i, line) in lines.iter().enumerate() {
            self.see(tracks, line, from + i)?;
        }
        Ok(())
    }

    // The wake has this line, of this number.
    fn see(
        &mut self,
        tracks: &[Track],
        line: &RecordEntry,
        number: usize,
    ) -> Result<(), OutOfMemory>
        ensures { OnOk result (Sees tracks.now line.now number self.old self.new) }
    {
        let Some(name) = name_in(line) else {
            return Ok(());
        };
        let at = place_of(name);
        self.stir(link_at(tracks, at))?;
        self.note(at, number)
    }

    // The link may be ready, if there is one.
    fn stir(&mut self, link: Option<LinkId>) -> Result<(), OutOfMemory>
        ensures frame { self.new ≡ record self.old { pending = self.new.pending } }
        ensures mine { OnOk result (IfSome link (λ l. contains nat_cmp self.new.pending l.0 ≡ true)) }
        ensures kept { (n : ℕ) → contains nat_cmp self.old.pending n ≡ true → contains nat_cmp self.new.pending n ≡ true }
    {
        if let Some(link) = link {
            self.pending.insert(link.0)?;
        }
        Ok(())
    }

    // The line names the place. It counts where no line did before.
    fn note(&mut self, at: usize, line: usize) -> Result<(), OutOfMemory>
        ensures pending { self.new.pending ≡ self.old.pending }
        ensures link { self.new.link ≡ self.old.link }
        ensures firsts { OnOk result ((q : ℕ) → get nat_cmp self.new.firsts q ≡ option_or (get nat_cmp self.old.firsts q) (if q == at then Some line else None)) }
        ensures lines { OnOk result ((q : ℕ) → get nat_cmp self.new.lines q ≡ (if q == line && not (is_some (get nat_cmp self.old.firsts at)) then Some at else get nat_cmp self.old.lines q)) }
    {
        if self.firsts.contains_key(&at) {
            return Ok(());
        }
        self.firsts.insert(at, line)?;
        self.lines.insert(line, at)?;
        Ok(())
    }

    /// The link of this number comes, and its track is at this place.
    pub fn join(&mut self, number: u64, at: usize) -> Result<(), OutOfMemory>
        ensures { OnOk result (Joins number at self.old self.new) }
    {
        self.pending.insert(number)?;
        if let Some(line) = self.firsts.get(&at) {
            self.lines.insert(*line, at)?;
        }
        Ok(())
    }

    /// The earliest line, with its place.
    pub fn first_line(&self) -> Option<(usize, usize)>
        ensures some { IfSome result (λ first. IsFirstLine self.now first.0 first.1) }
        ensures none { IfNone result ((line : ℕ) → get nat_cmp self.now.lines line ≡ None) }
    {
        let (line, at) = self.lines.first_key_value()?;
        Some((*line, *at))
    }

    /// The first link from where the search stands that may be ready.
    pub fn next_pending(&self) -> Option<u64>
        ensures some { IfSome result (λ n. contains nat_cmp self.now.pending n ≡ true) }
        ensures later { IfSome result (λ n. self.now.link ≤ n) }
        ensures least { IfSome result (λ n. (q : ℕ) → self.now.link ≤ q → contains nat_cmp self.now.pending q ≡ true → n ≤ q) }
        ensures none { IfNone result ((q : ℕ) → self.now.link ≤ q → contains nat_cmp self.now.pending q ≡ false) }
    {
        self.pending.range(self.link..).next().copied()
    }

    /// The search goes on behind the link, which stays only where it may be ready later.
    pub fn pass(&mut self, number: u64, keep: bool)
        requires { number + 1 < 2 ^ 64 }
        ensures frame { self.new ≡ record self.old { pending = self.new.pending; link = number + 1 } }
        ensures pending { (n : ℕ) → contains nat_cmp self.new.pending n ≡ (if n == number then keep && contains nat_cmp self.old.pending n else contains nat_cmp self.old.pending n) }
    {
        self.link = number + 1;
        if !keep {
            self.pending.remove(&number);
        }
    }
}
