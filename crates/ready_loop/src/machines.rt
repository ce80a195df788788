// A machine that is told of events, and asks for acts.
ghost use Rattle.std.specs.Prelude.{◌≡◌, ℕ, ◌<◌, List, Option, Some, Bool, false, take, OnOk, IsSome, IfSome, IfNone};
ghost use Rattle.mx_base.specs.declared.names.LinkId.{LinkId};
ghost use Rattle.mx_base.specs.declared.names.Port.{Port};
ghost use Rattle.mx_base.specs.declared.names.Address.{Address};
ghost use Rattle.mx_wire.specs.Log.{Log};
ghost use Rattle.mx_wire.specs.declared.entry.Entry.{Entry};
ghost use Rattle.mx_wire.specs.declared.entry.Entry.TheVariants as entry;
ghost use Rattle.ready_loop.specs.Machine.{Target, IsHeard, HasActed, IsAwaited, CarriesOver, Keeps, IsToldOf, Acts, OwesFarewell, IsQuiet};
ghost use Rattle.ready_loop.specs.Changes.{ChangesOnly, SaysSame, TakesChange};
ghost use Rattle.mx_base.specs.Sent.{Sent, IsLent, MayTake};
ghost use Rattle.ready_loop.specs.Drained.{IsDue};

use mx_base::{Address, LinkId, OutOfMemory, Piece, Port, ServerId, Tag};

/// What a machine is told. The bytes of a `Got` stand beside it.
#[derive(Clone, Copy)]
pub enum Event {
    Woke {
        now_ms: u64,
    },
    Accepted {
        port: Port,
        link: LinkId,
        salt: [u8; 20],
    },
    Opened {
        server: ServerId,
        link: LinkId,
    },
    OpenFailed {
        server: ServerId,
    },
    Got {
        link: LinkId,
    },
    /// A read answered End.
    Ended {
        link: LinkId,
    },
    /// A read or a write answered Failed.
    Failed {
        link: LinkId,
    },
}

/// What a machine asks for.
#[derive(Clone, Copy)]
pub enum Act {
    Open { server: ServerId, address: Address },
    Close { link: LinkId },
}

/// A machine that stands for a log: each call carries what it says of the log so far over to the log with one
/// entry more. All calls but `take` take no memory.
pub trait Machine {
    /// Where the machine may be after this log.
    ghost stands: { Self → Log → Type 0 };

    /// What it has to write on a link.
    ghost sends: { Self → LinkId → Option Sent };

    /// Whether it wants a link to be read.
    ghost reads: { Self → LinkId → Bool };

    /// The moment at which it wants to be woken.
    ghost until: { Self → ℕ };

    /// The open that it asked for last.
    ghost awaits: { Self → Option Target };

    ghost is_stopped: { Self → Bool };

    /// The links that it may have something new to write on, or to read, since they were asked for.
    ghost changed: { Self → LinkId → Bool };

    /// How many of those it has yet to name, at most.
    ghost unnamed: { Self → ℕ };

    /// Whether it has an act to ask for. The loop does all of them before it waits.
    ghost asks: { Self → Bool } = { λ _. false };

    ghost address_of: { Self → Port → Address };

    ghost most: { Self → ℕ };

    /// What it serves by, which nothing changes.
    ghost Service: { Type 0 };

    ghost serves_by: { Self → Service };

    /// What is owed to a link behind a log. All of it is lent, in one piece.
    ghost owes: { Service → Log → LinkId → (piece : List ℕ) → Type 0 };

    /// Tells of an event. `bytes` are those read for a `Got`, and else none. What the machine asked for is done by then, but
    /// for the open whose answer the event is.
    fn take(&mut self, event: Event, bytes: &mut [u8]) -> Result<(), OutOfMemory>
        requires heard { IsHeard (awaits self.old) event }
        requires acted { HasActed (asks self.old) event }
        ensures carries { OnOk result ((e : Entry) → IsToldOf (until self.old) (awaits self.old) event bytes.old e → CarriesOver stands (IsDue reads sends asks) self.old self.new e) }
        ensures changes { OnOk result (ChangesOnly changed reads sends self.old self.new) }
        ensures serves_by { serves_by self.new ≡ serves_by self.old };

    /// The next act to do, oldest first. The bytes that are left for a link are offered to one write before it
    /// closes, and what that write answers is no event.
    fn next_act(&mut self) -> Option<Act>
        ensures awaits { IfSome result (IsAwaited (awaits self.new)) }
        ensures act { Acts stands (IsDue reads sends asks) sends self.old self.new result }
        ensures owed { OwesFarewell stands (owes (serves_by self.old)) sends self.old self.new result }
        ensures changes { ChangesOnly changed reads sends self.old self.new }
        ensures none { IfNone result (asks self.new ≡ false) }
        ensures serves_by { serves_by self.new ≡ serves_by self.old };

    /// The next link on which there may be something new to write, or which may be read again. It isn't named
    /// twice but for a new reason.
    fn next_changed(&mut self) -> Option<LinkId>
        ensures keeps { Keeps stands self.old self.new }
        ensures same { SaysSame reads sends until is_stopped self.old self.new }
        ensures named { TakesChange changed self.old self.new result }
        ensures none { IfNone result ((link : LinkId) → changed self.old link ≡ false) }
        ensures asks { asks self.new ≡ asks self.old }
        ensures fewer { IsSome result → unnamed self.new < unnamed self.old }
        ensures serves_by { serves_by self.new ≡ serves_by self.old };

    /// What is to be written on a link, if anything is.
    fn outgoing(&self, link: LinkId) -> Option<Piece<'_>>
        ensures { IsLent result (sends self.now link) };

    /// So many of the bytes that `outgoing` lends were written. What the machine asked for is done by then.
    fn taken(&mut self, link: LinkId, n: usize)
        requires lent { MayTake (sends self.old link) n }
        requires acted { asks self.old ≡ false }
        ensures carries { (sent : Sent) → sends self.old link ≡ Some sent → CarriesOver stands (IsDue reads sends asks) self.old self.new (entry.Wrote link sent.tag (take n sent.bytes)) }
        ensures changes { ChangesOnly changed reads sends self.old self.new }
        ensures serves_by { serves_by self.new ≡ serves_by self.old };

    /// Whether the link is to be read.
    fn wants_read(&self, link: LinkId) -> bool
        ensures { result ≡ reads self.now link };

    /// The moment at which it wants to be woken, in milliseconds.
    fn until_ms(&self) -> u64
        ensures { result ≡ until self.now };

    /// Whether the loop is to end.
    fn stopped(&self) -> bool
        ensures { result ≡ is_stopped self.now };

    /// The address at which to listen.
    fn address(&self, port: Port) -> Address
        ensures { result ≡ address_of self.now port };

    /// How many links it may have open at a time.
    fn most_links(&self) -> u32
        ensures { result ≡ most self.now };

    /// A machine stands still where it is told of nothing. Does nothing.
    fn quiet()
        ensures { (machine : Self) (e : Entry) → IsQuiet e → CarriesOver stands (IsDue reads sends asks) machine machine e };

    /// What it lends is owed, once what it asked for is done. Does nothing.
    fn lends()
        ensures { (machine : Self) (log : Log) (link : LinkId) (sent : Sent) → stands machine log → asks machine ≡ false → sends machine link ≡ Some sent → owes (serves_by machine) log link sent.bytes };
}
