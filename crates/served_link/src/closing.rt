// Why a link is to be closed.
ghost use Rattle.std.specs.Prelude.{◌≡◌};
ghost use Rattle.served_link.specs.Closes.{is_idle_long, is_joined, is_let_go, is_nobodys, is_past_reset, is_refused, is_spoilt, is_to_close, is_to_quit, is_unlent};

use crate::row::Row;
use link_state::Carried;

/// What else decides whether a link is closed: whether its server isn't to be used at all or is gone, and whether for nothing new; whether
/// a statement of another key waits where no server of the hostgroup has room; the moment, and for how long a link may be idle.
#[derive(Clone, Copy)]
pub struct Outside {
    pub off: bool,
    pub soft: bool,
    pub crowded: bool,
    pub now: u64,
    pub idle_ms: u64,
}

fn is_joined(carries: Carried) -> bool
    ensures { result ≡ is_joined carries }
{
    match carries {
        Carried::Joined(_) => true,
        _ => false,
    }
}

fn is_nobodys(carries: Carried) -> bool
    ensures { result ≡ is_nobodys carries }
{
    match carries {
        Carried::Nobody => true,
        _ => false,
    }
}

impl Row {
    /// Whether it can't be used: it was lost, its login failed, bytes there were bad, or its server is off. Takes no memory.
    pub fn is_spoilt(&self, off: bool) -> bool
        ensures { result ≡ is_spoilt self.now off }
    {
        self.lost || self.link.spoilt || off
    }

    // Its step was refused, and no session goes on there.
    fn is_refused(&self) -> bool
        ensures { result ≡ is_refused self.now }
    {
        self.refused && !is_joined(self.link.state.carries)
    }

    // It carries a session that was left, which no reset ends.
    fn is_past_reset(&self) -> bool
        ensures { result ≡ is_past_reset self.now }
    {
        match self.left {
            Some(left) => left.lasting && is_joined(self.link.state.carries),
            None => false,
        }
    }

    /// Whether it is nobody's: the router is logged in there, and it carries no session. Takes no memory.
    pub fn is_unlent(&self) -> bool
        ensures { result ≡ is_unlent self.now }
    {
        self.link.is_in() && is_nobodys(self.link.state.carries)
    }

    // It was used so long ago.
    fn is_idle_long(&self, outside: Outside) -> bool
        ensures { result ≡ is_idle_long self.now outside }
    {
        self.used <= outside.now && outside.now - self.used >= outside.idle_ms
    }

    // It is nobody's, and its server is to be left, it was idle for long, or it makes room.
    fn is_let_go(&self, outside: Outside) -> bool
        ensures { result ≡ is_let_go self.now outside }
    {
        self.is_unlent() && (outside.soft || self.is_idle_long(outside) || outside.crowded)
    }

    /// Whether it is to be told QUIT, and closed. Of what stands there the answer is awaited first, where the link can be used. Takes no
    /// memory.
    pub fn is_to_quit(&self, outside: Outside) -> bool
        ensures { result ≡ is_to_quit self.now outside }
    {
        self.is_spoilt(outside.off)
            || self.amiss
            || (self.link.state.is_quiet() && (self.is_refused() || self.is_past_reset()))
            || self.is_let_go(outside)
    }

    /// Whether it is to be closed: what was told QUIT is, whatever became of the cause. Takes no memory.
    pub fn is_to_close(&self, outside: Outside) -> bool
        ensures { result ≡ is_to_close self.now outside }
    {
        self.link.quits || self.is_to_quit(outside)
    }
}
