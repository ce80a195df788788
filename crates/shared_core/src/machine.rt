// The core as a machine that the loop tells of events.
ghost use Rattle.std.specs.Prelude.{◌≡◌, None, OnOk, false, is_some, true};
ghost use Rattle.core_texts.specs.Texts.{HasBegun};
ghost use Rattle.core_service.specs.declared.service.Service.{Service};
ghost use Rattle.marked_tables.specs.Goes.{GoesOn, reads_on};
ghost use Rattle.mx_wire.specs.declared.entry.Entry.TheVariants as entry;
ghost use Rattle.mx_wire.specs.Log.{Log};
ghost use Rattle.shared_core.specs.Machine.{IsRuledAnew, IsStanding, Tells, is_stopped, unloaded};
ghost use Rattle.shared_core.specs.Says.{IsAskedFor, address_of, awaits, changed, most_of, reads, sends, unnamed};
ghost use Rattle.shared_core.specs.Stands.{ActsSo, Carries, IsClosed, IsSettled, Moves, shown};

use crate::router::Router;
use crate::whole::Core;
use core_service::Service;
use mx_base::{Address, LinkId, OutOfMemory, Piece, Port};
use ready_loop::{Act, Event, Machine};

/// The links that may be open at a time beside those of clients: links to servers, links of administrators, and one on each port that is
/// being refused.
const OTHER_LINKS: u32 = 10_018;

impl Router {
    fn told(&mut self, service: &Service, event: Event, bytes: &mut [u8]) -> Result<(), OutOfMemory>
        requires { HasBegun self.old.texts }
        ensures tells { OnOk result (Tells service.now event bytes.old self.old self.new) }
        ensures moves { OnOk result (Moves self.old self.new) }
    {
        match event {
            Event::Woke { now_ms } => self.woke(service, now_ms),
            Event::Accepted { port, link, salt } => self.accepted(service, port, link, salt),
            Event::Opened { link, .. } => self.opened(service, link),
            Event::OpenFailed { server } => self.open_failed(service, server),
            Event::Got { link } => self.got(service, link, bytes),
            Event::Ended { link } => self.lost(service, link),
            Event::Failed { link } => self.lost(service, link),
        }
    }

    fn got(&mut self, service: &Service, link: LinkId, bytes: &mut [u8]) -> Result<(), OutOfMemory>
        requires { HasBegun self.old.texts }
        ensures carries { OnOk result (reads_on self.old.marked link ≡ true → IsSettled self.old → Carries service.now (entry.Got link bytes.old) self.old self.new) }
        ensures moves { OnOk result (Moves self.old self.new) }
    {
        if self.marked.server(link).is_some() {
            self.server_says(service, link, bytes)
        } else {
            self.client_says(service, link, bytes)
        }
    }

    // It begins; the event goes through; what was taken up by it is noted; and then what is chosen by it is done.
    fn take(&mut self, service: &Service, event: Event, bytes: &mut [u8]) -> Result<(), OutOfMemory>
        ensures tells { OnOk result (Tells service.now event bytes.old self.old self.new) }
        ensures moves { OnOk result (Moves self.old self.new) }
    {
        router_laws::wakes::settling_stands();
        self.begins()?;
        self.told(service, event, bytes)?;
        self.notes()?;
        self.settle(service)?;
        self.turns();
        Ok(())
    }

    // What was closed is forgotten, and the next act is asked for.
    fn next_act(&mut self, service: &Service) -> Option<Act>
        ensures acts { ActsSo self.old self.new result }
        ensures goes { GoesOn self.old.marked self.new.marked }
        ensures asked { IsAskedFor self.new.asked result }
        ensures acting { self.new.acting ≡ is_some result }
    {
        self.forget_closed();
        self.asked = None;
        let act = self.acts(service);
        self.acting = act.is_some();
        act
    }

    // Where nothing was told since there was none, there is none; as there is none, the moment is known at which it wants to be woken.
    #[tactic(auto, using(crate::proofs::Acting::still_acts, marked_tables::proofs::Going::still_goes))]
    fn acts(&mut self, service: &Service) -> Option<Act>
        requires closed { IsClosed (shown self.old) }
        requires unasked { self.old.asked ≡ None }
        ensures acts { ActsSo self.old self.new result }
        ensures goes { GoesOn self.old.marked self.new.marked }
        ensures asked { IsAskedFor self.new.asked result }
    {
        if !self.acting {
            return None;
        }
        let act = self.act();
        self.times(service);
        act
    }
}

impl Core {
    // Rules that an administrator loaded come in force.
    fn follow_rules(&mut self)
        ensures stands { (log : Log) → IsStanding self.old log → IsStanding self.new log }
        ensures serves { unloaded self.new ≡ unloaded self.old }
        ensures router { IsRuledAnew self.old.router self.new.router }
        ensures settled { IsSettled self.new.router }
    {
        router_laws::decisions::routers_load();
        match self.router.admin.loaded.take() {
            Some(loaded) => self.service.loaded = Some(loaded),
            None => {}
        }
    }
}

impl Machine for Core {
    ghost stands = { IsStanding };

    ghost sends = { sends };

    ghost reads = { reads };

    ghost until = { λ core. core.router.until };

    ghost awaits = { awaits };

    ghost is_stopped = { is_stopped };

    ghost changed = { changed };

    ghost unnamed = { unnamed };

    ghost asks = { λ core. core.router.acting };

    ghost address_of = { address_of };

    ghost most = { most_of };

    ghost Service = { Service };

    ghost serves_by = { unloaded };

    ghost owes = { λ service log link piece. Unit {0} };

    fn take(&mut self, event: Event, bytes: &mut [u8]) -> Result<(), OutOfMemory> {
        self.follow_rules();
        self.router.take(&self.service, event, bytes)?;
        Ok(())
    }

    fn next_act(&mut self) -> Option<Act> {
        self.router.next_act(&self.service)
    }

    fn next_changed(&mut self) -> Option<LinkId> {
        self.router.marked.next_changed()
    }

    fn outgoing(&self, link: LinkId) -> Option<Piece<'_>> {
        self.router.marked.says(link)
    }

    fn taken(&mut self, link: LinkId, n: usize) {
        self.router.wrote(link, n);
        self.router.turns();
    }

    fn wants_read(&self, link: LinkId) -> bool {
        self.router.marked.hears_on(link)
    }

    fn until_ms(&self) -> u64 {
        self.router.until
    }

    fn stopped(&self) -> bool {
        self.router.stopped && self.router.came.administrator
    }

    fn address(&self, port: Port) -> Address {
        match port {
            Port::Traffic => self.service.listen,
            Port::Admin => self.service.admin_listen,
        }
    }

    fn most_links(&self) -> u32 {
        self.service.setup.max_clients().saturating_add(OTHER_LINKS)
    }

    fn quiet() {
        router_laws::quiet::quiet_router();
    }

    fn lends() {}
}
