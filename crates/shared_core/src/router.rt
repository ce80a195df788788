// The router.
ghost use Rattle.std.specs.Prelude.{◌≡◌, [], IfOk, None, false};
ghost use Rattle.core_service.specs.Serves.{ServesBy};
ghost use Rattle.core_service.specs.declared.service.Service.{Service};
ghost use Rattle.marked_tables.specs.Goes.{AreKnown};
ghost use Rattle.mx_config.specs.Lawful.{IsLawful};
ghost use Rattle.shared_core.specs.Stands.{Chooses, IsClosed, StandsFor, shown};

use crate::administering::admin_of;
use crate::came::Came;
use crate::roomy::Roomy;
use core_policy::{Asked, Policy};
use core_service::Service;
use core_texts::Texts;
use core_turns::Administrator;
use marked_tables::MarkedTables;
use mx_base::{ClientNo, LinkId, OutOfMemory};
use mx_config::Config;
use std::alloc::Global;

/// The links that may be open at a time, of 4,000 clients, 16 administrators and to servers, and one on each port that is being refused: one
/// beyond them is refused like want of memory.
const MOST_LINKS: u32 = 14_018;

/// What changes of the core: clients and links, with marks of the links that the loop has to look at; the texts that clients prepared; what is chosen by; what administrators
/// staged; who came, and the moment;
/// who has room again; the open that was asked for last; the client, or the link to a server, whose close was; whether there may be something
/// to ask for; the moment at which there is something to do, in milliseconds; whether it has shut down; and who took turns by the event that goes through.
#[derive(Drop)]
pub struct Router {
    pub alloc: Global,
    pub marked: MarkedTables,
    pub texts: Texts,
    pub policy: Policy,
    pub admin: Administrator,
    pub came: Came,
    pub roomy: Roomy,
    pub asked: Option<Asked>,
    pub leaving: Option<ClientNo>,
    pub closing: Option<LinkId>,
    pub acting: bool,
    pub until: u64,
    pub stopped: bool,
    pub fresh: Vec<ClientNo>,
}

impl Router {
    /// No client came.
    pub fn new(alloc: Global, config: &Config) -> Result<Self, OutOfMemory>
        requires { IsLawful config.now }
        ensures stands { IfOk result (λ router. (service : Service) → ServesBy config.now service → service.loaded ≡ None → StandsFor service [] router) }
        ensures closed { IfOk result (λ router. IsClosed (shown router)) }
        ensures unasked { IfOk result (λ router. router.asked ≡ None) }
        ensures known { IfOk result (λ router. AreKnown router.marked) }
        ensures going { IfOk result (λ router. router.stopped ≡ false) }
    {
        router_laws::decisions::first_router();
        Ok(Router {
            alloc,
            marked: MarkedTables::new(alloc, MOST_LINKS)?,
            texts: Texts::new(alloc),
            policy: Policy::new(alloc, config)?,
            admin: admin_of(alloc, config)?,
            came: Came {
                clients: 0,
                administrator: false,
                clock: 0,
            },
            roomy: Roomy::new(alloc),
            asked: None,
            leaving: None,
            closing: None,
            acting: true,
            until: 0,
            stopped: false,
            fresh: Vec::new(alloc),
        })
    }

    /// It may have something to ask for; as it has no more, the moment is known at which it wants to be woken. Takes no memory.
    pub(crate) fn turns(&mut self)
        ensures { Chooses self.old self.new }
    {
        self.acting = true;
    }

    /// The moment is known at which it wants to be woken, and whether it has shut down. Takes no memory.
    pub(crate) fn times(&mut self, service: &Service)
        ensures chooses { Chooses self.old self.new }
        ensures acting { self.new.acting ≡ self.old.acting }
    {
        self.until = if self.roomy.is_empty() {
            self.policy.wakes_at(service, self.came.clock)
        } else {
            self.came.clock
        };
        self.stopped = self.policy.is_over(&self.marked.tables);
    }

    /// The policy is told that something changed of a client. Takes no memory.
    pub(crate) fn changed(&mut self, client: ClientNo)
        ensures { Chooses self.old self.new }
    {
        self.policy
            .client_changed(&self.marked.tables, client, self.came.clock);
    }
}
