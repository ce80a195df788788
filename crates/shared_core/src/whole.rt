// The core.
ghost use Rattle.std.specs.Prelude.{◌≡◌, [], IfOk, false};
ghost use Rattle.core_service.specs.Serves.{ServesBy};
ghost use Rattle.mx_config.specs.Lawful.{IsLawful};
ghost use Rattle.shared_core.specs.Machine.{IsStanding, is_stopped, unloaded};

use crate::router::Router;
use core_service::Service;
use mx_base::OutOfMemory;
use mx_config::Config;
use std::alloc::Global;

/// The router's core: what it serves by, of which only the rules change, and all else.
#[derive(Drop)]
pub struct Core {
    pub service: Service,
    pub router: Router,
}

impl Core {
    /// A core to which no client came.
    pub fn new(alloc: Global, config: &Config) -> Result<Self, OutOfMemory>
        requires { IsLawful config.now }
        ensures stands { IfOk result (λ core. IsStanding core []) }
        ensures serves { IfOk result (λ core. ServesBy config.now (unloaded core)) }
        ensures going { IfOk result (λ core. is_stopped core ≡ false) }
    {
        Ok(Core {
            service: Service::new(alloc, config)?,
            router: Router::new(alloc, config)?,
        })
    }
}
