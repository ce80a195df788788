// What a router's tables are, whatever the setup and the plan.
ghost use Rattle.std.specs.Prelude.{Bool, List, ℕ};
ghost use Rattle.mx_wire.specs.Log.{Log};
ghost use Rattle.core_service.specs.declared.service.Service.{Service};
ghost use Rattle.core_texts.specs.declared.texts.Texts.{Texts};
ghost use Rattle.private_model.specs.Names.{ClientNo};
ghost use Rattle.core_tables.specs.Tables.{Tabled};
ghost use Rattle.core_promises.specs.Administers.{Administered};
ghost use Rattle.router_laws.specs.decisions.Routers.{IsRouter};
ghost use Rattle.router_laws.specs.routers.Somehow.{AreLinked, RestsSomehow};

/// There are a setup and a plan that fit; so its tables rest for a tale of the log.
pub fn routers_rest()
    ensures { (service : Service) (texts : Texts) (admin : Administered) (log : Log) (t : Tabled) (roomy : ClientNo → Bool) → IsRouter service texts admin log t roomy
        → RestsSomehow service.setup log t roomy }
{}

/// A client's link is that of its row.
pub fn routers_are_linked()
    ensures { (service : Service) (texts : Texts) (admin : Administered) (log : Log) (t : Tabled) (roomy : ClientNo → Bool) → IsRouter service texts admin log t roomy
        → AreLinked t }
{}
