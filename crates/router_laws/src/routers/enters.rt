// A router goes on with an entry by which nobody is called, ended or given up.
ghost use Rattle.std.specs.Prelude.{◌≡◌, Bool, List, Option, true, ℕ};
ghost use Rattle.mx_wire.specs.Log.{Log};
ghost use Rattle.mx_wire.specs.Tells.{MayFollow};
ghost use Rattle.mx_wire.specs.declared.entry.Entry.{Entry};
ghost use Rattle.server_side.specs.Account.{Account as Login};
ghost use Rattle.core_service.specs.declared.service.Service.{Service};
ghost use Rattle.core_texts.specs.declared.texts.Texts.{Texts};
ghost use Rattle.private_model.specs.Names.{ClientNo};
ghost use Rattle.log_story.specs.Plan.{StepText};
ghost use Rattle.core_tables.specs.Tables.{Tabled};
ghost use Rattle.core_laws.specs.entry.Cores.{with_entry};
ghost use Rattle.router_laws.specs.decisions.Counting.{is_no_event};
ghost use Rattle.core_promises.specs.Administers.{Administered};
ghost use Rattle.router_laws.specs.decisions.Routers.{AreOpenJust, IsRouter, WaitsThen};
ghost use Rattle.router_laws.specs.routers.Enters.{EntersBy, of_link};

/// It goes on where its core does by each setup and plan.
pub fn routers_enter()
    ensures { (service : Service) (texts : Texts) (admin : Administered) (log : Log) (e : Entry) (login : Option Login) (begun : Option (Option StepText))
        (t now : Tabled) (roomy room : ClientNo → Bool) → (router : IsRouter service texts admin log t roomy) → MayFollow log e
        → is_no_event e ≡ true → WaitsThen service log e router.core.decided
        → EntersBy service texts admin log e t now roomy room router (of_link login begun) → AreOpenJust (with_entry log e) now
        → IsRouter service texts admin (with_entry log e) now room }
{}
