// Entries that tell the router nothing, and those that servers make.
ghost use Rattle.std.specs.Prelude.{◌≡◌, ◌<◌, ◌++◌, Bool, List, length, true, ℕ};
ghost use Rattle.mx_wire.specs.Log.{AreMarks, Log};
ghost use Rattle.mx_wire.specs.Tells.{Appends, MayFollow};
ghost use Rattle.mx_wire.specs.declared.entry.Entry.{Entry};
ghost use Rattle.ready_loop.specs.Machine.{IsQuiet};
ghost use Rattle.core_service.specs.declared.service.Service.{Service};
ghost use Rattle.core_texts.specs.declared.texts.Texts.{Texts};
ghost use Rattle.private_model.specs.Names.{ClientNo};
ghost use Rattle.core_tables.specs.Tables.{Tabled};
ghost use Rattle.core_laws.specs.entry.Cores.{with_entry};
ghost use Rattle.core_promises.specs.Administers.{Administered};
ghost use Rattle.router_laws.specs.decisions.Routers.{IsRouter};
ghost use Rattle.router_laws.specs.quiet.Quiet.{is_quiet};
ghost use Rattle.router_laws.specs.waits.Drained.{IsDrainedAt};

/// A router goes on with an entry that tells it nothing, or that a server makes; where it is a wait, nothing is left to read or to write.
pub fn quiets_router()
    ensures { (service : Service) (texts : Texts) (admin : Administered) (log : Log) (e : Entry) (t : Tabled) (roomy : ClientNo → Bool)
        → IsRouter service texts admin log t roomy → MayFollow log e → is_quiet e ≡ true → IsDrainedAt t log e
        → IsRouter service texts admin (with_entry log e) t roomy }
{
    core_laws::parting::freed_stands();
    core_laws::writing::marks_stay();
    core_laws::entry::counts_alone();
    crate::waits::waits_done();
}

/// The same of those of which no machine is told.
pub fn quiet_router()
    ensures { (service : Service) (texts : Texts) (admin : Administered) (log : Log) (e : Entry) (t : Tabled) (roomy : ClientNo → Bool)
        → IsRouter service texts admin log t roomy → MayFollow log e → IsQuiet e → IsDrainedAt t log e → IsRouter service texts admin (with_entry log e) t roomy }
{
    quiets_router();
}

/// And with as many marks as a log may have.
pub fn marks_router()
    ensures { (service : Service) (texts : Texts) (admin : Administered) (log marks : Log) (t : Tabled) (roomy : ClientNo → Bool)
        → IsRouter service texts admin log t roomy → AreMarks marks → length (log ++ marks) < 281474976710656
        → IsRouter service texts admin (log ++ marks) t roomy }
{
    quiets_router();
}

/// So it does until a call of the wire adds its entry, which may follow then.
pub fn routers_append()
    ensures stands { (service : Service) (texts : Texts) (admin : Administered) (old new : Log) (e : Entry) (t : Tabled) (roomy : ClientNo → Bool)
        → IsRouter service texts admin old t roomy → (appends : Appends old e new) → IsRouter service texts admin (old ++ appends.marks) t roomy }
    ensures is { (old new : Log) (e : Entry) → (appends : Appends old e new) → new ≡ with_entry (old ++ appends.marks) e }
{
    marks_router();
}
