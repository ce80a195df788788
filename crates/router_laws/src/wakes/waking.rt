// A wake, and an open that failed.
ghost use Rattle.std.specs.Prelude.{◌≡◌, All, Bool, List, ℕ};
ghost use Rattle.mx_base.specs.declared.names.Address.{Address};
ghost use Rattle.mx_base.specs.declared.names.ServerId.{ServerId};
ghost use Rattle.mx_wire.specs.Log.{Log};
ghost use Rattle.mx_wire.specs.Tells.{MayFollow};
ghost use Rattle.mx_wire.specs.declared.entry.Entry.TheVariants.{OpenFailed, Woke};
ghost use Rattle.core_service.specs.Serves.{rules_in};
ghost use Rattle.core_service.specs.declared.service.Service.{Service};
ghost use Rattle.core_texts.specs.Texts.{key_at, noted_at};
ghost use Rattle.core_texts.specs.declared.texts.Texts.{Texts};
ghost use Rattle.private_model.specs.Names.{ClientNo, LinkId};
ghost use Rattle.core_tables.specs.Tables.{Tabled};
ghost use Rattle.core_laws.specs.entry.Cores.{with_entry};
ghost use Rattle.core_laws.specs.clients.Going.{GivenUp};
ghost use Rattle.router_laws.specs.decisions.Partings.{AreNotOusted, AreOusted};
ghost use Rattle.router_laws.specs.decisions.Held.{AreHeldSince};
ghost use Rattle.core_promises.specs.Administers.{Administered};
ghost use Rattle.router_laws.specs.decisions.Routers.{IsRouter};
ghost use Rattle.router_laws.specs.decisions.Rulings.{AreRuledAll};
ghost use Rattle.router_laws.specs.wakes.Calling.{Caller};
ghost use Rattle.router_laws.specs.wakes.Deciding.{IsCallerOurs};
ghost use Rattle.router_laws.specs.decisions.Speaks.{IsGivenOurs};
ghost use Rattle.router_laws.specs.waits.Drained.{IsDrainedFor};
ghost use Rattle.core_promises.specs.InForce.{has_administrator};
ghost use Rattle.core_promises.specs.Ruled.{ruling_of};
ghost use Rattle.router_laws.specs.decisions.Causes.{AreLate, AreRefused};
ghost use Rattle.router_laws.specs.wakes.Waking.{FailsSo, WakesSo};

/// A router goes on with a wake that comes where nothing is left to read or to write; nobody has to have room behind it.
pub fn wakes_router()
    ensures { (service : Service) (texts : Texts) (admin is : Administered) (log : Log) (t now : Tabled) (roomy room : ClientNo → Bool) (given : List GivenUp)
        (callers : List Caller) (links : List LinkId) (until_ms now_ms : ℕ) → (router : IsRouter service texts admin log t roomy)
        → MayFollow log (Woke until_ms now_ms) → IsDrainedFor t log
        → (wakes : WakesSo service.setup service.default_schema given callers links roomy t now) → All IsGivenOurs given
        → AreLate service.wait_ms now_ms (has_administrator log) (noted_at texts) t given
        → All (IsCallerOurs (rules_in service) texts) callers → AreOusted service.buffer_budget (has_administrator log) t callers
        → AreRuledAll (ruling_of service texts.since (key_at texts) admin is) callers service.setup service.default_schema wakes.late wakes.calls.turned wakes.calls.going
        → AreHeldSince texts service.default_schema router.core.decided log
        → admin.rules ≡ rules_in service → IsRouter service texts is (with_entry log (Woke until_ms now_ms)) now room }
{
    core_laws::clients::turns_find();
    core_laws::clients::turns_stand();
    core_laws::clients::told_stands();
    core_laws::parting::left_stands();
    core_laws::parting::same_stands();
    core_laws::parting::counted_stands();
    core_laws::parting::freed_stands();
    core_laws::entry::links_are_given_back();
    crate::decisions::links_rise();
    crate::reading::given_up_aside();
    crate::waits::waits_done();
}

/// And with an open that failed.
pub fn fails_router()
    ensures { (service : Service) (texts : Texts) (admin is : Administered) (log : Log) (t now : Tabled) (roomy : ClientNo → Bool) (given : List GivenUp)
        (callers : List Caller) (links : List LinkId) (server : ServerId) (address : Address) → (router : IsRouter service texts admin log t roomy)
        → MayFollow log (OpenFailed server address) → (fails : FailsSo service.setup service.default_schema given callers links t now)
        → All IsGivenOurs given → AreRefused given → All (IsCallerOurs (rules_in service) texts) callers → AreNotOusted service.buffer_budget callers
        → AreRuledAll (ruling_of service texts.since (key_at texts) admin is) callers service.setup service.default_schema fails.late fails.calls.turned fails.calls.going
        → AreHeldSince texts service.default_schema router.core.decided log
        → admin.rules ≡ rules_in service → IsRouter service texts is (with_entry log (OpenFailed server address)) now roomy }
{
    core_laws::clients::turns_find();
    core_laws::clients::turns_stand();
    core_laws::clients::told_stands();
    core_laws::parting::left_stands();
    core_laws::parting::same_stands();
    core_laws::parting::counted_stands();
    core_laws::parting::freed_stands();
    core_laws::entry::links_are_given_back();
    crate::decisions::links_rise();
    crate::reading::given_up_aside();
}
