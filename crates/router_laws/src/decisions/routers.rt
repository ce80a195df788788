// The core with all that is carried from entry to entry.
ghost use Rattle.std.specs.Prelude.{All, Bool, List, [], None, Some, length, true, ℕ, ◌≡◌};
ghost use Rattle.mx_wire.specs.Log.{Log, moment_of};
ghost use Rattle.mx_wire.specs.Tells.{MayFollow};
ghost use Rattle.mx_wire.specs.declared.entry.Entry.{Entry};
ghost use Rattle.core_service.specs.Serves.{rules_in};
ghost use Rattle.core_service.specs.declared.service.Service.{Service};
ghost use Rattle.query_rules.specs.Passing.{rules_of};
ghost use Rattle.query_rules.specs.declared.rules.Rules.{Rules};
ghost use Rattle.core_texts.specs.Texts.{AreLess, AreMore, key_at, noted_at};
ghost use Rattle.core_texts.specs.declared.noted.Noted.{Noted};
ghost use Rattle.core_texts.specs.declared.texts.Texts.{Texts};
ghost use Rattle.private_model.specs.Names.{ClientNo};
ghost use Rattle.private_model.specs.View.{Setup};
ghost use Rattle.link_laws.specs.Stands.{Codes};
ghost use Rattle.log_story.specs.Headline.{tale_of};
ghost use Rattle.log_story.specs.Plan.{Plan};
ghost use Rattle.log_story.specs.Tale.{Client};
ghost use Rattle.tale_world.specs.Decided.{Decided};
ghost use Rattle.core_tables.specs.Tables.{Tabled, no_tables};
ghost use Rattle.core_stands.specs.Grounds.{Ground};
ghost use Rattle.core_stands.specs.Stands.{Rests};
ghost use Rattle.core_laws.specs.entry.Cores.{with_entry};
ghost use Rattle.core_laws.specs.entry.Grows.{IsHeardMore};
ghost use Rattle.core_laws.specs.entry.Tells.{Fits, IsOf};
ghost use Rattle.router_laws.specs.decisions.Deeds.{Counts, Deeds, decided_with};
ghost use Rattle.router_laws.specs.decisions.Held.{KeepsTexts};
ghost use Rattle.router_laws.specs.decisions.Judges.{JudgesThen};
ghost use Rattle.router_laws.specs.decisions.Noted.{IsInWork, IsNotedOf};
ghost use Rattle.router_laws.specs.decisions.Speaks.{AreOurs};
ghost use Rattle.router_laws.specs.decisions.Records.{IsRecorded};
ghost use Rattle.core_promises.specs.Administered.{IsFirst};
ghost use Rattle.core_promises.specs.Administers.{Administered};
ghost use Rattle.router_laws.specs.decisions.Routers.{AreOpenJust, GoesSoBy, IsBefore, IsRouter, WaitsThen};

/// Empty tables are a router's of the empty log, with no texts, and with the rules of the configuration in force and staged.
pub fn first_router()
    ensures { (service : Service) (texts : Texts) (admin : Administered) → IsFirst (rules_of service.configured) admin
        → (roomy : ClientNo → Bool) → service.loaded ≡ None
        → ((number : ℕ) → key_at texts number ≡ None) → ((c : ClientNo) → noted_at texts c ≡ None)
        → IsRouter service texts admin [] no_tables roomy }
{
    core_stands::first_stands();
}

/// Rules may be loaded: all is so with them in force.
pub fn routers_load()
    ensures { (service : Service) (texts : Texts) (admin : Administered) (log : Log) (t : Tabled) (roomy : ClientNo → Bool) (loaded : Rules)
        → IsRouter service texts admin log t roomy → IsRouter (record service { loaded = Some loaded }) texts admin log t roomy }
{}

/// A router goes on with an entry by its deeds.
pub fn routers_go_on()
    ensures { (service : Service) (texts : Texts) (was is : Administered) (log : Log) (e : Entry) (deeds : Deeds) (t now : Tabled) (roomy room : ClientNo → Bool)
        → (router : IsRouter service texts was log t roomy) → MayFollow log e
        → AreOurs (rules_in service) texts deeds → WaitsThen service log e router.core.decided
        → JudgesThen service log e router.core.decided router.counts deeds was is
        → GoesSoBy service.setup service.default_schema log e router.core.decided router.counts deeds t now roomy room → AreOpenJust (with_entry log e) now
        → IsRouter service texts is (with_entry log e) now room }
{}

/// A plan that has what is decided behind an entry, and fits there, was one and fitted before, where all clients are there of which more was read.
pub fn routers_went()
    ensures plans { (d : Decided) (n : Counts) (log : Log) (e : Entry) (deeds : Deeds) (plan : Plan) → IsRecorded d n log
        → IsOf (decided_with deeds n log e d) (length (with_entry log e)) plan → IsOf d (length log) plan }
    ensures fits { (d : Decided) (n : Counts) (log : Log) (e : Entry) (deeds : Deeds) (setup : Setup) (codes : Codes) (plan : Plan) (default : List ℕ)
        → IsRecorded d n log
        → All (λ (client : Client). IsHeardMore (tale_of setup plan (with_entry log e)) client) (tale_of setup plan log).clients
        → Fits (decided_with deeds n log e d).keys setup codes plan default (tale_of setup plan (with_entry log e))
        → Fits d.keys setup codes plan default (tale_of setup plan log) }
{}

/// So it stood before an entry, by a plan that has what is decided behind it.
pub fn routers_stood()
    ensures { (service : Service) (texts : Texts) (admin : Administered) (log : Log) (e : Entry) (t : Tabled) (roomy : ClientNo → Bool) (deeds : Deeds)
        (setup : Setup) (codes : Codes) (plan : Plan) → (router : IsRouter service texts admin log t roomy) → MayFollow log e
        → IsOf (decided_with deeds router.counts log e router.core.decided) (length (with_entry log e)) plan
        → Fits (decided_with deeds router.counts log e router.core.decided).keys setup codes plan service.default_schema (tale_of setup plan (with_entry log e))
        → All (λ (client : Client). IsHeardMore (tale_of setup plan (with_entry log e)) client) (tale_of setup plan log).clients
        → IsBefore service texts admin log e t roomy router deeds setup codes plan }
{}

/// Other tables that rest wherever these did are a router's of the same log.
pub fn routers_change()
    ensures { (service : Service) (texts : Texts) (admin : Administered) (log : Log) (t now : Tabled) (roomy room : ClientNo → Bool)
        → IsRouter service texts admin log t roomy → ((g : Ground) → Rests service.setup g t roomy → Rests service.setup g now room) → AreOpenJust log now
        → IsRouter service texts admin log now room }
{}

/// More clients may be among those who have room again.
pub fn routers_are_roomier()
    ensures { (service : Service) (texts : Texts) (admin : Administered) (log : Log) (t : Tabled) (roomy room : ClientNo → Bool)
        → IsRouter service texts admin log t roomy → ((c : ClientNo) → roomy c ≡ true → room c ≡ true) → IsRouter service texts admin log t room }
{}

/// It stays a router as texts come, and as some are forgotten.
pub fn routers_learn()
    ensures more { (service : Service) (old new : Texts) (admin : Administered) (log : Log) (t : Tabled) (roomy : ClientNo → Bool)
        → IsRouter service old admin log t roomy → AreMore old new → IsRouter service new admin log t roomy }
    ensures less { (service : Service) (old new : Texts) (admin : Administered) (log : Log) (t : Tabled) (roomy : ClientNo → Bool)
        → IsRouter service old admin log t roomy → AreLess old new → KeepsTexts old new t → IsRouter service new admin log t roomy }
{}

/// It stays one as it is noted of a message in work that by now it had been taken up.
pub fn routers_note()
    ensures { (service : Service) (old new : Texts) (admin : Administered) (log : Log) (t : Tabled) (roomy : ClientNo → Bool) (c : ClientNo) (one : Noted)
        → IsRouter service old admin log t roomy → IsNotedOf c one old new → IsInWork c one.ordinal t → one.by_ms ≡ moment_of log
        → IsRouter service new admin log t roomy }
{}
