// A core goes on with bytes on a link to a server.
ghost use Rattle.std.specs.Prelude.{◌≡◌, ℕ, Bool, List, Option, Some, false};
ghost use Rattle.std.specs.Option.{option_map};
ghost use Rattle.mx_base.specs.Fields.{AreBytes};
ghost use Rattle.mx_wire.specs.Log.{Log};
ghost use Rattle.mx_wire.specs.Tells.{MayFollow};
ghost use Rattle.mx_wire.specs.declared.entry.Entry.TheVariants.{Got};
ghost use Rattle.core_service.specs.Serves.{rules_in};
ghost use Rattle.core_service.specs.declared.service.Service.{Service};
ghost use Rattle.core_texts.specs.Texts.{key_at};
ghost use Rattle.core_texts.specs.declared.texts.Texts.{Texts};
ghost use Rattle.client_session.specs.Setups.{Setup as Serving};
ghost use Rattle.private_model.specs.Names.{ClientNo, LinkId};
ghost use Rattle.core_tables.specs.Hearing.{IsHeard};
ghost use Rattle.core_tables.specs.Parting.{freed_in, given_up_in, name_in};
ghost use Rattle.core_tables.specs.Preparing.{IsKeptFor};
ghost use Rattle.core_tables.specs.Tables.{IsSame, Tabled};
ghost use Rattle.core_tables.specs.declared.said.Said.{Said};
ghost use Rattle.core_tables.specs.declared.server.Server.{Server};
ghost use Rattle.core_laws.specs.entry.Cores.{with_entry};
ghost use Rattle.core_laws.specs.clients.Going.{GivenUp, GoesSo, Going, IsCalled, is_going, told_to};
ghost use Rattle.core_laws.specs.clients.Keeps.{KeepsRows};
ghost use Rattle.router_laws.specs.decisions.Partings.{IsGoingParted};
ghost use Rattle.router_laws.specs.decisions.Causes.{IsHeardFor};
ghost use Rattle.router_laws.specs.decisions.Held.{AreHeldSince};
ghost use Rattle.router_laws.specs.decisions.Judges.{JudgesThen};
ghost use Rattle.router_laws.specs.decisions.Goings.{deeds_of};
ghost use Rattle.router_laws.specs.decisions.Rulings.{IsRuledOn};
ghost use Rattle.core_promises.specs.Administers.{Administered};
ghost use Rattle.router_laws.specs.decisions.Routers.{GoesSoBy, IsRouter};
ghost use Rattle.router_laws.specs.reading.Givings.{MayGiveUp};
ghost use Rattle.core_promises.specs.Ruled.{Ruling, ruling_of};
ghost use Rattle.router_laws.specs.decisions.Speaks.{AreGivenOurs, AreGoingOurs};
ghost use Rattle.router_laws.specs.reading.Hears.{HearsRuled, HearsSo};

/// No client and no link comes or goes by them.
pub fn hears_keep()
    ensures { (service : Serving) (default : List ℕ) (l : LinkId) (bytes : List ℕ) (clock : ℕ) (given : Option GivenUp) (going : Option Going)
        (old new : Tabled) → HearsSo service default l bytes clock given going old new → KeepsRows old new }
{}

/// The core goes on, by what is given up, and what is decided of the one client that goes on.
pub fn hears_goes()
    ensures { (service : Service) (texts : Texts) (admin : Administered) (log : Log) (t now : Tabled) (roomy : ClientNo → Bool) (l : LinkId) (bytes : List ℕ)
        (clock : ℕ) (given : Option GivenUp) (going : Option Going) → (router : IsRouter service texts admin log t roomy) → MayFollow log (Got l bytes)
        → AreBytes bytes → HearsSo service.setup service.default_schema l bytes clock given going t now
        → AreGoingOurs (rules_in service) texts going
        → GoesSoBy service.setup service.default_schema log (Got l bytes) router.core.decided router.counts (deeds_of given going) t now roomy roomy }
{
    core_laws::hearing::bytes_are_heard();
    core_laws::parting::counted_stands();
    core_laws::parting::freed_stands();
    core_laws::parting::lawful_homes();
    core_laws::parting::same_stands();
    core_laws::clients::follows_rest();
    core_laws::clients::told_stands();
    crate::decisions::ungiven_are_in_work();
    crate::decisions::answers_are_kept();
    crate::decisions::ends_go_on();
    crate::decisions::counts_go_on();
    crate::decisions::routers_stood();
    crate::decisions::links_rise();
}

/// Where the turns of the client that goes on are ruled, so is what becomes of its messages; and what is given up went to a server, and has its cause.
pub fn hears_judge()
    ensures { (service : Service) (texts : Texts) (admin is : Administered) (log : Log) (t now : Tabled) (roomy : ClientNo → Bool) (l : LinkId) (bytes : List ℕ)
        (clock : ℕ) (given : Option GivenUp) (going : Option Going) → (router : IsRouter service texts admin log t roomy) → MayFollow log (Got l bytes)
        → AreBytes bytes → (so : HearsSo service.setup service.default_schema l bytes clock given going t now)
        → AreGoingOurs (rules_in service) texts going
        → IsRuledOn (ruling_of service texts.since (key_at texts) admin is) going service.setup service.default_schema so.freed now so.goes → IsHeardFor l t given → IsGoingParted service.buffer_budget l t going
        → AreHeldSince texts service.default_schema router.core.decided log
        → admin.rules ≡ rules_in service
        → JudgesThen service log (Got l bytes) router.core.decided router.counts (deeds_of given going) admin is }
{
    core_laws::hearing::bytes_are_heard();
    core_laws::parting::carried_homes();
    core_laws::parting::counted_stands();
    core_laws::parting::freed_stands();
    core_laws::parting::lawful_homes();
    core_laws::parting::same_stands();
    core_laws::clients::follows_find();
    core_laws::clients::follows_rest();
    core_laws::clients::told_stands();
    crate::decisions::ungiven_are_in_work();
    crate::decisions::answers_are_kept();
    crate::decisions::ends_go_on();
    crate::decisions::counts_go_on();
    crate::decisions::routers_stood();
    crate::decisions::links_rise();
}

/// So a router does.
pub fn hears_router()
    ensures { (service : Service) (texts : Texts) (admin is : Administered) (log : Log) (t now : Tabled) (roomy : ClientNo → Bool) (l : LinkId) (bytes : List ℕ)
        (clock : ℕ) (given : Option GivenUp) (going : Option Going) → (router : IsRouter service texts admin log t roomy) → MayFollow log (Got l bytes)
        → AreBytes bytes → (so : HearsSo service.setup service.default_schema l bytes clock given going t now) → AreGivenOurs given
        → AreGoingOurs (rules_in service) texts going
        → IsRuledOn (ruling_of service texts.since (key_at texts) admin is) going service.setup service.default_schema so.freed now so.goes → IsHeardFor l t given → IsGoingParted service.buffer_budget l t going
        → AreHeldSince texts service.default_schema router.core.decided log
        → admin.rules ≡ rules_in service → IsRouter service texts is (with_entry log (Got l bytes)) now roomy }
{
    hears_judge();
    hears_goes();
    hears_keep();
    crate::decisions::opens_go_on();
    crate::decisions::routers_go_on();
}

/// So it is by the code's calls, one after the other, and ruled where the turns are; and who went on before what is given up goes on behind it.
pub fn hears_so()
    ensures so { (ruling : Ruling) (service : Serving) (default : List ℕ) (l : LinkId) (bytes : List ℕ) (clock : ℕ) (given : Option GivenUp) (going : Option Going)
        (server : Server) (said : Said) (old read heard mid freed now : Tabled) → old.links l ≡ Some server → server.row.lost ≡ false
        → server.row.link.spoilt ≡ false → IsHeard l bytes clock said read old
        → IsKeptFor said l read heard → MayGiveUp l given heard
        → IsSame mid (given_up_in (told_to given) heard) → IsSame freed (freed_in l mid)
        → IsCalled (name_in server.row.link.state.carries) given freed (option_map (λ (g : Going). g.client) going)
        → (goes : GoesSo going service default freed now) → IsRuledOn ruling going service default freed now goes
        → HearsRuled ruling service default l bytes clock given going old now }
    ensures going { (l : LinkId) (given : Option GivenUp) (heard mid freed : Tabled) (c : ClientNo)
        → IsSame mid (given_up_in (told_to given) heard) → IsSame freed (freed_in l mid) → is_going (freed.clients c) ≡ is_going (heard.clients c) }
{}
