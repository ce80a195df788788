// Links to servers are lost.
ghost use Rattle.std.specs.Prelude.{◌≡◌, Some, true};
ghost use Rattle.core_service.specs.Serves.{rules_in};
ghost use Rattle.core_service.specs.declared.service.Service.{Service};
ghost use Rattle.core_texts.specs.Texts.{key_at};
ghost use Rattle.core_texts.specs.declared.texts.Texts.{Texts};
ghost use Rattle.client_session.specs.Setups.{Setup as Serving};
ghost use Rattle.private_model.specs.Names.{LinkId};
ghost use Rattle.private_model.specs.Story.{is_link_id};
ghost use Rattle.core_tables.specs.Tables.{Tabled};
ghost use Rattle.core_stands.specs.Grounds.{Ground};
ghost use Rattle.core_stands.specs.Stands.{Stands};
ghost use Rattle.core_laws.specs.parting.Partings.{AreGivenUp};
ghost use Rattle.core_laws.specs.clients.Going.{GivenUp, told_to};
ghost use Rattle.std.specs.Prelude.{Option};
ghost use Rattle.std.specs.Prelude.{Bool, List, ℕ};
ghost use Rattle.mx_wire.specs.Log.{Log};
ghost use Rattle.mx_wire.specs.Tells.{MayFollow};
ghost use Rattle.private_model.specs.Names.{ClientNo};
ghost use Rattle.core_laws.specs.entry.Cores.{with_entry};
ghost use Rattle.core_laws.specs.clients.Going.{Going};
ghost use Rattle.core_promises.specs.Ruled.{ruling_of};
ghost use Rattle.router_laws.specs.decisions.Partings.{IsGoingParted};
ghost use Rattle.router_laws.specs.decisions.Speaks.{AreGivenOurs, AreGoingOurs};
ghost use Rattle.router_laws.specs.decisions.Causes.{IsLostFor};
ghost use Rattle.router_laws.specs.decisions.Held.{AreHeldFor};
ghost use Rattle.router_laws.specs.decisions.Judges.{JudgesThen};
ghost use Rattle.router_laws.specs.decisions.Goings.{deeds_of};
ghost use Rattle.router_laws.specs.decisions.Rulings.{IsRuledOn, IsSettledFor};
ghost use Rattle.core_promises.specs.Administers.{Administered};
ghost use Rattle.router_laws.specs.decisions.Routers.{IsRouter};
ghost use Rattle.router_laws.specs.links.Loses.{Break, LosesEnded, LosesSo, MayGiveUpWith, entry_by};

/// What is given up as a link is lost stands on no other sound link.
pub fn given_up_with_it()
    ensures { (service : Serving) (g : Ground) (t : Tabled) (l : LinkId) (given : Option GivenUp) → Stands service g t → MayGiveUpWith l given t
        → AreGivenUp (told_to given) (λ (other : LinkId). is_link_id other l) t }
{}

/// Where the turns of the client that goes on are ruled as a link is lost, so is what becomes of its messages; and what is given up went to a
/// server, and has its cause.
pub fn loses_judge()
    ensures { (service : Service) (texts : Texts) (admin is : Administered) (log : Log) (t now : Tabled) (roomy : ClientNo → Bool) (l : LinkId) (how : Break)
        (given : Option GivenUp) (going : Option Going) → (router : IsRouter service texts admin log t roomy) → MayFollow log (entry_by how l)
        → (so : LosesSo service.setup service.default_schema l given going t now) → AreGoingOurs (rules_in service) texts going
        → IsRuledOn (ruling_of service texts.since (key_at texts) admin is) going service.setup service.default_schema so.lost now so.goes → IsLostFor l t given → IsGoingParted service.buffer_budget l t going
        → AreHeldFor going texts service.default_schema router.core.decided log
        → IsSettledFor going service admin
        → JudgesThen service log (entry_by how l) router.core.decided router.counts (deeds_of given going) admin is }
{
    core_laws::parting::carried_homes();
    core_laws::parting::lost_stands();
    core_laws::parting::freed_stands();
    core_laws::parting::same_stands();
    core_laws::clients::follows_find();
    core_laws::clients::follows_rest();
    core_laws::clients::told_stands();
    crate::decisions::ungiven_are_in_work();
    crate::decisions::answers_are_kept();
    crate::decisions::ends_go_on();
    crate::decisions::counts_go_on();
    crate::decisions::routers_stood();
    crate::decisions::links_rise();
}

/// A link to a server is lost, and whoever is called goes on.
pub fn loses_router()
    ensures { (service : Service) (texts : Texts) (admin is : Administered) (log : Log) (t now : Tabled) (roomy : ClientNo → Bool) (l : LinkId) (how : Break)
        (given : Option GivenUp) (going : Option Going) → (router : IsRouter service texts admin log t roomy) → MayFollow log (entry_by how l)
        → AreGivenOurs given → AreGoingOurs (rules_in service) texts going → (so : LosesSo service.setup service.default_schema l given going t now)
        → IsRuledOn (ruling_of service texts.since (key_at texts) admin is) going service.setup service.default_schema so.lost now so.goes → IsLostFor l t given → IsGoingParted service.buffer_budget l t going
        → AreHeldFor going texts service.default_schema router.core.decided log
        → IsSettledFor going service admin → IsRouter service texts is (with_entry log (entry_by how l)) now roomy }
{
    loses_judge();
    core_laws::parting::lost_stands();
    core_laws::parting::freed_stands();
    core_laws::parting::same_stands();
    core_laws::clients::follows_rest();
    core_laws::clients::told_stands();
    crate::decisions::ungiven_are_in_work();
    crate::decisions::answers_are_kept();
    crate::decisions::ends_go_on();
    crate::decisions::counts_go_on();
    crate::decisions::routers_stood();
    crate::decisions::links_rise();
    crate::decisions::routers_go_on();
}

/// And with it the client ends whose present session it carries.
pub fn loses_ended_router()
    ensures { (service : Service) (texts : Texts) (admin : Administered) (log : Log) (t now : Tabled) (roomy : ClientNo → Bool) (l : LinkId) (how : Break) (c : ClientNo)
        (links : List LinkId) → IsRouter service texts admin log t roomy → MayFollow log (entry_by how l) → LosesEnded l c links t now
        → IsRouter service texts admin (with_entry log (entry_by how l)) now roomy }
{
    core_laws::parting::lost_stands();
    core_laws::parting::left_stands();
    core_laws::parting::freed_stands();
    core_laws::parting::same_stands();
    core_laws::parting::lawful_homes();
    core_laws::parting::carried_homes();
    core_laws::entry::links_are_given_back();
}
