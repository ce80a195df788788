// A client comes.
ghost use Rattle.std.specs.Prelude.{Bool, List, [], length, None, Some, ℕ, ◌+◌, ◌<◌, ◌≡◌};
ghost use Rattle.mx_base.specs.declared.names.LinkId.{LinkId};
ghost use Rattle.mx_base.specs.declared.names.Port.{Port};
ghost use Rattle.mx_wire.specs.Log.{Log, accepted_links, of_link};
ghost use Rattle.mx_wire.specs.declared.entry.Entry.TheVariants.{Accepted};
ghost use Rattle.client_session.specs.Setups.{Setup as Service};
ghost use Rattle.link_laws.specs.Stands.{Codes};
ghost use Rattle.private_model.specs.Lawful.{IsLawful};
ghost use Rattle.private_model.specs.Names.{ClientNo, MessageName};
ghost use Rattle.private_model.specs.View.{Setup};
ghost use Rattle.desk_laws.specs.Stands.{AreSessions, AreToCome};
ghost use Rattle.log_story.specs.Headline.{tale_of};
ghost use Rattle.log_story.specs.Plan.{Plan, Route};
ghost use Rattle.log_story.specs.Tale.{view_of};
ghost use Rattle.tale_world.specs.Decided.{Decided};
ghost use Rattle.core_tables.specs.Tables.{Tabled};
ghost use Rattle.core_laws.specs.entry.Cores.{GoesOn};
ghost use Rattle.core_laws.specs.entry.Tells.{ground};
ghost use Rattle.router_laws.specs.clients.Comes.{ComesSo, Served, TurnedAway};
ghost use Rattle.router_laws.specs.clients.Plans.{FitsThen, PlansAway, PlansComing, nobody, over_by};

/// Of a client that is to come nothing happened, where no copies are made.
pub fn strangers_are_unseen()
    ensures { (setup : Setup) (plan : Plan) (log : Log) (c : ClientNo)
        → ((m : MessageName) (route : Route) → plan.routes m ≡ Some route → route.mirror ≡ None)
        → IsLawful setup (tale_of setup plan log).story → length (tale_of setup plan log).clients < c.0
        → AreSessions (view_of setup (tale_of setup plan log)) c 0 [] × AreToCome (view_of setup (tale_of setup plan log)) c 1
        × ((view_of setup (tale_of setup plan log)).places c ≡ setup.places c) }
{
    desk_laws::strangers_stay();
    desk_laws::coming_stays();
    desk_laws::first_stands();
    core_laws::parting::lawful_homes();
}

/// A client comes and is served.
pub fn comes_go()
    ensures { (service : Service) (default : List ℕ) (setup : Setup) (codes : Codes) (plan : Plan) (log : Log) (old new : Decided) (t now : Tabled)
        (roomy : ClientNo → Bool) (port : Port) (link : LinkId) (salt : List ℕ) (c : ClientNo)
        → FitsThen new.keys setup codes plan default log (Accepted port link salt) → of_link link log ≡ [] → c.0 ≡ length (accepted_links log) + 1
        → PlansComing (ground setup codes plan old log) c nobody (over_by new) → ComesSo Served service port link salt c t now
        → GoesOn service setup codes plan log (Accepted port link salt) old new t now roomy roomy }
{
    strangers_are_unseen();
    crate::decisions::tales_follow();
    core_laws::entry::arrivals_rest();
    core_laws::entry::counts_rest();
}

/// It is turned away, and ends at once.
pub fn turned_away_go()
    ensures { (service : Service) (default : List ℕ) (setup : Setup) (codes : Codes) (plan : Plan) (log : Log) (old new : Decided) (t now : Tabled)
        (roomy : ClientNo → Bool) (port : Port) (link : LinkId) (salt : List ℕ) (c : ClientNo)
        → FitsThen new.keys setup codes plan default log (Accepted port link salt) → of_link link log ≡ [] → c.0 ≡ length (accepted_links log) + 1
        → PlansAway (ground setup codes plan old log) c (over_by new) → ComesSo TurnedAway service port link salt c t now
        → GoesOn service setup codes plan log (Accepted port link salt) old new t now roomy roomy }
{
    strangers_are_unseen();
    crate::decisions::tales_follow();
    core_laws::arrival::clients_are_turned_away();
    core_laws::parting::left_stands();
    core_laws::parting::lawful_homes();
    core_laws::parting::same_stands();
    core_laws::entry::counts_rest();
}
