// Links to servers of a log, and clients, whatever the plan.
ghost use Rattle.std.specs.Prelude.{◌≡◌, if◌then◌else◌};
ghost use Rattle.mx_wire.specs.Log.{Log, is_link, is_open, link_of, open_step};
ghost use Rattle.mx_wire.specs.Moments.{AllLawful};
ghost use Rattle.mx_wire.specs.Tells.{MayFollow};
ghost use Rattle.mx_wire.specs.declared.entry.Entry.{Entry};
ghost use Rattle.private_model.specs.Names.{LinkId};
ghost use Rattle.private_model.specs.View.{Setup};
ghost use Rattle.log_story.specs.Headline.{tale_of};
ghost use Rattle.log_story.specs.Plan.{Plan};
ghost use Rattle.step_laws.specs.Freed.{Ascend};
ghost use Rattle.core_laws.specs.entry.Cores.{with_entry};
ghost use Rattle.router_laws.specs.decisions.Links.{IsTaleOf, Rises};

/// A log's tale has its entries, its links to servers, and its clients.
pub fn tales_follow()
    ensures { (setup : Setup) (plan : Plan) (log : Log) → IsTaleOf log (tale_of setup plan log) }
{}

/// Its links rise.
pub fn links_rise()
    ensures log { (log : Log) → AllLawful MayFollow log → Rises log }
    ensures tale { (setup : Setup) (plan : Plan) (log : Log) → AllLawful MayFollow log → Ascend (λ l. l.0) (tale_of setup plan log).links }
{}

/// Which links are open behind an entry: the one that it names, as it says, and others as before.
pub fn opens_go_on()
    ensures { (log : Log) (e : Entry) (l : LinkId)
        → is_open l (with_entry log e) ≡ (if is_link l (link_of e) then open_step (is_open l log) e else is_open l log) }
{}
