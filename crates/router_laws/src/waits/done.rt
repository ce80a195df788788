// What is done by the time that the loop waits.
ghost use Rattle.std.specs.Prelude.{◌≡◌, Bool, length, None};
ghost use Rattle.mx_wire.specs.Log.{Log};
ghost use Rattle.private_model.specs.Names.{ClientNo};
ghost use Rattle.link_laws.specs.Stands.{Codes};
ghost use Rattle.log_story.specs.Headline.{tale_of};
ghost use Rattle.core_service.specs.declared.service.Service.{Service};
ghost use Rattle.core_tables.specs.Tables.{Tabled};
ghost use Rattle.core_stands.specs.Stands.{Rests};
ghost use Rattle.core_laws.specs.entry.Dues.{AreWrittenTo};
ghost use Rattle.core_laws.specs.entry.Safe.{IsSafe};
ghost use Rattle.core_laws.specs.entry.Tells.{Fits, IsOf, ground};
ghost use Rattle.tale_world.specs.Decided.{Decided};
ghost use Rattle.router_promises.specs.Now.{now_at};
ghost use Rattle.router_promises.specs.Terms.{Terms, plan_in, setup_in};
ghost use Rattle.core_promises.specs.Waits.{IsDone};
ghost use Rattle.router_laws.specs.decisions.Routers.{AreOpenJust};
ghost use Rattle.router_laws.specs.waits.Drained.{IsDrainedFor};

/// Where nothing is left to read or to write by tables that stand for a log, all is done but lending.
pub fn waits_done()
    ensures { (service : Service) (terms : Terms) (codes : Codes) (d : Decided) (log : Log) (t : Tabled) (roomy : ClientNo → Bool)
        → IsOf d (length log) (plan_in terms)
        → Fits d.keys (setup_in terms) codes (plan_in terms) service.default_schema (tale_of (setup_in terms) (plan_in terms) log)
        → Rests service.setup (ground (setup_in terms) codes (plan_in terms) d log) t roomy
        → AreWrittenTo (ground (setup_in terms) codes (plan_in terms) d log) log → IsSafe (setup_in terms) (plan_in terms) log
        → ((c : ClientNo) → d.ends c ≡ None → d.words c ≡ None) → AreOpenJust log t → IsDrainedFor t log
        → IsDone terms log (now_at terms log) }
{}
