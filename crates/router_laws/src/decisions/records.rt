// What was decided by the entries of a log.
ghost use Rattle.std.specs.Prelude.{◌≤◌, List, [], length};
ghost use Rattle.mx_wire.specs.Log.{Log};
ghost use Rattle.mx_wire.specs.declared.entry.Entry.{Entry};
ghost use Rattle.client_session.specs.Setups.{Setup as Service};
ghost use Rattle.query_rules.specs.declared.rule.Rule.{Rule};
ghost use Rattle.private_model.specs.Names.{MessageName};
ghost use Rattle.tale_world.specs.Decided.{Decided};
ghost use Rattle.core_texts.specs.declared.texts.Texts.{Texts};
ghost use Rattle.core_laws.specs.entry.Cores.{with_entry};
ghost use Rattle.core_laws.specs.entry.Grows.{IsMoreBy};
ghost use Rattle.router_laws.specs.decisions.Deeds.{AreAlone, Counts, Deeds, counts_with, decided_with, no_counts};
ghost use Rattle.router_laws.specs.decisions.Records.{IsRecorded, first_deciding};
ghost use Rattle.router_laws.specs.decisions.Force.{rules_then};
ghost use Rattle.router_laws.specs.decisions.Speaks.{AreOurs, DecidesOwn};

/// With an entry's deeds more is decided.
pub fn decisions_are_more()
    ensures { (d : Decided) (n : Counts) (log : Log) (e : Entry) (deeds : Deeds) → IsRecorded d n log
        → IsMoreBy (length log) d (decided_with deeds n log e d) }
{}

/// By no entries nothing is decided but of messages that nobody sends.
pub fn first_recorded()
    ensures { (service : Service) → IsRecorded (first_deciding service) no_counts [] }
{}

/// With an entry's deeds just that is decided which the longer log asks for.
pub fn decisions_are_recorded()
    ensures { (d : Decided) (n : Counts) (log : Log) (e : Entry) (deeds : Deeds) → IsRecorded d n log → AreAlone deeds
        → IsRecorded (decided_with deeds n log e d) (counts_with deeds n log e) (with_entry log e) }
{}

/// With an entry's deeds what was decided to be said stays the router's own.
pub fn speech_goes_on()
    ensures { (rules : List Rule) (texts : Texts) (d : Decided) (n : Counts) (log : Log) (e : Entry) (deeds : Deeds) → IsRecorded d n log
        → (before : MessageName → List Rule) → DecidesOwn before d → AreOurs rules texts deeds
        → DecidesOwn (rules_then n before rules) (decided_with deeds n log e d) }
{}
