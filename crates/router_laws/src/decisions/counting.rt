// What an entry makes of the counts of a tale.
ghost use Rattle.std.specs.Prelude.{◌≡◌, length, true};
ghost use Rattle.mx_wire.specs.Log.{Log};
ghost use Rattle.mx_wire.specs.Tells.{MayFollow};
ghost use Rattle.mx_wire.specs.declared.entry.Entry.{Entry};
ghost use Rattle.private_model.specs.View.{Setup};
ghost use Rattle.log_story.specs.Headline.{tale_of};
ghost use Rattle.log_story.specs.Plan.{Plan};
ghost use Rattle.log_story.specs.Telling.{tale_step};
ghost use Rattle.tale_world.specs.Decided.{Decided};
ghost use Rattle.core_laws.specs.entry.Cores.{with_entry};
ghost use Rattle.core_laws.specs.entry.Tells.{IsOf};
ghost use Rattle.router_laws.specs.decisions.Counting.{BeginsSo, CallsNone, TakesSo, is_no_event};
ghost use Rattle.router_laws.specs.decisions.Deeds.{Counts, Deeds, counts_with, decided_with};
ghost use Rattle.router_laws.specs.decisions.Records.{AreCountsOf, IsRecorded};

/// Where clients took up what was decided of, and questions begin just where one was, the counts go on with an entry's deeds.
pub fn counts_go_on()
    ensures { (setup : Setup) (plan : Plan) (d : Decided) (n : Counts) (log : Log) (e : Entry) (deeds : Deeds) → IsRecorded d n log → MayFollow log e
        → AreCountsOf n (tale_of setup plan log) → TakesSo n deeds (tale_step setup plan (tale_of setup plan log) e)
        → BeginsSo setup (tale_of setup plan log) e deeds
        → AreCountsOf (counts_with deeds n log e) (tale_of setup plan (with_entry log e)) }
{}

/// At an entry that is no client's event, and by which nothing is given up, nobody takes up anything.
pub fn counts_stay()
    ensures { (setup : Setup) (plan : Plan) (d : Decided) (n : Counts) (log : Log) (e : Entry) (deeds : Deeds) → IsRecorded d n log → MayFollow log e
        → IsOf (decided_with deeds n log e d) (length (with_entry log e)) plan → AreCountsOf n (tale_of setup plan log) → is_no_event e ≡ true
        → CallsNone deeds → BeginsSo setup (tale_of setup plan log) e deeds
        → AreCountsOf (counts_with deeds n log e) (tale_of setup plan (with_entry log e)) }
{}
