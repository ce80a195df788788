// What each plan has that has what is decided at an entry.
ghost use Rattle.std.specs.Prelude.{◌≡◌, All, Bool, List, None, Option, Some, false, is_some, length, true, ℕ};
ghost use Rattle.mx_base.specs.declared.names.LinkId.{LinkId};
ghost use Rattle.mx_wire.specs.Log.{Log};
ghost use Rattle.mx_wire.specs.Tells.{MayFollow};
ghost use Rattle.mx_wire.specs.declared.entry.Entry.{Entry};
ghost use Rattle.client_session.specs.Setups.{Setup as Service};
ghost use Rattle.private_model.specs.Names.{ClientNo};
ghost use Rattle.private_model.specs.View.{Setup};
ghost use Rattle.link_laws.specs.Stands.{Codes};
ghost use Rattle.log_story.specs.Headline.{tale_of};
ghost use Rattle.log_story.specs.Plan.{Plan, word_at};
ghost use Rattle.tale_world.specs.Decided.{Decided};
ghost use Rattle.core_tables.specs.Tables.{Tabled};
ghost use Rattle.core_stands.specs.Grounds.{Ground};
ghost use Rattle.core_stands.specs.Stands.{Stands};
ghost use Rattle.core_laws.specs.parting.Partings.{AreGivenUp};
ghost use Rattle.core_laws.specs.entry.Calms.{EndNow};
ghost use Rattle.core_laws.specs.entry.Cores.{with_entry};
ghost use Rattle.core_laws.specs.entry.Dues.{AreSilent};
ghost use Rattle.core_laws.specs.entry.Kinds.{IsStill, IsUneventful};
ghost use Rattle.core_laws.specs.entry.Tells.{Fits, IsOf, ground};
ghost use Rattle.router_laws.specs.decisions.Deeds.{AreToldBy, Counts, Deeds, decided_with};
ghost use Rattle.router_laws.specs.decisions.Plans.{AreUngiven, AreUnreplied, EndsNone, KeepsAnswers, PlansSo};
ghost use Rattle.router_laws.specs.decisions.Records.{AreCountsOf, IsRecorded};

/// A plan that has what is decided behind an entry that may follow has its deeds, where those who are given up weren't answered.
pub fn plans_are_so()
    ensures { (default : List ℕ) (d : Decided) (n : Counts) (log : Log) (e : Entry) (deeds : Deeds) (setup : Setup) (codes : Codes) (plan : Plan)
        → IsRecorded d n log → MayFollow log e → IsOf (decided_with deeds n log e d) (length (with_entry log e)) plan
        → Fits d.keys setup codes plan default (tale_of setup plan log) → AreCountsOf n (tale_of setup plan log)
        → AreToldBy d.keys deeds
        → AreUngiven (ground setup codes plan d log) (λ c. is_some (deeds.given c)) → PlansSo (ground setup codes plan d log) log e deeds }
{}

/// Behind the entry those are over who were, and whom it ends.
pub fn ends_go_on()
    ensures { (d : Decided) (n : Counts) (log : Log) (e : Entry) (deeds : Deeds) (setup : Setup) (codes : Codes) (plan : Plan)
        → IsRecorded d n log → IsOf (decided_with deeds n log e d) (length (with_entry log e)) plan
        → EndNow (ground setup codes plan d log) (ground setup codes plan (decided_with deeds n log e d) (with_entry log e)) }
{}

/// Who goes on has no last word.
pub fn plans_are_silent()
    ensures each { (d : Decided) (n : Counts) (log : Log) (plan : Plan) → IsRecorded d n log → IsOf d (length log) plan
        → (c : ClientNo) → is_some (d.ends c) ≡ false → word_at plan (length log) c ≡ None }
    ensures tale { (d : Decided) (n : Counts) (log : Log) (setup : Setup) (codes : Codes) (plan : Plan) → IsRecorded d n log
        → IsOf d (length log) plan → AreSilent (ground setup codes plan d log) }
{}

/// What was answered isn't given up, where no reply was read to what is; nor where nothing is.
pub fn answers_are_kept()
    ensures so { (g : Ground) (log : Log) (e : Entry) (deeds : Deeds) → PlansSo g log e deeds → AreUnreplied g (λ c. is_some (deeds.given c))
        → All (KeepsAnswers g) g.tale.clients }
    ensures still { (g : Ground) → All (IsStill g) g.tale.clients → All (KeepsAnswers g) g.tale.clients }
{}

/// Whose statement is in work wasn't answered.
pub fn ungiven_are_in_work()
    ensures work { (service : Service) (g : Ground) (t : Tabled) (given : ClientNo → Option (List ℕ)) (excepted : LinkId → Bool) → Stands service g t
        → AreGivenUp given excepted t → AreUngiven g (λ c. is_some (given c)) }
    ensures unreplied { (service : Service) (g : Ground) (t : Tabled) (given : ClientNo → Option (List ℕ)) (excepted : LinkId → Bool)
        → Stands service g t → AreGivenUp given excepted t → AreUnreplied g (λ c. is_some (given c)) }
    ensures none { (g : Ground) (given : ClientNo → Option (List ℕ)) → ((c : ClientNo) → given c ≡ None) → AreUngiven g (λ c. is_some (given c)) }
{}

/// Where nobody is given up and ended, an entry is uneventful; where nobody is given up, all are still.
pub fn quiet_plans()
    ensures uneventful { (g : Ground) (log : Log) (e : Entry) (deeds : Deeds) → PlansSo g log e deeds → EndsNone deeds → IsUneventful g }
    ensures still { (g : Ground) (log : Log) (e : Entry) (deeds : Deeds) → PlansSo g log e deeds → ((c : ClientNo) → deeds.given c ≡ None)
        → All (IsStill g) g.tale.clients }
{}
