// The tables behind an entry rest for its tale.
ghost use Rattle.std.specs.Prelude.{◌≡◌, All, Bool, List, false, suc, true};
ghost use Rattle.mx_wire.specs.declared.entry.Entry.{Entry};
ghost use Rattle.client_session.specs.Setups.{Setup as Service};
ghost use Rattle.private_model.specs.Names.{ClientNo};
ghost use Rattle.private_model.specs.View.{Setup};
ghost use Rattle.log_story.specs.Plan.{Plan};
ghost use Rattle.log_story.specs.Tale as tales;
ghost use Rattle.log_story.specs.Tale.{Tale};
ghost use Rattle.log_story.specs.Telling.{tale_step, told};
ghost use Rattle.step_laws.specs.Seats.{is_its};
ghost use Rattle.step_laws.specs.Steps.{IsOfNone, IsOfOne, told_then};
ghost use Rattle.step_laws.specs.Taken.{IsAsItWas, IsIdle};
ghost use Rattle.core_tables.specs.Tables.{Tabled};
ghost use Rattle.core_stands.specs.Grounds.{AreOver, Ground, on};
ghost use Rattle.core_stands.specs.Stands.{Rests, Stands};
ghost use Rattle.core_laws.specs.entry.Calms.{EndNow, IsAside, IsLeftCalm};
ghost use Rattle.core_laws.specs.entry.Entries.{AreCalmToo, AreSpared, IsOfNobody, KeepsIdle, KeepsSeats, TellsOf, behind};

/// An entry as it is told leaves what a client may take up next, that it doesn't concern; and so does all of the entry, of one client or of
/// none.
pub fn others_keep_calm()
    ensures told { (setup : Setup) (plan : Plan) (client : tales.Client) (tale : Tale) (e : Entry) → IsAside setup tale e client.number
        → IsAsItWas setup plan tale (told setup plan tale e) client }
    ensures one { (setup : Setup) (plan : Plan) (client called : tales.Client) (tale : Tale) (e : Entry) (ended : List ClientNo) (freed : Tale)
        → IsOfOne setup plan tale e called ended freed → All (λ (c : ClientNo). is_its called c ≡ true) ended
        → is_its called client.number ≡ false → IsLeftCalm setup plan tale e client
        → IsIdle setup plan (tale_step setup plan tale e) client }
    ensures none { (setup : Setup) (plan : Plan) (client : tales.Client) (tale : Tale) (e : Entry) (ended : List ClientNo) (freed : Tale)
        (whose : ClientNo → Bool) → IsOfNone setup plan tale e ended freed → All (λ (c : ClientNo). whose c ≡ true) ended
        → whose client.number ≡ false → IsLeftCalm setup plan tale e client
        → IsIdle setup plan (tale_step setup plan tale e) client }
{}

/// And other clients stand among the clients as they stood.
pub fn others_keep_seats()
    ensures told { (setup : Setup) (plan : Plan) (whose : ClientNo → Bool) (tale : Tale) (e : Entry) → TellsOf whose tale e
        → KeepsSeats whose tale (told setup plan tale e) }
    ensures one { (setup : Setup) (plan : Plan) (client : tales.Client) (tale : Tale) (e : Entry) (ended : List ClientNo) (freed : Tale)
        → IsOfOne setup plan tale e client ended freed → All (λ (c : ClientNo). is_its client c ≡ true) ended
        → TellsOf (is_its client) tale e → KeepsSeats (is_its client) tale (tale_step setup plan tale e) }
    ensures none { (setup : Setup) (plan : Plan) (whose : ClientNo → Bool) (tale : Tale) (e : Entry) (ended : List ClientNo) (freed : Tale)
        → IsOfNone setup plan tale e ended freed → TellsOf whose tale e → KeepsSeats whose tale (tale_step setup plan tale e) }
{}

/// The plan has ended just those who ended before and those who end now.
pub fn overs_go_on()
    ensures { (old new : Ground) → new.plan ≡ old.plan → new.tale.moment ≡ suc old.tale.moment → AreOver old → EndNow old new
        → AreOver new }
{}

/// Tables that stand for the tale behind an entry rest for it, where none but these clients are of the entry, and of these none has a
/// message that is up, but who has room again.
pub fn entries_rest()
    ensures { (service : Service) (g : Ground) (t now : Tabled) (roomy room : ClientNo → Bool) (e : Entry) (over whose : ClientNo → Bool)
        → Rests service g t roomy → Stands service (behind g e over) now → EndNow g (behind g e over)
        → KeepsSeats whose g.tale (behind g e over).tale → KeepsIdle whose g.setup g.plan g.tale (behind g e over).tale
        → ((c : ClientNo) → whose c ≡ false → room c ≡ false → roomy c ≡ false)
        → AreCalmToo whose (behind g e over) room → Rests service (behind g e over) now room }
{}

/// So it is of an entry of one client: by what is told and counted, links are given back, its messages are taken up, it may be ended, and
/// links are given back.
pub fn entries_of_one()
    ensures { (service : Service) (g : Ground) (t now : Tabled) (roomy room : ClientNo → Bool) (e : Entry) (over : ClientNo → Bool)
        (client : tales.Client) (ended : List ClientNo) (freed : Tale) → Rests service g t roomy
        → IsOfOne g.setup g.plan g.tale e client ended freed → All (λ (c : ClientNo). is_its client c ≡ true) ended
        → TellsOf (is_its client) g.tale e → AreSpared (is_its client) g e → Stands service (behind g e over) now
        → EndNow g (behind g e over) → ((c : ClientNo) → is_its client c ≡ false → room c ≡ false → roomy c ≡ false)
        → AreCalmToo (is_its client) (behind g e over) room → Rests service (behind g e over) now room }
{}

/// And of an entry by which no link is given back, no client is called and none is ended: all its step is that it is told and counted.
pub fn entries_of_nobody()
    ensures step { (service : Service) (g : Ground) (t : Tabled) (roomy : ClientNo → Bool) (e : Entry) → Rests service g t roomy
        → IsOfNobody g e → tale_step g.setup g.plan g.tale e ≡ told_then g.setup g.plan g.tale e }
    ensures rest { (service : Service) (g : Ground) (t now : Tabled) (roomy room : ClientNo → Bool) (e : Entry) (whose : ClientNo → Bool)
        → Rests service g t roomy → IsOfNobody g e → TellsOf whose g.tale e → AreSpared whose g e
        → Stands service (on g (told_then g.setup g.plan g.tale e)) now
        → ((c : ClientNo) → whose c ≡ false → room c ≡ false → roomy c ≡ false)
        → AreCalmToo whose (behind g e g.over) room → Rests service (behind g e g.over) now room }
{}
