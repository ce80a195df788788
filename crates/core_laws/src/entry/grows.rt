// More is decided at an entry, and replies stay.
ghost use Rattle.std.specs.Prelude.{◌≡◌, ◌≤◌, ℕ, suc, All, List, Option, Some, false};
ghost use Rattle.mx_wire.specs.declared.entry.Entry.{Entry};
ghost use Rattle.packet_frame.specs.Packets.{Framed};
ghost use Rattle.client_seat.specs.Stands.{Known, answer_to};
ghost use Rattle.private_model.specs.Commands.{Reply};
ghost use Rattle.private_model.specs.Lawful.{IsLawful};
ghost use Rattle.private_model.specs.Names.{ClientNo, MessageName};
ghost use Rattle.private_model.specs.View.{Setup};
ghost use Rattle.log_story.specs.Plan.{OwnAnswer, Plan, gives_up, word_at};
ghost use Rattle.log_story.specs.Tale.{Client, Tale, view_of};
ghost use Rattle.log_story.specs.Telling.{tale_step};
ghost use Rattle.step_laws.specs.Steps.{ends_now};
ghost use Rattle.tale_world.specs.Decided.{Decided};
ghost use Rattle.core_laws.specs.entry.Dues.{AnswersStay};
ghost use Rattle.core_laws.specs.entry.Grows.{DecidesNothing, IsHeardMore, IsMoreBy};
ghost use Rattle.core_laws.specs.entry.Tells.{AreWhoTheySay, IsOf};

/// A plan that has what is decided behind an entry has what was decided before it; and clients that are who they say were.
pub fn decisions_grow()
    ensures plans { (old new : Decided) (moment : ℕ) (plan : Plan) → IsMoreBy moment old new → IsOf new (suc moment) plan
        → IsOf old moment plan }
    ensures clients { (setup : Setup) (plan : Plan) (default : List ℕ) (old new : Tale)
        → All (λ (client : Client). IsHeardMore new client) old.clients → AreWhoTheySay setup plan default new.clients
        → AreWhoTheySay setup plan default old.clients }
{}

/// In a lawful story a message is answered once, so its reply stays at an entry; and where nothing is given up that was answered, so does
/// the answer to its client.
pub fn replies_stay()
    ensures replies { (setup : Setup) (plan : Plan) (tale : Tale) (e : Entry) → IsLawful setup (tale_step setup plan tale e).story
        → (m : MessageName) (reply : Reply) → (view_of setup tale).replies m ≡ Some reply
        → (view_of setup (tale_step setup plan tale e)).replies m ≡ Some reply }
    ensures answers { (x y : Known) (client : Client) → AnswersStay x y client → (ordinal : ℕ) (message : Framed) (bytes : List ℕ)
        → ordinal ≤ client.taken → answer_to x client ordinal message ≡ Some bytes → answer_to y client ordinal message ≡ Some bytes }
{}

/// Where nothing is decided at a moment, nothing is given up then of which it was decided whether the router answers it, nobody is ended, and
/// last words are as they were.
pub fn decisions_wait()
    ensures given { (d : Decided) (moment : ℕ) (plan : Plan) → DecidesNothing d moment → IsOf d (suc moment) plan
        → (m : MessageName) (own : Option OwnAnswer) → d.own m ≡ Some own → gives_up plan (suc moment) m ≡ false }
    ensures ended { (d : Decided) (moment : ℕ) (plan : Plan) → DecidesNothing d moment → IsOf d (suc moment) plan
        → (c : ClientNo) → ends_now plan (suc moment) c ≡ false }
    ensures told { (d : Decided) (moment : ℕ) (plan : Plan) → DecidesNothing d moment → IsOf d (suc moment) plan
        → (c : ClientNo) → word_at plan (suc moment) c ≡ word_at plan moment c }
{}
