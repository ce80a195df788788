// Bytes are read on a link to a server.
ghost use Rattle.std.specs.Prelude.{◌≡◌, ◌||◌, ℕ, suc, Bool, List, Option, false};
ghost use Rattle.mx_wire.specs.Log.{Log};
ghost use Rattle.client_session.specs.Setups.{Setup as Service};
ghost use Rattle.private_model.specs.Names.{ClientNo, LinkId};
ghost use Rattle.step_laws.specs.Steps.{ends_now};
ghost use Rattle.core_tables.specs.Tables.{Tabled};
ghost use Rattle.core_stands.specs.Grounds.{Ground};
ghost use Rattle.core_stands.specs.Stands.{Rests};
ghost use Rattle.core_laws.specs.clients.Going.{GivenUp, Going};
ghost use Rattle.router_laws.specs.decisions.Goings.{deeds_of};
ghost use Rattle.router_laws.specs.reading.Hearing.{AreHeard, IsHearing};
ghost use Rattle.router_laws.specs.reading.Hears.{HearsSo};

/// The tables rest behind it.
pub fn hears_rest()
    ensures { (service : Service) (default : List ℕ) (g : Ground) (log : Log) (t now : Tabled) (roomy room over : ClientNo → Bool) (l : LinkId)
        (bytes : List ℕ) (clock : ℕ) (given : Option GivenUp) (going : Option Going) → Rests service g t roomy
        → IsHearing service default g log l bytes given going → HearsSo service default l bytes clock given going t now
        → ((c : ClientNo) → over c ≡ (g.over c || ends_now g.plan (suc g.tale.moment) c))
        → ((c : ClientNo) → room c ≡ false → roomy c ≡ false)
        → AreHeard service g l bytes (deeds_of given going) over room now }
{
    core_laws::hearing::bytes_are_heard();
    core_laws::parting::counted_stands();
    core_laws::parting::freed_stands();
    core_laws::parting::lawful_homes();
    core_laws::parting::same_stands();
    core_laws::clients::follows_rest();
}
