// An entry is counted, and statements are given up by it.
ghost use Rattle.std.specs.Prelude.{ℕ, List, None, Option, false};
ghost use Rattle.client_session.specs.Setups.{Setup as Service};
ghost use Rattle.private_model.specs.Names.{ClientNo};
ghost use Rattle.log_story.specs.Tale.{counted};
ghost use Rattle.core_tables.specs.Parting.{given_to, given_up, given_up_in};
ghost use Rattle.core_tables.specs.Tables.{IsSame, Tabled};
ghost use Rattle.core_stands.specs.Grounds.{Ground, on};
ghost use Rattle.core_stands.specs.Stands.{Stands};
ghost use Rattle.core_laws.specs.parting.Partings.{AreCounted, AreGivenUp};

/// An entry is counted: of the messages that were taken up those are answered that are given up now.
pub fn counted_stands()
    ensures { (service : Service) (g : Ground) (t : Tabled) (given : ClientNo → Option (List ℕ))
        → Stands service g t
        → AreGivenUp given (λ l. false) t → AreCounted g given
        → Stands service (on g (counted g.tale)) (given_up_in given t) }
{
    desk_laws::given_up_stands();
    client_seat::seats_owe();
}

/// That of one client alone, as code does it; and of nobody.
pub fn given_up_alone()
    ensures one { (t : Tabled) (c : ClientNo) (payload : List ℕ)
        → IsSame (given_up c payload t) (given_up_in (given_to c payload) t) }
    ensures none { (t : Tabled) → IsSame t (given_up_in (λ c. None) t) }
{}
