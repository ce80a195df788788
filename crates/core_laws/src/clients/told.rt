// A client is told its last word, and ends.
ghost use Rattle.std.specs.Prelude.{◌≡◌, ℕ, List, Some, [], ◌∷◌, false, is_some, true};
ghost use Rattle.client_session.specs.Setups.{Setup as Service};
ghost use Rattle.private_model.specs.Names.{ClientNo};
ghost use Rattle.log_story.specs.Plan.{Behind, LastWord, word_at};
ghost use Rattle.client_seat.specs.Seats.{account_in};
ghost use Rattle.core_tables.specs.Tables.{Tabled};
ghost use Rattle.core_tables.specs.declared.client.Client.{Client};
ghost use Rattle.core_stands.specs.Grounds.{Ground};
ghost use Rattle.core_laws.specs.clients.Following.{StandTold};
ghost use Rattle.core_laws.specs.clients.Follows.{IsUnfaulty};
ghost use Rattle.core_laws.specs.clients.Turns.{Choice, Rests, Turns};

/// Behind turns that rest no error stands next in what is kept of a client that waits for nothing.
pub fn rests_are_unfaulty()
    ensures { (service : Service) (default : List ℕ) (c : ClientNo) (choices : List Choice) (old new : Tabled) (row : Client)
        → Turns choices Rests service default c old new → new.clients c ≡ Some row → is_some (account_in row.desk.seat.phase) ≡ true
        → row.desk.seat.answered ≡ true → IsUnfaulty row.desk.seat.client }
{}

/// By a plan that has its last word behind all that it was answered, the tables stand that one is told it, and ends.
pub fn told_stands()
    ensures { (service : Service) (payload : List ℕ) (g : Ground) (c : ClientNo) (moment : ℕ) (word : LastWord) → g.over c ≡ false
        → word_at g.plan moment c ≡ Some word → word.place ≡ Behind → word.payloads ≡ payload ∷ []
        → StandTold payload service g c moment }
{
    crate::parting::left_stands();
    crate::parting::same_stands();
}
