// What is given up stands on no sound link.
ghost use Rattle.std.specs.Prelude.{◌≡◌, List, Option, Some, false, ℕ};
ghost use Rattle.client_session.specs.Setups.{Setup as Service};
ghost use Rattle.private_model.specs.Names.{ClientNo, LinkId};
ghost use Rattle.core_tables.specs.Tables.{Tabled};
ghost use Rattle.core_stands.specs.Grounds.{Ground};
ghost use Rattle.core_stands.specs.Stands.{Stands};
ghost use Rattle.core_laws.specs.parting.Partings.{AreGivenUp};
ghost use Rattle.router_laws.specs.reading.Givings.{MayBeGivenUp};

/// Statements that are given up as this link is read, which weren't sent, or whose links broke, stand on no sound link.
pub fn given_up_aside()
    ensures { (service : Service) (g : Ground) (t : Tabled) (l : LinkId) (given : ClientNo → Option (List ℕ)) → Stands service g t
        → ((c : ClientNo) (payload : List ℕ) → given c ≡ Some payload → MayBeGivenUp l c t) → AreGivenUp given (λ (other : LinkId). false) t }
{}
