// A client's messages are taken up one by one.
ghost use Rattle.std.specs.Prelude.{◌≡◌, Some};
ghost use Rattle.client_session.specs.Setups.{Setup as Service};
ghost use Rattle.log_story.specs.Tale as tales;
ghost use Rattle.log_story.specs.Tale.{Tale, with_client};
ghost use Rattle.step_laws.specs.Seats.{IsSeated};
ghost use Rattle.step_laws.specs.Taken.{IsIdle, all_taken, next_made, next_of};
ghost use Rattle.core_tables.specs.Tables.{Tabled};
ghost use Rattle.core_stands.specs.Grounds.{Ground, looked_at, on};
ghost use Rattle.core_stands.specs.Stands.{Stands};
ghost use Rattle.core_laws.specs.entry.Loops.{IsTaking};

/// None of a client's messages was taken up yet; it is looked at; one more is taken up; and where none is up, that was all.
pub fn messages_are_taken()
    ensures begins { (service : Service) (g : Ground) (t : Tabled) (client : tales.Client) → Stands service g t → IsSeated g.tale client
        → IsTaking service client g.tale g t client }
    ensures looks { (service : Service) (first client : tales.Client) (from : Tale) (g : Ground) (t now : Tabled)
        → IsTaking service first from g t client → Stands service (looked_at client.number g) now
        → IsTaking service first from (looked_at client.number g) now client }
    ensures goes_on { (service : Service) (first client : tales.Client) (from other : Tale) (g : Ground) (t now : Tabled)
        → IsTaking service first from g t client → next_made g.setup g.plan client g.tale ≡ Some other
        → Stands service (on g (with_client (next_of client) other)) now
        → IsTaking service first from (on g (with_client (next_of client) other)) now (next_of client) }
    ensures ends { (service : Service) (first client : tales.Client) (from : Tale) (g : Ground) (t : Tabled)
        → IsTaking service first from g t client → IsIdle g.setup g.plan g.tale client
        → all_taken g.setup g.plan first from ≡ g.tale }
{}
