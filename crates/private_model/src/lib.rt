//! Sessions of their own: what is proved of stories, logs and servers, and of no code.
#![tactic(auto)]

ghost use Rattle.std.specs.Prelude.{◌≡◌, ℕ, List, [], ◌∷◌, ◌++◌, Some};
ghost use Rattle.private_model.specs.Commands.{InitDb, Reply, runs};
ghost use Rattle.private_model.specs.Headline.{MeetsPrivate};
ghost use Rattle.private_model.specs.Honest.{IsAccepted, IsHonest};
ghost use Rattle.private_model.specs.Lawful.{IsLawful, MaySend};
ghost use Rattle.private_model.specs.Story.{Due, Own, Statement, Story, Sync};
ghost use Rattle.private_model.specs.View.{Link, Setup, View, view_after};
ghost use Rattle.private_model.specs.Worlds.{real_after, private_after};
ghost use Rattle.server_rule.specs.Laws.{IsTame};
ghost use Rattle.server_rule.specs.Servers.{Step, Tests};
ghost use Rattle.session_state.specs.declared.names.MessageName.{MessageName};
ghost use Rattle.session_state.specs.declared.names.SessionName.{SessionName};

/// Where servers are tame and answer honestly, and what is sent to them is lawful, each statement meets the session
/// that its client would have for itself, and is answered as there.
pub fn private_world()
    ensures { (setup : Setup) (tests : Tests) (server : Step) (story : Story) → IsTame setup.reads tests server → IsAccepted setup tests → IsLawful setup story → IsHonest setup (runs server) story → MeetsPrivate setup.reads tests (view_after setup story) (real_after setup (runs server) story) (private_after setup (runs server) story) }
{}

/// What was read in answer to a message is what its client's own session answered: how a caller cites the law.
pub fn private_replies()
    ensures { (setup : Setup) (tests : Tests) (server : Step) (story : Story) → IsTame setup.reads tests server → IsAccepted setup tests → IsLawful setup story → IsHonest setup (runs server) story → (message : MessageName) (reply : Reply) → (view_after setup story).replies message ≡ Some reply → (private_after setup (runs server) story).answers message ≡ Some reply }
{
    private_world();
}

/// The law holds at every moment of a story: whatever came later, what was promised of the past stood then.
pub fn private_at_each_moment()
    ensures { (setup : Setup) (tests : Tests) (server : Step) (later past : Story) → IsTame setup.reads tests server → IsAccepted setup tests → IsLawful setup (later ++ past) → IsHonest setup (runs server) (later ++ past) → MeetsPrivate setup.reads tests (view_after setup past) (real_after setup (runs server) past) (private_after setup (runs server) past) }
{
    private_world();
}

/// Once a link was told a schema, no statement of a client without one is sent there, and no INIT_DB leads it back.
pub fn no_schema_is_left()
    ensures statement { (setup : Setup) (view : View) (n : SessionName) (due : Due) (link : Link) (name : ℕ) (rest : List ℕ) → link.told.schema ≡ Some (name ∷ rest) → due.place.schema ≡ [] → MaySend setup view link (Statement n due) → ⊥ }
    ensures step { (setup : Setup) (view : View) (n : SessionName) (link : Link) → MaySend setup view link (Sync n (InitDb [])) → ⊥ }
    ensures own { (setup : Setup) (view : View) (link : Link) → MaySend setup view link (Own (InitDb [])) → ⊥ }
{}
