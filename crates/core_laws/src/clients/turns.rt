// A client's turns: its messages are taken up one by one.
ghost use Rattle.std.specs.Prelude.{◌+◌, ◌≡◌, ◌≤◌, ℕ, suc, length, List};
ghost use Rattle.client_session.specs.Setups.{Setup as Service};
ghost use Rattle.private_model.specs.Names.{ClientNo};
ghost use Rattle.log_story.specs.Owed.{messages, name_of, talk_of};
ghost use Rattle.log_story.specs.Tale as tales;
ghost use Rattle.log_story.specs.Tale.{Tale};
ghost use Rattle.core_tables.specs.Tables.{Tabled};
ghost use Rattle.core_stands.specs.Grounds.{Ground};
ghost use Rattle.core_laws.specs.clients.Chosen.{IsTurning, PlanHas, StandsBehind};
ghost use Rattle.core_laws.specs.clients.Found.{AreFoundAt};
ghost use Rattle.core_laws.specs.clients.Turns.{Choice, Halt, Turns, count_by};
ghost use Rattle.router_promises.specs.Takings.{takings_of};

/// By a plan that has what was decided of its messages, the tables stand behind a client's turns for the tale with all that it took up; or it
/// ended.
pub fn turns_stand()
    ensures { (service : Service) (default : List ℕ) (first client : tales.Client) (from : Tale) (g : Ground) (t now : Tabled)
        (choices : List Choice) (halt : Halt) → IsTurning service default first from g t client
        → PlanHas choices halt g.setup.keys g.plan g.tale.moment (name_of client (suc client.taken))
        → Turns choices halt service default client.number t now → StandsBehind halt service first from (client.taken + count_by choices halt) g
        client.number now }
{
    crate::arrival::clients_look();
    crate::arrival::waits_are_idle();
    crate::taking::next_is_taken();
    crate::taking::own_answers_stand();
    crate::taking::resets_stand();
    crate::taking::quits_stand();
    crate::taking::dues_stand();
    crate::parting::left_stands();
    crate::parting::same_stands();
    crate::entry::messages_are_taken();
}

/// By a plan that has what was decided of a client's messages, those that it took up are those that came up at its turns, it is served as the user
/// that the setup has for it, and at each it stood as the tale has it just then.
pub fn turns_find()
    ensures { (service : Service) (default : List ℕ) (first client : tales.Client) (from : Tale) (g : Ground) (t now : Tabled)
        (choices : List Choice) (halt : Halt) (c : ClientNo) → client.number ≡ c → IsTurning service default first from g t client
        → PlanHas choices halt g.setup.keys g.plan g.tale.moment (name_of client (suc client.taken)) → (turns : Turns choices halt service default c t now)
        → (most : ℕ) → length (messages g.plan client) ≤ most + client.taken
        → AreFoundAt choices halt service default c t now turns g.setup g.plan (takings_of most g.setup g.plan client g.tale) (talk_of g.plan client)
        client.taken }
{
    crate::arrival::clients_look();
    crate::arrival::waits_are_idle();
    crate::taking::next_is_taken();
    crate::taking::own_answers_stand();
    crate::taking::resets_stand();
    crate::taking::quits_stand();
    crate::taking::dues_stand();
    crate::parting::left_stands();
    crate::parting::same_stands();
    crate::entry::messages_are_taken();
}
