// Routers that answer in place of a server for no cause: none that keeps its clients apart does so.
ghost use Rattle.std.specs.Prelude.{◌≡◌, ◌≤◌, ◌+◌, ◌++◌, ℕ, suc, List, false};
ghost use Rattle.client_session.specs.Errors.{connection_lost};
ghost use Rattle.core_promises.specs.Causes.{is_carried, is_taken_up, may_give_up};
ghost use Rattle.core_promises.specs.Wrong.{AnswersAtOnce, IsGivenUp};
ghost use Rattle.log_story.specs.Headline.{tale_of};
ghost use Rattle.log_story.specs.Owed.{name_of};
ghost use Rattle.log_story.specs.Tale.{Client};
ghost use Rattle.mx_wire.specs.Log.{Log, moment_of};
ghost use Rattle.mx_wire.specs.declared.entry.Entry.{Entry};
ghost use Rattle.mx_wire.specs.declared.entry.Entry.TheVariants.{Ended, Woke};
ghost use Rattle.private_model.specs.Names.{LinkId};
ghost use Rattle.router_promises.specs.Errors.{no_connection};
ghost use Rattle.router_promises.specs.Now.{is_gone};
ghost use Rattle.router_promises.specs.Terms.{Terms, plan_in, setup_in};

/// A statement is given up as a client comes, or sends something, or as anything else happens that is neither a wake, nor is heard of a link to a server,
/// nor is an open that failed.
pub fn gives_up_at_any_time()
    ensures { (terms : Terms) (before : Log) (e : Entry) (client : Client) (payload : List ℕ)
        → IsGivenUp terms before e client payload → may_give_up e ≡ false → ⊥ }
{}

/// A client is told that its link was lost as none is.
pub fn gives_up_without_a_loss()
    ensures { (terms : Terms) (before : Log) (e : Entry) (client : Client)
        → IsGivenUp terms before e client connection_lost → is_gone e ≡ false → ⊥ }
{}

/// It is told so as a link is lost that carries no session of its.
pub fn gives_up_for_anothers_link()
    ensures { (terms : Terms) (before : Log) (link : LinkId) (client : Client)
        → IsGivenUp terms before (Ended link) client connection_lost
        → is_carried (setup_in terms) (tale_of (setup_in terms) (plan_in terms) before) link client.number ≡ false → ⊥ }
{}

/// It is told that no link was lent to it since a moment, whichever that is, where its statement wasn't taken up yet at any moment that is as long ago as
/// statements wait.
pub fn gives_up_too_soon()
    ensures { (terms : Terms) (before : Log) (until_ms now_ms since : ℕ) (client : Client)
        → (given : IsGivenUp terms before (Woke until_ms now_ms) client (no_connection since now_ms))
        → ((past later : Log) → before ≡ past ++ later → moment_of past + terms.router.proxy.wait_ms ≤ now_ms
        → is_taken_up (name_of client (suc given.count)) (tale_of (setup_in terms) (plan_in terms) past) ≡ false) → ⊥ }
{}

/// It answers what goes to a server as it takes it up, before any server can have answered.
pub fn answers_what_it_sends()
    ensures { (terms : Terms) (log : Log) (client : Client) → AnswersAtOnce terms log client → ⊥ }
{}
