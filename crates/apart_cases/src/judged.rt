// Routers that do with a message what no verdict says.
ghost use Rattle.std.specs.Prelude.{◌≡◌, ℕ, List, [], ◌∷◌, codes};
ghost use Rattle.core_promises.specs.Wrong.{AnswersBy, AsksFor, SendsBy, book_up};
ghost use Rattle.log_story.specs.Plan.{Route, com_query};
ghost use Rattle.reply_text.specs.Replies.{ok_payload};
ghost use Rattle.router_promises.specs.Terms.{Terms};
ghost use Rattle.router_promises.specs.Verdicts.{com_ping, com_quit};

use core_promises::{answers_for_a_server, sends_another_command, sends_what_is_refused};

/// Where there are no rules, a query is answered OK in place of a server.
pub fn answers_ok_by_itself()
    ensures { (terms : Terms) (text info : List ℕ) (status : ℕ)
        (answers : AnswersBy terms (com_query ∷ text) (ok_payload status info ∷ []))
        → (book_up answers.up).rules ≡ [] → ⊥ }
{
    answers_for_a_server();
}

/// A KILL goes to a server.
pub fn sends_a_kill()
    ensures { (terms : Terms) (payload : List ℕ) → AsksFor terms payload (codes "KILL 7") → ⊥ }
{
    sends_what_is_refused();
}

/// A global setting is set there.
pub fn sets_a_server()
    ensures { (terms : Terms) (payload : List ℕ)
        → AsksFor terms payload (codes "SET GLOBAL read_only = 1") → ⊥ }
{
    sends_what_is_refused();
}

/// A QUIT of a client goes to a server.
pub fn sends_a_quit()
    ensures { (terms : Terms) (rest : List ℕ) (route : Route)
        → SendsBy terms (com_quit ∷ rest) route → ⊥ }
{
    sends_another_command();
}

/// A PING does.
pub fn sends_a_ping()
    ensures { (terms : Terms) (rest : List ℕ) (route : Route)
        → SendsBy terms (com_ping ∷ rest) route → ⊥ }
{
    sends_another_command();
}
