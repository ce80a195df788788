// Routers that send other text for a client than its own, or send it twice: none that keeps its clients apart does so.
ghost use Rattle.std.specs.Prelude.{◌≡◌, ◌≢◌, ℕ, List, [], drop, Some};
ghost use Rattle.core_promises.specs.Sessions.{KeepsApart};
ghost use Rattle.core_promises.specs.Wrong.{AsksFor, book_up};
ghost use Rattle.log_story.specs.Plan.{Route};
ghost use Rattle.mx_wire.specs.Log.{Log};
ghost use Rattle.private_model.specs.Names.{Hostgroup, MessageName};
ghost use Rattle.query_rules.specs.Passing.{route_of};
ghost use Rattle.query_rules.specs.declared.ask.Ask.{Ask};
ghost use Rattle.router_promises.specs.Terms.{Terms, plan_in};

/// A message goes to a server as a text that no pass over the rules makes of its own: as another client's, say.
pub fn asks_other_texts()
    ensures { (terms : Terms) (payload text : List ℕ) (asks : AsksFor terms payload text)
        → ((ask : Ask) → ask.text ≡ drop 1 payload → text ≢ (route_of (book_up asks.sends.up).rules ask).text) → ⊥ }
{}

/// Where there are no rules it goes as another text.
pub fn rewrites_without_rules()
    ensures { (terms : Terms) (payload text : List ℕ) (asks : AsksFor terms payload text)
        → (book_up asks.sends.up).rules ≡ [] → text ≢ drop 1 payload → ⊥ }
{}

/// A copy of a message goes to a second server, as anybody's.
pub fn copies_a_message()
    ensures { (terms : Terms) (log : Log) (m : MessageName) (route : Route) (second : Hostgroup)
        → KeepsApart terms log → (plan_in terms).routes m ≡ Some route → route.mirror ≡ Some second → ⊥ }
{}
