// What the verdict says of a message that goes to a server; and routers that do otherwise with one: none that keeps its clients apart does so.
ghost use Rattle.std.specs.Prelude.{◌≡◌, ◌≢◌, ◌<◌, ℕ, false, true, List, [], ◌∷◌, slice_index_or, Option, Some, None};
ghost use Rattle.std.specs.Option.{option_and_then};
ghost use Rattle.core_promises.specs.Asks.{IsTextOf};
ghost use Rattle.core_promises.specs.Judges.{IsClosed, IsOpenIn, IsRoutedFor, Rulebook, Situation, rulebook_of, situation_of, transaction_of};
ghost use Rattle.core_promises.specs.Sessions.{KeepsApart};
ghost use Rattle.core_promises.specs.Statements.{number_named};
ghost use Rattle.core_promises.specs.Wrong.{AnswersBy, AsTaken, AsksFor, RefusesUser, RunsStatement, SendsBy, SetsNoFlag, StaysIn, book_up, is_for_servers, user_of};
ghost use Rattle.message_judge.specs.declared.caller.Prepared.{Prepared};
ghost use Rattle.log_story.specs.Plan.{Route, com_execute, com_init_db, com_prepare, com_query, com_statement_reset};
ghost use Rattle.mx_base.specs.declared.names.Port.TheVariants.{Admin};
ghost use Rattle.mx_wire.specs.Log.{Log};
ghost use Rattle.pin_classifier.specs.Classes.{class_of};
ghost use Rattle.pin_classifier.specs.declared.class.Refusal.{Refusal};
ghost use Rattle.private_model.specs.Names.{ClientNo, Hostgroup, MessageName};
ghost use Rattle.private_model.specs.Story.{Key};
ghost use Rattle.query_rules.specs.Effects.{is_first_flag};
ghost use Rattle.query_rules.specs.Passing.{route_of};
ghost use Rattle.query_rules.specs.declared.ask.Ask.{Ask};
ghost use Rattle.query_rules.specs.declared.ask.Stop.TheVariants.{Ok as OkBy};
ghost use Rattle.query_rules.specs.declared.rule.Rule.{Rule};
ghost use Rattle.reply_text.specs.Replies.{ok_payload};
ghost use Rattle.router_promises.specs.Errors.{unknown_statement};
ghost use Rattle.router_promises.specs.Router.{home_of};
ghost use Rattle.router_promises.specs.Takings.{Taking};
ghost use Rattle.router_promises.specs.Terms.{Terms, plan_in, setup_in};
ghost use Rattle.router_promises.specs.Verdicts.{com_ping, held_in, transaction_in, user_in};

/// What is so of a client as a message of its is taken up is what the promise of shared links knows of it then.
pub fn situations_are_promised()
    ensures transaction { (terms : Terms) (taking : Taking)
        → transaction_of (rulebook_of terms.router) (situation_of (setup_in terms) (plan_in terms) taking) ≡ transaction_in terms taking }
    ensures user { (terms : Terms) (taking : Taking)
        → (situation_of (setup_in terms) (plan_in terms) taking).user ≡ user_in terms taking }
    ensures pins { (terms : Terms) (taking : Taking) (hostgroup : Hostgroup)
        → (situation_of (setup_in terms) (plan_in terms) taking).pins hostgroup ≡ (held_in terms taking hostgroup).pin }
{}

/// Where the verdict says that a message goes to a server, it says so of the client's own text, or of what the rules make of that.
pub fn verdicts_ask()
    ensures { (book : Rulebook) (situation : Situation) (keys : (key : ℕ) → Option Key) (c : ClientNo) (payload : List ℕ) (route : Route)
        → IsRoutedFor book situation keys c payload route → IsTextOf book.rules payload route.text }
{}

/// A query goes to its user's default hostgroup where no transaction is open, and where at each flag by which rules may be tried first they leave it
/// there, as a text that reads neither an insert id nor diagnostics.
pub fn verdicts_go_home()
    ensures { (book : Rulebook) (situation : Situation) (keys : (key : ℕ) → Option Key) (c : ClientNo) (text : List ℕ) (route : Route)
        → IsRoutedFor book situation keys c (com_query ∷ text) route → IsClosed situation
        → ((ask : Ask) → ask.text ≡ text → ask.user ≡ situation.user → ask.schema ≡ situation.place.schema
        → ask.default_hostgroup ≡ book.home situation.user → is_first_flag book.rules ask.flag ≡ true
        → StaysIn (book.home situation.user) (route_of book.rules ask)) → route.hostgroup ≡ book.home situation.user }
{}

/// And where a transaction is open it goes to that one's hostgroup, whatever the rules say: of several, to the first of the configuration's.
pub fn verdicts_stay_in_transactions()
    ensures alone { (book : Rulebook) (situation : Situation) (keys : (key : ℕ) → Option Key) (c : ClientNo) (text : List ℕ) (route : Route)
        (hostgroup : Hostgroup) → IsRoutedFor book situation keys c (com_query ∷ text) route → IsOpenIn hostgroup situation
        → route.hostgroup ≡ hostgroup }
    ensures first { (book : Rulebook) (situation : Situation) (keys : (key : ℕ) → Option Key) (c : ClientNo) (text : List ℕ) (route : Route)
        (hostgroup : Hostgroup) → IsRoutedFor book situation keys c (com_query ∷ text) route → transaction_of book situation ≡ Some hostgroup
        → route.hostgroup ≡ hostgroup }
{}

/// An execute goes to a server only of what its client prepared under the number that it names: there where that was prepared, where no transaction
/// is open, and with what a rule said then of sharing the link.
pub fn verdicts_run_what_was_prepared()
    ensures { (book : Rulebook) (situation : Situation) (keys : (key : ℕ) → Option Key) (c : ClientNo) (rest : List ℕ) (route : Route)
        → IsRoutedFor book situation keys c (com_execute ∷ rest) route
        → RunsStatement book situation route (option_and_then situation.statements (number_named (com_execute ∷ rest))) }
{}

/// What is prepared gets a number under which nothing was prepared before.
pub fn verdicts_give_new_numbers()
    ensures { (book : Rulebook) (situation : Situation) (keys : (key : ℕ) → Option Key) (c : ClientNo) (text : List ℕ) (route : Route)
        → IsRoutedFor book situation keys c (com_prepare ∷ text) route → situation.given route.number ≡ false }
{}

/// An execute goes to a server of a statement that its client didn't prepare, or that it closed.
pub fn runs_what_wasnt_prepared()
    ensures { (terms : Terms) (rest : List ℕ) (route : Route) (sends : SendsBy terms (com_execute ∷ rest) route)
        → AsTaken sends.up (λ situation. option_and_then situation.statements (number_named (com_execute ∷ rest)) ≡ None) → ⊥ }
{}

/// An execute, or a reset, of a statement that its client prepared, and didn't close, is answered that it is unknown.
pub fn forgets_what_was_prepared()
    ensures runs { (terms : Terms) (rest : List ℕ) (number id : ℕ) (one : Prepared)
        (answers : AnswersBy terms (com_execute ∷ rest) (unknown_statement id ∷ []))
        → number_named (com_execute ∷ rest) ≡ Some number → 0 < number
        → AsTaken answers.up (λ situation. situation.statements number ≡ Some one) → ⊥ }
    ensures resets { (terms : Terms) (rest : List ℕ) (number id : ℕ) (one : Prepared)
        (answers : AnswersBy terms (com_statement_reset ∷ rest) (unknown_statement id ∷ []))
        → number_named (com_statement_reset ∷ rest) ≡ Some number → 0 < number
        → AsTaken answers.up (λ situation. situation.statements number ≡ Some one) → ⊥ }
{}

/// An execute goes elsewhere than its statement was prepared, and no transaction is open.
pub fn runs_elsewhere()
    ensures { (terms : Terms) (rest : List ℕ) (route : Route) (sends : SendsBy terms (com_execute ∷ rest) route) (hostgroup : Hostgroup)
        → AsTaken sends.up IsClosed
        → AsTaken sends.up (λ situation. (one : Prepared) → option_and_then situation.statements (number_named (com_execute ∷ rest)) ≡ Some one
        → one.hostgroup ≡ hostgroup) → route.hostgroup ≢ hostgroup → ⊥ }
{}

/// A text is prepared under a number that was given before.
pub fn gives_a_number_again()
    ensures { (terms : Terms) (text : List ℕ) (route : Route) (sends : SendsBy terms (com_prepare ∷ text) route)
        → AsTaken sends.up (λ situation. situation.given route.number ≡ true) → ⊥ }
{}

/// A query goes elsewhere than to its user's default hostgroup, of a client that has no transaction open as it is taken up, where the rules leave it there.
pub fn goes_elsewhere()
    ensures { (terms : Terms) (text : List ℕ) (route : Route) (sends : SendsBy terms (com_query ∷ text) route)
        → AsTaken sends.up IsClosed
        → ((ask : Ask) → ask.text ≡ text → ask.user ≡ user_of sends.up → ask.default_hostgroup ≡ home_of terms.router (user_of sends.up)
        → is_first_flag (book_up sends.up).rules ask.flag ≡ true → StaysIn (home_of terms.router (user_of sends.up)) (route_of (book_up sends.up).rules ask))
        → route.hostgroup ≢ home_of terms.router (user_of sends.up) → ⊥ }
{}

/// It goes elsewhere than to the hostgroup of the transaction that its client has open.
pub fn leaves_its_transaction()
    ensures { (terms : Terms) (text : List ℕ) (route : Route) (sends : SendsBy terms (com_query ∷ text) route) (hostgroup : Hostgroup)
        → AsTaken sends.up (IsOpenIn hostgroup) → route.hostgroup ≢ hostgroup → ⊥ }
{}

/// An administrator's message goes to a server.
pub fn sends_for_an_administrator()
    ensures { (terms : Terms) (payload : List ℕ) (route : Route) (sends : SendsBy terms payload route)
        → AsTaken sends.up (λ situation. situation.port ≡ Admin) → ⊥ }
{}

/// A text goes to a server that is refused, whatever its client: a KILL, or a SET GLOBAL.
pub fn sends_what_is_refused()
    ensures { (terms : Terms) (payload text : List ℕ) (why : Refusal) → AsksFor terms payload text
        → (class_of text).refusal ≡ Some why → ⊥ }
{}

/// A command goes to a server that is no query, no text to be prepared, no execute, no choice of a schema and no question for a table's columns: a
/// QUIT, a PING, a STMT_CLOSE.
pub fn sends_another_command()
    ensures { (terms : Terms) (payload : List ℕ) (route : Route) → SendsBy terms payload route
        → is_for_servers (slice_index_or payload 0 0) ≡ false → ⊥ }
{}

/// A query goes to a server that the rules answer for its client's user, in the schema where it stands as it is taken up, at each flag by which they may be
/// tried first.
pub fn goes_past_a_rule()
    ensures { (terms : Terms) (text : List ℕ) (route : Route) (sends : SendsBy terms (com_query ∷ text) route)
        → AsTaken sends.up (λ situation. (ask : Ask) → ask.text ≡ text → ask.user ≡ situation.user → ask.schema ≡ situation.place.schema
        → is_first_flag (book_up sends.up).rules ask.flag ≡ true → (route_of (book_up sends.up).rules ask).stop ≢ None) → ⊥ }
{}

/// A query goes to a server of a client whose user the first rule refuses.
pub fn goes_past_a_rule_of_its_user()
    ensures { (terms : Terms) (text why : List ℕ) (route : Route) (rule : Rule) (others : List Rule)
        (sends : SendsBy terms (com_query ∷ text) route) → (book_up sends.up).rules ≡ rule ∷ others → RefusesUser (user_of sends.up) why rule
        → SetsNoFlag (book_up sends.up).rules → ⊥ }
{}

/// A query is answered by nothing.
pub fn answers_nothing()
    ensures { (terms : Terms) (text : List ℕ) → AnswersBy terms (com_query ∷ text) [] → ⊥ }
{}

/// A query that no rule answers OK for its client's user, in the schema where it stands as it is taken up, at a flag by which they may be tried first, is
/// answered OK in place of a server.
pub fn answers_for_a_server()
    ensures { (terms : Terms) (text info : List ℕ) (status : ℕ)
        (answers : AnswersBy terms (com_query ∷ text) (ok_payload status info ∷ []))
        → AsTaken answers.up (λ situation. (ask : Ask) (said : List ℕ) → ask.text ≡ text → ask.user ≡ situation.user
        → ask.schema ≡ situation.place.schema → is_first_flag (book_up answers.up).rules ask.flag ≡ true
        → (route_of (book_up answers.up).rules ask).stop ≢ Some (OkBy said)) → ⊥ }
{}

/// The choice of a schema is.
pub fn answers_a_choice()
    ensures { (terms : Terms) (schema info : List ℕ) (status : ℕ)
        → AnswersBy terms (com_init_db ∷ schema) (ok_payload status info ∷ []) → ⊥ }
{}

/// A PING is answered by anything but an OK without a text.
pub fn answers_a_ping_otherwise()
    ensures { (terms : Terms) (rest : List ℕ) (payloads : List (List ℕ))
        → AnswersBy terms (com_ping ∷ rest) payloads
        → ((status : ℕ) → payloads ≢ ok_payload status [] ∷ []) → ⊥ }
{}
