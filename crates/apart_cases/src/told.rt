// Routers that tell clients what isn't theirs, or take a client for another.
ghost use Rattle.std.specs.Prelude.{◌≡◌, ◌≢◌, ℕ, ◌<◌, Bool, false, List, [], ◌∷◌, ◌++◌, length, slice_index_or, Some};
ghost use Rattle.client_session.specs.Answers.{account, opening_of};
ghost use Rattle.client_side.specs.Login.{Says};
ghost use Rattle.core_promises.specs.Sessions.{KeepsApart};
ghost use Rattle.core_promises.specs.Wrong.{Has};
ghost use Rattle.handshake.specs.declared.response.Response.{Response};
ghost use Rattle.log_story.specs.Honest.{IsFront};
ghost use Rattle.log_story.specs.Owed.{talk_of};
ghost use Rattle.log_story.specs.Tale.{Client};
ghost use Rattle.mx_base.specs.declared.names.LinkId.{LinkId};
ghost use Rattle.mx_base.specs.declared.names.Port.{Port};
ghost use Rattle.mx_base.specs.declared.tag.Tag.{Tag};
ghost use Rattle.mx_wire.specs.Log.{Log, is_open, of_link, written_of};
ghost use Rattle.mx_wire.specs.declared.entry.Entry.TheVariants.{Accepted, Wrote};
ghost use Rattle.private_model.specs.Names.{MessageName};
ghost use Rattle.reply_text.specs.Replies.{err_payload};
ghost use Rattle.router_promises.specs.Due.{due_to};
ghost use Rattle.router_promises.specs.Now.{now_at};
ghost use Rattle.router_promises.specs.Router.{service_of};
ghost use Rattle.router_promises.specs.Terms.{Terms, login_as, plan_in, tale_at};
ghost use Rattle.server_side.specs.Account.{Account as Login};

use own_words::answers_with_a_servers_error;

/// A client is told other bytes than it is due: the reply to another's statement, say.
pub fn tells_other_bytes()
    ensures { (terms : Terms) (before more : Log) (k : ℕ) (client : Client)
        → KeepsApart terms (before ++ more)
        → k < length (now_at terms before).tale.clients
        → slice_index_or (now_at terms before).tale.clients k client ≡ client
        → (IsFront (written_of client.link before) (due_to terms (now_at terms before) client) → ⊥)
        → ⊥ }
{}

/// It is told more than it is due: an answer before the reply came, or one to nothing that it asked.
pub fn tells_more_than_is_due()
    ensures { (terms : Terms) (before more : Log) (k : ℕ) (client : Client) (byte : ℕ) (bytes : List ℕ)
        → KeepsApart terms (before ++ more)
        → k < length (now_at terms before).tale.clients
        → slice_index_or (now_at terms before).tale.clients k client ≡ client
        → written_of client.link before ≡ due_to terms (now_at terms before) client ++ byte ∷ bytes
        → ⊥ }
{}

/// A client is taken for another than it says it is.
pub fn logs_in_as_another()
    ensures { (terms : Terms) (before more : Log) (k : ℕ) (client : Client) (switched : Bool)
        (response : Response) (id : ℕ) (rest : List ℕ) (login : Login)
        → KeepsApart terms (before ++ more)
        → k < length (tale_at terms before).clients
        → slice_index_or (tale_at terms before).clients k client ≡ client
        → opening_of (talk_of (plan_in terms) client) ≡ Says switched response id rest
        → account (talk_of (plan_in terms) client) ≡ Some login
        → terms.decided.accounts client.number ≢ login_as login → ⊥ }
{}

/// Clients log in by other users than the configuration's.
pub fn serves_others()
    ensures { (terms : Terms) (log : Log) → KeepsApart terms log
        → (plan_in terms).service ≢ service_of terms.router → ⊥ }
{}

/// A message is answered with a server's error, which quotes another's statement.
pub fn quotes_a_server()
    ensures { (terms : Terms) (log : Log) (m : MessageName) (from : ℕ) (state text : List ℕ)
        → KeepsApart terms log
        → (plan_in terms).own m ≡ Some (record { from = from; payloads = err_payload 1064 state text ∷ [] })
        → ⊥ }
{
    answers_with_a_servers_error();
}

/// Bytes are written on a link that isn't open.
pub fn writes_on_a_closed_link()
    ensures { (terms : Terms) (before : Log) (link : LinkId) (tag : Tag) (bytes : List ℕ)
        → Has terms before (Wrote link tag bytes) → is_open link before ≡ false → ⊥ }
{}

/// A client comes on a link whose number was another's.
pub fn gives_a_number_twice()
    ensures { (terms : Terms) (before : Log) (port : Port) (link : LinkId) (salt : List ℕ)
        → Has terms before (Accepted port link salt) → of_link link before ≢ [] → ⊥ }
{}
