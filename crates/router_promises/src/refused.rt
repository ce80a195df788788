// Routers that are wrong: no log that keeps the promises has what they do.
ghost use Rattle.std.specs.Prelude.{◌≡◌, ◌≢◌, ℕ, ◌+◌, ◌<◌, ◌≤◌, true, false, List, ◌∷◌, length, slice_index_or, Some};
ghost use Rattle.mx_base.specs.declared.names.Address.{Address};
ghost use Rattle.mx_base.specs.declared.names.LinkId.{LinkId};
ghost use Rattle.mx_base.specs.declared.names.ServerId.{ServerId};
ghost use Rattle.mx_base.specs.declared.tag.Tag.TheVariants.{Own as OwnTag};
ghost use Rattle.mx_wire.specs.Log.{Log, is_open, written_of};
ghost use Rattle.mx_wire.specs.declared.entry.Entry.{Entry};
ghost use Rattle.mx_wire.specs.declared.entry.Entry.TheVariants.{Opened, Closed, Wrote};
ghost use Rattle.ready_loop.specs.Drained.{write_dry};
ghost use Rattle.private_model.specs.Commands.{Quit};
ghost use Rattle.log_story.specs.Plan.{Asks};
ghost use Rattle.log_story.specs.Servers.{may_begin};
ghost use Rattle.log_story.specs.Tale.{Client, is_to_server};
ghost use Rattle.router_promises.specs.Due.{due_to};
ghost use Rattle.router_promises.specs.Keys.{LinkKey, has_room, how_many, is_free, is_idle, is_opening, is_stepping, waiting};
ghost use Rattle.router_promises.specs.Now.{now_at, wire_now};
ghost use Rattle.router_promises.specs.Router.{may_log_in};
ghost use Rattle.router_promises.specs.Running.{hostgroup_of};
ghost use Rattle.router_promises.specs.Terms.{Terms, login_as, plan_in, setup_in};
ghost use Rattle.router_promises.specs.Wrong.{Has, HasNoCause, IsWait};

/// A link is opened although no more statements of its key wait than links are free or opening.
pub fn opens_one_too_many()
    ensures { (terms : Terms) (before : Log) (server : ServerId) (address : Address) (link : LinkId)
        → Has terms before (Opened server address link)
        → ((key : LinkKey) → hostgroup_of terms.router server ≡ Some key.hostgroup
        → key.account ≡ login_as ((plan_in terms).logins link)
        → waiting terms (now_at terms before) key
        ≤ how_many is_free terms before (now_at terms before) key + how_many is_opening terms before
        (now_at terms before) key) → ⊥ }
{}

/// A link is opened to a server that has no room.
pub fn opens_without_room()
    ensures { (terms : Terms) (before : Log) (server : ServerId) (address : Address) (link : LinkId)
        → Has terms before (Opened server address link)
        → has_room before (now_at terms before) server ≡ false → ⊥ }
{}

/// The router logs in as somebody who may not.
pub fn logs_in_as_another()
    ensures { (terms : Terms) (before : Log) (server : ServerId) (address : Address) (link : LinkId)
        → Has terms before (Opened server address link)
        → may_log_in terms.router ((plan_in terms).logins link) ≡ false → ⊥ }
{}

/// A link to a server is closed for no cause, and wasn't told QUIT.
pub fn closes_for_nothing()
    ensures { (terms : Terms) (before : Log) (link : LinkId) → Has terms before (Closed link)
        → is_to_server (now_at terms before).tale link ≡ true
        → HasNoCause terms before (now_at terms before) link
        → (wire_now (now_at terms before) link).quits ≡ false → ⊥ }
{}

/// It is told QUIT for no cause.
pub fn quits_for_nothing()
    ensures { (terms : Terms) (before : Log) (link : LinkId) (bytes : List ℕ)
        → Has terms before (Wrote link OwnTag bytes)
        → is_to_server (now_at terms before).tale link ≡ true
        → may_begin (setup_in terms) link (wire_now (now_at terms before) link)
        (now_at terms before).tale ≡ true
        → (plan_in terms).steps link (wire_now (now_at terms before) link).begun ≡ Asks Quit
        → HasNoCause terms before (now_at terms before) link → ⊥ }
{}

/// The loop waits while a client isn't told what it is due, although its link takes it.
pub fn answers_nobody()
    ensures { (terms : Terms) (before : Log) (e : Entry) (k : ℕ) (client : Client) → Has terms before e
        → IsWait e
        → k < length (now_at terms before).tale.clients
        → slice_index_or (now_at terms before).tale.clients k client ≡ client
        → is_open client.link before ≡ true
        → written_of client.link before ≢ due_to terms (now_at terms before) client
        → write_dry client.link before ≡ false → ⊥ }
{}

/// It waits although a link is idle and more statements of its key wait than links are on their way to be lent.
pub fn waits_with_an_idle_link()
    ensures { (terms : Terms) (before : Log) (e : Entry) (key : LinkKey) → Has terms before e → IsWait e
        → 0 < how_many is_idle terms before (now_at terms before) key
        → how_many is_stepping terms before (now_at terms before) key
        < waiting terms (now_at terms before) key → ⊥ }
{}
