// Routers that wait too soon: none that keeps its clients apart does so.
ghost use Rattle.std.specs.Prelude.{◌≡◌, ◌≢◌, ◌<◌, ◌++◌, ℕ, true, false, length, slice_index_or, None, Some};
ghost use Rattle.std.specs.List.{list_any};
ghost use Rattle.core_promises.specs.Waits.{error_to};
ghost use Rattle.core_promises.specs.Wrong.{Expects, GoesOn, HasWait, session_for};
ghost use Rattle.log_story.specs.Assumed.{IsWhole};
ghost use Rattle.log_story.specs.Honest.{number_for};
ghost use Rattle.log_story.specs.Owed.{name_of};
ghost use Rattle.log_story.specs.Plan.{Route};
ghost use Rattle.log_story.specs.Tale.{Client};
ghost use Rattle.mx_base.specs.declared.names.LinkId.{LinkId};
ghost use Rattle.mx_base.specs.declared.names.Port.{Port};
ghost use Rattle.mx_wire.specs.Log.{Log, is_open, written_of};
ghost use Rattle.private_model.specs.Story.{Question, command_of};
ghost use Rattle.private_model.specs.View.{Asked};
ghost use Rattle.ready_loop.specs.Drained.{all_accepted, all_named, read_dry, write_dry};
ghost use Rattle.router_promises.specs.Closes.{has_bad_bytes};
ghost use Rattle.router_promises.specs.Due.{due_to};
ghost use Rattle.router_promises.specs.Dues.{is_due};
ghost use Rattle.router_promises.specs.Ends.{was_answered};
ghost use Rattle.router_promises.specs.Now.{held_now, link_now, now_at, view_now, wire_now};
ghost use Rattle.router_promises.specs.Rest.{is_ahead, is_behind};
ghost use Rattle.router_promises.specs.Terms.{Terms, plan_in, setup_in};

/// The loop waits although a port wasn't asked for clients until nobody came.
pub fn leaves_a_port_unasked()
    ensures { (terms : Terms) (before : Log) (port : Port) → HasWait terms before
        → all_accepted port before ≡ false → ⊥ }
{}

/// It waits although a link may be ready that wasn't named.
pub fn leaves_a_link_unnamed()
    ensures { (terms : Terms) (before : Log) → HasWait terms before → all_named before ≡ false → ⊥ }
{}

/// It waits while bytes that a client is due are unwritten, but for the error to what can't be a message, although its link took all that it was
/// offered.
pub fn leaves_bytes_unwritten()
    ensures { (terms : Terms) (before : Log) (client : Client) → HasWait terms before
        → GoesOn terms before client
        → written_of client.link before ++ error_to terms (now_at terms before) client
        ≢ due_to terms (now_at terms before) client
        → write_dry client.link before ≡ false → ⊥ }
{}

/// It waits with a client's bytes unread, which has no mebibyte waiting.
pub fn leaves_bytes_unread()
    ensures { (terms : Terms) (before : Log) (client : Client) → HasWait terms before
        → GoesOn terms before client
        → read_dry client.link before ≡ false
        → is_ahead terms (now_at terms before) client ≡ false → ⊥ }
{}

/// It waits with a server's reply unread, although what its client has unwritten is less than a mebibyte.
pub fn leaves_a_reply_unread()
    ensures { (terms : Terms) (before : Log) (place : ℕ) (link : LinkId) → HasWait terms before
        → place < length (now_at terms before).tale.links
        → slice_index_or (now_at terms before).tale.links place link ≡ link
        → is_open link before ≡ true
        → (link_now (setup_in terms) (now_at terms before) link).usable ≡ true
        → has_bad_bytes (setup_in terms) (now_at terms before) link ≡ false
        → read_dry link before ≡ false
        → list_any (is_behind terms (now_at terms before) link) (now_at terms before).tale.clients ≡ false
        → ⊥ }
{}

/// It waits although a message that goes to no server isn't answered.
pub fn leaves_a_message_unanswered()
    ensures { (terms : Terms) (before : Log) (client : Client) → HasWait terms before
        → GoesOn terms before client
        → was_answered terms (now_at terms before) client ≡ false
        → (plan_in terms).routes (name_of client client.taken) ≡ None → ⊥ }
{}

/// It waits although no link carries the session of a statement that isn't answered and waits for none.
pub fn forgets_a_statement()
    ensures { (terms : Terms) (before : Log) (client : Client) (route : Route)
        → Expects terms before client route
        → (held_now (setup_in terms) (now_at terms before) (session_for terms before client route)).home
        ≡ None → ⊥ }
{}

/// It waits although the link of its session was sent another statement, and it isn't due any more.
pub fn takes_another_for_it()
    ensures { (terms : Terms) (before : Log) (client : Client) (route : Route) (link : LinkId)
        → Expects terms before client route
        → (held_now (setup_in terms) (now_at terms before) (session_for terms before client route)).home
        ≡ Some link
        → (view_now (setup_in terms) (now_at terms before)).carriers (name_of client client.taken)
        ≢ Some link
        → is_due terms (now_at terms before).tale (session_for terms before client route) ≡ false → ⊥ }
{}

/// It waits although what was begun on that link isn't whole, and the link took all that it was offered.
pub fn stops_halfway()
    ensures { (terms : Terms) (before : Log) (client : Client) (route : Route) (link : LinkId)
        (question : Question) → Expects terms before client route
        → (held_now (setup_in terms) (now_at terms before) (session_for terms before client route)).home
        ≡ Some link
        → (link_now (setup_in terms) (now_at terms before) link).stage ≡ Asked question
        → (IsWhole (command_of question)
        (number_for question (link_now (setup_in terms) (now_at terms before) link).live)
        (wire_now (now_at terms before) link).written → ⊥)
        → write_dry link before ≡ false → ⊥ }
{}
