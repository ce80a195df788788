// More of them: what is done in vain, cut off, left lying, or blamed on a link that is sound.
ghost use Rattle.std.specs.Prelude.{◌≡◌, ◌≢◌, ℕ, ◌+◌, ◌<◌, true, false, List, [], ◌∷◌, ◌++◌, length, slice_index_or, Some, ◌&&◌, nat_eq};
ghost use Rattle.std.specs.List.{list_any};
ghost use Rattle.mx_base.specs.declared.names.ClientNo.{ClientNo};
ghost use Rattle.mx_base.specs.declared.names.Hostgroup.{Hostgroup};
ghost use Rattle.mx_base.specs.declared.names.LinkId.{LinkId};
ghost use Rattle.mx_base.specs.declared.tag.Tag.{Tag};
ghost use Rattle.mx_base.specs.declared.tag.Tag.TheVariants.{End as EndTag, Own as OwnTag, Prep as PrepTag};
ghost use Rattle.mx_wire.specs.Log.{Log, is_link, is_open, link_of, written_of};
ghost use Rattle.mx_wire.specs.declared.entry.Entry.{Entry};
ghost use Rattle.mx_wire.specs.declared.entry.Entry.TheVariants.{Closed, Woke, Wrote};
ghost use Rattle.ready_loop.specs.Drained.{write_dry};
ghost use Rattle.client_session.specs.Errors.{bad_server_bytes, connection_lost};
ghost use Rattle.private_model.specs.Commands.{is_err};
ghost use Rattle.private_model.specs.Names.{MessageName};
ghost use Rattle.private_model.specs.Story.{Question};
ghost use Rattle.private_model.specs.View.{Asked};
ghost use Rattle.log_story.specs.Plan.{Closes, Resets, is_by_now};
ghost use Rattle.log_story.specs.Servers.{may_begin};
ghost use Rattle.log_story.specs.Tale.{Client, is_to_server};
ghost use Rattle.router_promises.specs.Closes.{is_past_reset};
ghost use Rattle.router_promises.specs.Due.{due_to, served};
ghost use Rattle.router_promises.specs.Ends.{is_measured, is_too_much, is_unheard, moment_in, must_end};
ghost use Rattle.router_promises.specs.Errors.{replay_refused};
ghost use Rattle.router_promises.specs.GivenUp.{left_waiting};
ghost use Rattle.router_promises.specs.Heard.{Answer, Bad, Whole, is_amiss, reading_of};
ghost use Rattle.router_promises.specs.Keys.{LinkKey, has_place, how_many, is_idle, is_opening, is_stepping, key_of, waiting};
ghost use Rattle.router_promises.specs.Now.{entry_now, is_gone, is_loss, link_now, next, now_at, while_ending, wire_now};
ghost use Rattle.router_promises.specs.Rest.{is_answered_on, owes_capture};
ghost use Rattle.router_promises.specs.Running.{hostgroup_of};
ghost use Rattle.router_promises.specs.Steps.{is_prep_wanted, is_prepared_anew, live_keys};
ghost use Rattle.router_promises.specs.Tags.{hostgroup_asked};
ghost use Rattle.router_promises.specs.Terms.{Terms, plan_in, setup_in};
ghost use Rattle.router_promises.specs.Wrong.{Has, IsWait};

/// A text is prepared on a link on the way to a message for which it needn't be.
pub fn prepares_in_vain()
    ensures { (terms : Terms) (before : Log) (link : LinkId) (client : ClientNo) (ordinal : ℕ)
        (bytes : List ℕ)
        → Has terms before (Wrote link (PrepTag client ordinal) bytes)
        → is_to_server (now_at terms before).tale link ≡ true
        → may_begin (setup_in terms) link (wire_now (now_at terms before) link)
        (now_at terms before).tale ≡ true
        → is_prep_wanted terms (now_at terms before) link
        (record { client = client; ordinal = ordinal }) ≡ false → ⊥ }
{}

/// A prepared statement is closed on a link on which few stand, although its text isn't to be prepared anew.
pub fn closes_a_statement_in_vain()
    ensures { (terms : Terms) (before : Log) (link : LinkId) (number : ℕ) (bytes : List ℕ)
        → Has terms before (Wrote link OwnTag bytes)
        → is_to_server (now_at terms before).tale link ≡ true
        → may_begin (setup_in terms) link (wire_now (now_at terms before) link)
        (now_at terms before).tale ≡ true
        → (plan_in terms).steps link (wire_now (now_at terms before) link).begun ≡ Closes number
        → length (live_keys (setup_in terms) (now_at terms before) link) < 1000
        → ((key : ℕ) → (link_now (setup_in terms) (now_at terms before) link).live key ≡ Some number
        → is_prepared_anew terms (now_at terms before) (terms.decided.keys key).text
        (key_of terms (now_at terms before) link) ≡ false)
        → ⊥ }
{}

/// A STMT_RESET is sent for a prepared statement that has no long data there.
pub fn resets_a_statement_in_vain()
    ensures { (terms : Terms) (before : Log) (link : LinkId) (number : ℕ) (bytes : List ℕ)
        → Has terms before (Wrote link OwnTag bytes)
        → is_to_server (now_at terms before).tale link ≡ true
        → may_begin (setup_in terms) link (wire_now (now_at terms before) link)
        (now_at terms before).tale ≡ true
        → (plan_in terms).steps link (wire_now (now_at terms before) link).begun ≡ Resets number
        → list_any (nat_eq number) ((now_at terms before).uses link).long ≡ false → ⊥ }
{}

/// A session is reset in which a statement ran of which no reset takes back what it does.
pub fn resets_what_lasts()
    ensures { (terms : Terms) (before : Log) (link : LinkId) (client : ClientNo) (hostgroup : Hostgroup)
        (bytes : List ℕ)
        → Has terms before (Wrote link (EndTag client hostgroup) bytes)
        → is_to_server (now_at terms before).tale link ≡ true
        → may_begin (setup_in terms) link (wire_now (now_at terms before) link)
        (now_at terms before).tale ≡ true
        → is_past_reset (setup_in terms) (now_at terms before) link ≡ true → ⊥ }
{}

/// A question of a session is begun on a link of another hostgroup.
pub fn asks_in_another_hostgroup()
    ensures { (terms : Terms) (before : Log) (link : LinkId) (tag : Tag) (bytes : List ℕ)
        (question : Question) (hostgroup : Hostgroup)
        → Has terms before (Wrote link tag bytes)
        → is_to_server (now_at terms before).tale link ≡ true
        → may_begin (setup_in terms) link (wire_now (now_at terms before) link)
        (now_at terms before).tale ≡ true
        → (link_now (setup_in terms)
        (next terms (now_at terms before) (Wrote link tag bytes)) link).stage ≡ Asked question
        → hostgroup_asked question ≡ Some hostgroup
        → hostgroup_of terms.router
        (wire_now (next terms (now_at terms before) (Wrote link tag bytes)) link).server
        ≢ Some hostgroup
        → ⊥ }
{}

/// A client goes on that must end: its session was lost in a transaction, say.
pub fn goes_on_without_its_session()
    ensures { (terms : Terms) (before : Log) (e : Entry) (k : ℕ) (client : Client) → Has terms before e
        → k < length (next terms (now_at terms before) e).tale.clients
        → slice_index_or (next terms (now_at terms before) e).tale.clients k client ≡ client
        → must_end terms (before ++ e ∷ []) (now_at terms before)
        (while_ending terms (now_at terms before) e) e client ≡ true
        → is_by_now (next terms (now_at terms before) e).tale.moment
        ((plan_in terms).ends client.number) ≡ false → ⊥ }
{}

/// A client goes on whose bytes are too many.
pub fn keeps_too_many_bytes()
    ensures { (terms : Terms) (before : Log) (e : Entry) (k : ℕ) (client : Client) → Has terms before e
        → k < length (next terms (now_at terms before) e).tale.clients
        → slice_index_or (next terms (now_at terms before) e).tale.clients k client ≡ client
        → is_measured terms (now_at terms before) (while_ending terms (now_at terms before) e) e client
        ≡ true
        → is_too_much terms (while_ending terms (now_at terms before) e) client ≡ true
        → is_by_now (next terms (now_at terms before) e).tale.moment
        ((plan_in terms).ends client.number) ≡ false → ⊥ }
{}

/// The link of a client closes before it is written what it is due, while it takes that and there is time.
pub fn cuts_a_client_off()
    ensures { (terms : Terms) (before : Log) (k : ℕ) (client : Client)
        → Has terms before (Closed client.link)
        → k < length (now_at terms before).tale.clients
        → slice_index_or (now_at terms before).tale.clients k client ≡ client
        → written_of client.link before ≢ due_to terms (now_at terms before) client
        → list_any (λ e. is_loss e && is_link client.link (link_of e)) before ≡ false
        → (now_at terms before).clock
        < moment_in before ((plan_in terms).ends client.number) + terms.router.proxy.wait_ms
        → served terms before client ≡ true → is_unheard terms before client ≡ false → ⊥ }
{}

/// At a wake more statements that waited too long are left without an answer than links could be lent to.
pub fn lets_them_wait()
    ensures { (terms : Terms) (before : Log) (until_ms now_ms : ℕ) (key : LinkKey)
        → Has terms before (Woke until_ms now_ms)
        → how_many is_idle terms before (next terms (now_at terms before) (Woke until_ms now_ms)) key
        + how_many is_stepping terms before
        (next terms (now_at terms before) (Woke until_ms now_ms)) key
        < length (left_waiting terms
        (next terms (now_at terms before) (Woke until_ms now_ms)) now_ms key) → ⊥ }
{}

/// The loop waits although more statements of a key wait than links are on their way, and there is place for one more.
pub fn opens_nothing()
    ensures { (terms : Terms) (before : Log) (e : Entry) (key : LinkKey) → Has terms before e → IsWait e
        → how_many is_opening terms before (now_at terms before) key + how_many is_stepping terms before
        (now_at terms before) key
        < waiting terms (now_at terms before) key
        → has_place terms before (now_at terms before) key.hostgroup ≡ true → ⊥ }
{}

/// It waits although an insert id is to be asked for.
pub fn captures_nothing()
    ensures { (terms : Terms) (before : Log) (e : Entry) (k : ℕ) (link : LinkId) → Has terms before e
        → IsWait e
        → k < length (now_at terms before).tale.links
        → slice_index_or (now_at terms before).tale.links k link ≡ link
        → is_open link before ≡ true → write_dry link before ≡ false
        → is_answered_on (setup_in terms) (now_at terms before) link ≡ true
        → owes_capture (setup_in terms) (now_at terms before)
        (link_now (setup_in terms) (now_at terms before) link).carries ≡ true
        → ⊥ }
{}

/// Two statements are told that one step was refused.
pub fn refuses_two_for_a_step()
    ensures { (terms : Terms) (before : Log) (e : Entry) (code : ℕ) (m other : MessageName)
        → Has terms before e
        → (plan_in terms).own m ≡ Some
        (record { from = entry_now (now_at terms before); payloads = replay_refused code ∷ [] })
        → (plan_in terms).own other
        ≡ Some (record { from = entry_now (now_at terms before); payloads = replay_refused code ∷ [] })
        → m ≢ other → ⊥ }
{}

/// A statement is told that a step was refused, though no ERR was read.
pub fn invents_a_refusal()
    ensures { (terms : Terms) (before : Log) (e : Entry) (code : ℕ) (m : MessageName)
        → Has terms before e
        → (plan_in terms).own m ≡ Some
        (record { from = entry_now (now_at terms before); payloads = replay_refused code ∷ [] })
        → ((answer : Answer) → reading_of (setup_in terms) (now_at terms before) e ≡ Whole answer
        → is_err answer.reply ≡ false)
        → ⊥ }
{}

/// A statement is told that its link was lost, which was neither lost nor closed.
pub fn invents_a_loss()
    ensures { (terms : Terms) (before : Log) (e : Entry) (m : MessageName) → Has terms before e
        → (plan_in terms).own m ≡ Some
        (record { from = entry_now (now_at terms before); payloads = connection_lost ∷ [] })
        → is_gone e ≡ false → ⊥ }
{}

/// A statement is told of bytes that can't be at a place, though none were read there, and no step was answered by what is no result.
pub fn invents_bad_bytes()
    ensures { (terms : Terms) (before : Log) (e : Entry) (place : ℕ) (m : MessageName)
        → Has terms before e
        → (plan_in terms).own m ≡ Some
        (record { from = entry_now (now_at terms before); payloads = bad_server_bytes place ∷ [] })
        → ((other : ℕ) → reading_of (setup_in terms) (now_at terms before) e ≢ Bad other)
        → ((answer : Answer) → reading_of (setup_in terms) (now_at terms before) e ≡ Whole answer
        → is_amiss answer.question answer.reply ≡ false) → ⊥ }
{}
