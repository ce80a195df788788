// More of them: what is sent on links, what clients are told, and why.
ghost use Rattle.std.specs.Prelude.{◌≡◌, ◌≢◌, ◌⊎◌, ℕ, ◌+◌, ◌<◌, true, false, List, [], ◌∷◌, ◌++◌, length, slice_index_or, Some, None};
ghost use Rattle.mx_base.specs.declared.names.LinkId.{LinkId};
ghost use Rattle.mx_base.specs.declared.names.ClientNo.{ClientNo};
ghost use Rattle.mx_base.specs.declared.tag.Tag.TheVariants.{For, Own as OwnTag};
ghost use Rattle.router_promises.specs.Closes.{is_usable};
ghost use Rattle.router_promises.specs.Dues.{is_due};
ghost use Rattle.mx_wire.specs.Log.{Log, is_open, written_of};
ghost use Rattle.mx_wire.specs.declared.entry.Entry.{Entry};
ghost use Rattle.mx_wire.specs.declared.entry.Entry.TheVariants.{Wrote, Woke};
ghost use Rattle.packet_frame.specs.Packets.{spelling};
ghost use Rattle.ready_loop.specs.Drained.{read_dry, write_dry};
ghost use Rattle.std.specs.List.{list_any};
ghost use Rattle.client_session.specs.Errors.{connection_refused};
ghost use Rattle.private_model.specs.Commands.{InitDb, Query, class_of};
ghost use Rattle.private_model.specs.Names.{MessageName, SessionName};
ghost use Rattle.private_model.specs.Story.{Due, Freed, Sent, Statement, Story, message_of};
ghost use Rattle.private_model.specs.View.{Asked, Joined, present, view_after};
ghost use Rattle.session_state.specs.Pins.{is_pinned, reads_own};
ghost use Rattle.log_story.specs.Honest.{IsFront};
ghost use Rattle.log_story.specs.Plan.{Asks, Route, text_payload};
ghost use Rattle.log_story.specs.Servers.{may_begin};
ghost use Rattle.log_story.specs.Tale.{Client, is_to_server};
ghost use Rattle.router_promises.specs.Due.{due_to};
ghost use Rattle.router_promises.specs.Errors.{no_connection};
ghost use Rattle.router_promises.specs.Headline.{Keeps};
ghost use Rattle.router_promises.specs.Now.{entry_now, link_now, now_at, present_now, takings_now, wire_now};
ghost use Rattle.router_promises.specs.Rest.{is_answered_on, is_spared_for, owes_reset};
ghost use Rattle.router_promises.specs.Running.{servers_after};
ghost use Rattle.router_promises.specs.Takings.{Taking, message_in};
ghost use Rattle.router_promises.specs.Terms.{Terms, plan_in, setup_in, tale_at};
ghost use Rattle.router_promises.specs.Verdicts.{Goes, Wanted, verdict};
ghost use Rattle.router_promises.specs.Wrong.{Has, IsWait, Tells};

/// A statement is sent a second time.
pub fn sends_twice()
    ensures { (terms : Terms) (past : Story) (link other : LinkId) (n : SessionName) (due : Due)
        → Tells terms past (Sent link (Statement n due))
        → (view_after (setup_in terms) past).carriers (message_of n due) ≡ Some other → ⊥ }
{}

/// A statement is sent on a link that was told other settings.
pub fn lends_with_earlier_settings()
    ensures { (terms : Terms) (past : Story) (link : LinkId) (n : SessionName) (due : Due)
        → Tells terms past (Sent link (Statement n due))
        → ((view_after (setup_in terms) past).links link).told.settings ≢ due.place.settings → ⊥ }
{}

/// It is sent on a link that another session holds.
pub fn lends_what_is_held()
    ensures { (terms : Terms) (past : Story) (link : LinkId) (n other : SessionName) (due : Due)
        → Tells terms past (Sent link (Statement n due))
        → ((view_after (setup_in terms) past).links link).carries ≡ Joined other → other ≢ n → ⊥ }
{}

/// It is sent, in a session that nothing holds, on a link of another account.
pub fn sends_as_another()
    ensures { (terms : Terms) (past : Story) (link : LinkId) (n : SessionName) (due : Due)
        → Tells terms past (Sent link (Statement n due))
        → is_pinned ((view_after (setup_in terms) past).held n).pin ≡ false
        → ((view_after (setup_in terms) past).links link).account ≢ terms.decided.accounts n.client
        → ⊥ }
{}

/// It reads warnings of earlier statements, or FOUND_ROWS(), where none of its own session left any on the link that it keeps.
pub fn reads_what_others_left()
    ensures { (terms : Terms) (past : Story) (link : LinkId) (n : SessionName) (due : Due) → Tells terms past (Sent link (Statement n due))
        → reads_own (class_of terms.router.reads due.command) ((view_after (setup_in terms) past).held n).pin ≡ false → ⊥ }
{}

/// A link is given back while the session that it carries is held.
pub fn gives_back_what_is_held()
    ensures { (terms : Terms) (past : Story) (link : LinkId) (n : SessionName)
        → Tells terms past (Freed link)
        → ((view_after (setup_in terms) past).links link).carries ≡ Joined n
        → is_pinned ((view_after (setup_in terms) past).held n).pin ≡ true
        → n ≡ present (view_after (setup_in terms) past) n.client n.hostgroup → ⊥ }
{}

/// A client is told other bytes than it is due: another's reply, say.
pub fn tells_other_bytes()
    ensures { (terms : Terms) (before more : Log) (k : ℕ) (client : Client)
        → Keeps terms (before ++ more)
        → k < length (now_at terms before).tale.clients
        → slice_index_or (now_at terms before).tale.clients k client ≡ client
        → (IsFront (written_of client.link before) (due_to terms (now_at terms before) client) → ⊥)
        → ⊥ }
{}

/// Other bytes than a query's are written for it: not those of its text as rules rewrite it.
pub fn writes_other_bytes()
    ensures { (terms : Terms) (before more : Log) (link : LinkId) (n : SessionName) (due : Due)
        (text : List ℕ) → Keeps terms (before ++ more)
        → is_to_server (tale_at terms before) link ≡ true
        → ((tale_at terms before).wires link).entered ≡ true → due.command ≡ Query text
        → (link_now (setup_in terms) (now_at terms before) link).stage ≡ Asked (Statement n due)
        → (IsFront ((tale_at terms before).wires link).written (spelling 0 (text_payload (Query text)))
        → ⊥) → ⊥ }
{}

/// A message goes elsewhere, or as another text, than the configuration says.
pub fn ignores_the_rules()
    ensures { (terms : Terms) (before : Log) (e : Entry) (taking : Taking) (takings : List Taking)
        (wanted : Wanted) (route : Route) → Has terms before e
        → takings_now terms (now_at terms before) e ≡ taking ∷ takings
        → verdict terms (servers_after terms (now_at terms before).clock (now_at terms before).tale e
        (now_at terms before).servers)
        ((now_at terms before).flags taking.client.number) taking ≡ Goes wanted
        → (plan_in terms).routes (message_in taking) ≡ Some route
        → (route.hostgroup ≢ wanted.route.hostgroup) ⊎ (route.text ≢ wanted.route.text) → ⊥ }
{}

/// A message that should go to a server is answered at once, and its client goes on.
pub fn answers_without_cause()
    ensures { (terms : Terms) (before : Log) (e : Entry) (taking : Taking) (takings : List Taking)
        (wanted : Wanted) → Has terms before e
        → takings_now terms (now_at terms before) e ≡ taking ∷ takings
        → verdict terms (servers_after terms (now_at terms before).clock (now_at terms before).tale e
        (now_at terms before).servers)
        ((now_at terms before).flags taking.client.number) taking ≡ Goes wanted
        → (plan_in terms).routes (message_in taking) ≡ None
        → (plan_in terms).ends taking.client.number ≡ None → ⊥ }
{}

/// Two statements are refused because of one link that couldn't be had.
pub fn refuses_two_at_once()
    ensures { (terms : Terms) (before : Log) (e : Entry) (m other : MessageName) → Has terms before e
        → (plan_in terms).own m ≡ Some
        (record { from = entry_now (now_at terms before); payloads = connection_refused ∷ [] })
        → (plan_in terms).own other
        ≡ Some (record { from = entry_now (now_at terms before); payloads = connection_refused ∷ [] })
        → m ≢ other → ⊥ }
{}

/// A statement is refused for its wait before it waited so long.
pub fn refuses_too_soon()
    ensures { (terms : Terms) (before : Log) (until_ms now_ms since : ℕ) (m : MessageName)
        → Has terms before (Woke until_ms now_ms)
        → (plan_in terms).own m ≡ Some
        (record { from = entry_now (now_at terms before); payloads = no_connection since now_ms ∷ [] })
        → now_ms < (now_at terms before).since m + terms.router.proxy.wait_ms → ⊥ }
{}

/// A schema is chosen on a link that was told it last.
pub fn steps_without_change()
    ensures { (terms : Terms) (before : Log) (link : LinkId) (schema bytes : List ℕ)
        → Has terms before (Wrote link OwnTag bytes)
        → is_to_server (now_at terms before).tale link ≡ true
        → may_begin (setup_in terms) link (wire_now (now_at terms before) link)
        (now_at terms before).tale ≡ true
        → (plan_in terms).steps link (wire_now (now_at terms before) link).begun ≡ Asks (InitDb schema)
        → (link_now (setup_in terms) (now_at terms before) link).told.schema ≡ Some schema → ⊥ }
{}

/// The loop waits although something may be there to read on a link to a server.
pub fn reads_no_more()
    ensures { (terms : Terms) (before : Log) (e : Entry) (k : ℕ) (link : LinkId) → Has terms before e
        → IsWait e
        → k < length (now_at terms before).tale.links
        → slice_index_or (now_at terms before).tale.links k link ≡ link
        → is_open link before ≡ true → read_dry link before ≡ false
        → list_any (is_spared_for terms (now_at terms before) link) (now_at terms before).tale.clients
        ≡ false → ⊥ }
{}

/// It waits although a session that was left isn't reset.
pub fn resets_nothing()
    ensures { (terms : Terms) (before : Log) (e : Entry) (k : ℕ) (link : LinkId) → Has terms before e
        → IsWait e
        → k < length (now_at terms before).tale.links
        → slice_index_or (now_at terms before).tale.links k link ≡ link
        → is_open link before ≡ true → write_dry link before ≡ false
        → is_answered_on (setup_in terms) (now_at terms before) link ≡ true
        → owes_reset (setup_in terms) (now_at terms before)
        (link_now (setup_in terms) (now_at terms before) link).carries ≡ true → ⊥ }
{}

/// A statement is sent although it was given up.
pub fn sends_what_it_refused()
    ensures { (terms : Terms) (before : Log) (link : LinkId) (client : ClientNo) (ordinal : ℕ)
        (bytes : List ℕ) (route : Route)
        → Has terms before (Wrote link (For client ordinal) bytes)
        → is_to_server (now_at terms before).tale link ≡ true
        → may_begin (setup_in terms) link (wire_now (now_at terms before) link)
        (now_at terms before).tale ≡ true
        → (plan_in terms).routes (record { client = client; ordinal = ordinal }) ≡ Some route
        → is_due terms (now_at terms before).tale
        (present_now (setup_in terms) (now_at terms before) client route.hostgroup) ≡ false → ⊥ }
{}

/// A statement is sent on a link on which bytes came that nobody asked for, or whose reset was refused.
pub fn uses_a_spoilt_link()
    ensures { (terms : Terms) (before : Log) (link : LinkId) (client : ClientNo) (ordinal : ℕ)
        (bytes : List ℕ)
        → Has terms before (Wrote link (For client ordinal) bytes)
        → is_to_server (now_at terms before).tale link ≡ true
        → may_begin (setup_in terms) link (wire_now (now_at terms before) link)
        (now_at terms before).tale ≡ true
        → is_usable terms before (now_at terms before) link ≡ false → ⊥ }
{}
