// More of them: what is dropped, kept or waited for.
ghost use Rattle.std.specs.Prelude.{◌≡◌, ◌≢◌, ℕ, ◌+◌, ◌<◌, ◌≤◌, true, false, List, [], ◌∷◌, ◌++◌, length, slice_index_or, Some, None};
ghost use Rattle.std.specs.List.{list_any};
ghost use Rattle.mx_base.specs.declared.names.LinkId.{LinkId};
ghost use Rattle.mx_base.specs.declared.names.Port.{Port};
ghost use Rattle.mx_base.specs.declared.tag.Tag.TheVariants.{Own as OwnTag};
ghost use Rattle.mx_wire.specs.Log.{Log, is_open, of_link};
ghost use Rattle.mx_wire.specs.declared.entry.Entry.{Entry};
ghost use Rattle.mx_wire.specs.declared.entry.Entry.TheVariants.{Accepted, Closed, Woke, Wrote};
ghost use Rattle.client_session.specs.Errors.{connection_refused};
ghost use Rattle.private_model.specs.Commands.{InitDb};
ghost use Rattle.private_model.specs.Names.{MessageName, SessionName};
ghost use Rattle.private_model.specs.Story.{Due, Sent, Statement, Story, is_name};
ghost use Rattle.private_model.specs.View.{Joined, present, view_after};
ghost use Rattle.log_story.specs.Plan.{Asks, OwnAnswer};
ghost use Rattle.log_story.specs.Servers.{may_begin};
ghost use Rattle.log_story.specs.Tale.{Client, is_to_server};
ghost use Rattle.router_promises.specs.Closes.{is_spoilt, is_starved_by, was_amiss, was_starved};
ghost use Rattle.router_promises.specs.Ends.{is_accepted, is_at, is_left, is_too_much, moment_in, must_end};
ghost use Rattle.router_promises.specs.GivenUp.{key_tried};
ghost use Rattle.router_promises.specs.Keys.{LinkKey, is_resting, oldest};
ghost use Rattle.router_promises.specs.Now.{entry_now, link_now, next, now_at, view_now, while_ending, wire_now};
ghost use Rattle.router_promises.specs.Rest.{is_failed_write};
ghost use Rattle.router_promises.specs.Terms.{Terms, plan_in, setup_in};
ghost use Rattle.router_promises.specs.Wakes.{has_ended, lacks_an_event, moments};
ghost use Rattle.router_promises.specs.Wrong.{Has, IsWait, Tells};

/// The link closes on which a client's session goes on, though nothing is wrong with it, it wasn't told QUIT, and memory wasn't wanting.
pub fn drops_a_session()
    ensures { (terms : Terms) (before : Log) (link : LinkId) (n : SessionName)
        → Has terms before (Closed link)
        → is_to_server (now_at terms before).tale link ≡ true
        → (wire_now (now_at terms before) link).quits ≡ false
        → (link_now (setup_in terms) (now_at terms before) link).carries ≡ Joined n
        → is_name n (present (view_now (setup_in terms) (now_at terms before)) n.client n.hostgroup)
        ≡ true
        → is_spoilt terms before (now_at terms before) link ≡ false
        → was_amiss (setup_in terms) link (now_at terms before).tale.story ≡ false
        → list_any (is_starved_by terms before (now_at terms before) link)
        (now_at terms before).tale.clients ≡ false → ⊥ }
{}

/// A client is ended although it needn't be, what it asked isn't left, and the entry is none of its links.
pub fn parts_from_a_client()
    ensures { (terms : Terms) (before : Log) (e : Entry) (k : ℕ) (client : Client) → Has terms before e
        → k < length (next terms (now_at terms before) e).tale.clients
        → slice_index_or (next terms (now_at terms before) e).tale.clients k client ≡ client
        → (plan_in terms).ends client.number ≡ Some (entry_now (now_at terms before))
        → must_end terms (before ++ e ∷ []) (now_at terms before)
        (while_ending terms (now_at terms before) e) e client ≡ false
        → is_accepted e client ≡ false
        → was_starved terms (entry_now (now_at terms before)) client ≡ false
        → is_left terms (while_ending terms (now_at terms before) e) client ≡ false
        → is_at (setup_in terms) (now_at terms before) e client ≡ false
        → is_too_much terms (while_ending terms (now_at terms before) e) client ≡ false → ⊥ }
{}

/// That a link couldn't be had is charged to another than the one that waits longest.
pub fn charges_another()
    ensures { (terms : Terms) (before : Log) (e : Entry) (m : MessageName) (key : LinkKey)
        → Has terms before e
        → (plan_in terms).own m ≡ Some
        (record { from = entry_now (now_at terms before); payloads = connection_refused ∷ [] })
        → key_tried terms (now_at terms before) e ≡ Some key
        → oldest terms (now_at terms before) key ≢ Some m → ⊥ }
{}

/// A message that goes to no server is answered later than at once.
pub fn answers_late()
    ensures { (terms : Terms) (before : Log) (e : Entry) (m : MessageName) (answer : OwnAnswer)
        → Has terms before e
        → (plan_in terms).own m ≡ Some answer → answer.from ≡ entry_now (now_at terms before)
        → (plan_in terms).routes m ≡ None → ⊥ }
{}

/// The loop waits while a client's link is open on which a write failed.
pub fn keeps_a_broken_link()
    ensures { (terms : Terms) (before : Log) (e : Entry) (k : ℕ) (client : Client) → Has terms before e
        → IsWait e
        → k < length (now_at terms before).tale.clients
        → slice_index_or (now_at terms before).tale.clients k client ≡ client
        → is_open client.link before ≡ true
        → list_any is_failed_write (of_link client.link before) ≡ true → ⊥ }
{}

/// It waits while the link of a client that ended is open, although its time is over.
pub fn keeps_a_full_link()
    ensures { (terms : Terms) (before : Log) (e : Entry) (k : ℕ) (client : Client) → Has terms before e
        → IsWait e
        → k < length (now_at terms before).tale.clients
        → slice_index_or (now_at terms before).tale.clients k client ≡ client
        → is_open client.link before ≡ true → has_ended terms (now_at terms before) client ≡ true
        → moment_in before ((plan_in terms).ends client.number) + terms.router.proxy.wait_ms
        ≤ (now_at terms before).clock → ⊥ }
{}

/// It waits while a link to a server is open that nobody used for too long.
pub fn keeps_an_idle_link()
    ensures { (terms : Terms) (before : Log) (e : Entry) (k : ℕ) (link : LinkId) → Has terms before e
        → IsWait e
        → k < length (now_at terms before).tale.links
        → slice_index_or (now_at terms before).tale.links k link ≡ link
        → is_open link before ≡ true → is_resting terms before (now_at terms before) link ≡ true
        → ((now_at terms before).uses link).used + terms.router.proxy.idle_ms
        ≤ (now_at terms before).clock → ⊥ }
{}

/// It asks to be woken later than at a moment at which there is something to do.
pub fn sleeps_too_long()
    ensures { (terms : Terms) (before : Log) (until_ms now_ms k : ℕ)
        → Has terms before (Woke until_ms now_ms)
        → k < length (moments terms before (now_at terms before))
        → slice_index_or (moments terms before (now_at terms before)) k 0 < until_ms → ⊥ }
{}

/// It asks to be woken at once, although no message lacks an event.
pub fn wakes_for_nothing()
    ensures { (terms : Terms) (before : Log) (until_ms now_ms : ℕ)
        → Has terms before (Woke until_ms now_ms)
        → list_any (lacks_an_event terms (now_at terms before)) (now_at terms before).tale.clients
        ≡ false
        → (now_at terms before).clock < 18446744073709551615 → until_ms ≤ (now_at terms before).clock
        → ⊥ }
{}

/// A client comes on a link whose number was another's.
pub fn gives_a_place_away()
    ensures { (terms : Terms) (before : Log) (port : Port) (link : LinkId) (salt : List ℕ)
        → Has terms before (Accepted port link salt)
        → of_link link before ≢ [] → ⊥ }
{}

/// A link is led to no schema, which no server does.
pub fn chooses_no_schema()
    ensures { (terms : Terms) (before : Log) (link : LinkId) (bytes : List ℕ)
        → Has terms before (Wrote link OwnTag bytes)
        → is_to_server (now_at terms before).tale link ≡ true
        → may_begin (setup_in terms) link (wire_now (now_at terms before) link)
        (now_at terms before).tale ≡ true
        → (plan_in terms).steps link (wire_now (now_at terms before) link).begun ≡ Asks (InitDb [])
        → ⊥ }
{}

/// A statement is sent on a link that was told another schema, or one while its client stands in none.
pub fn lends_in_another_schema()
    ensures { (terms : Terms) (past : Story) (link : LinkId) (n : SessionName) (due : Due)
        → Tells terms past (Sent link (Statement n due))
        → ((view_after (setup_in terms) past).links link).told.schema ≢ Some due.place.schema → ⊥ }
{}
