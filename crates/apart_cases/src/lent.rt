// Routers that lend what is another's, or give back what isn't theirs to give.
ghost use Rattle.std.specs.Prelude.{◌≡◌, ◌≢◌, false, true, Some};
ghost use Rattle.core_promises.specs.Wrong.{Tells};
ghost use Rattle.mx_base.specs.declared.names.LinkId.{LinkId};
ghost use Rattle.private_model.specs.Commands.{class_of};
ghost use Rattle.private_model.specs.Names.{SessionName};
ghost use Rattle.private_model.specs.Story.{Due, End, Freed, Question, Sent, Statement, Story, message_of};
ghost use Rattle.private_model.specs.View.{Joined, Lent, Quiet, present, view_after};
ghost use Rattle.router_promises.specs.Terms.{Terms, setup_in};
ghost use Rattle.session_state.specs.Pins.{is_pinned, needs_reset, reads_own};

/// A statement is sent that its client didn't ask for, or with another text.
pub fn sends_what_nobody_asked()
    ensures { (terms : Terms) (past : Story) (link : LinkId) (n : SessionName) (due : Due)
        → Tells terms past (Sent link (Statement n due))
        → (view_after (setup_in terms) past).dues n ≢ Some due → ⊥ }
{}

/// One is sent a second time.
pub fn sends_twice()
    ensures { (terms : Terms) (past : Story) (link other : LinkId) (n : SessionName) (due : Due)
        → Tells terms past (Sent link (Statement n due))
        → (view_after (setup_in terms) past).carriers (message_of n due) ≡ Some other → ⊥ }
{}

/// Something is sent on a link on which an answer is awaited: two statements at a time, whose replies could be taken for each other.
pub fn sends_before_the_answer()
    ensures { (terms : Terms) (past : Story) (link : LinkId) (question : Question)
        → Tells terms past (Sent link question)
        → ((view_after (setup_in terms) past).links link).stage ≢ Quiet → ⊥ }
{}

/// A statement is sent on a link that another session holds.
pub fn lends_what_is_held()
    ensures { (terms : Terms) (past : Story) (link : LinkId) (n other : SessionName) (due : Due)
        → Tells terms past (Sent link (Statement n due))
        → ((view_after (setup_in terms) past).links link).carries ≡ Joined other → other ≢ n → ⊥ }
{}

/// It is sent on a link that is lent to another, and wasn't given back.
pub fn lends_what_is_lent()
    ensures { (terms : Terms) (past : Story) (link : LinkId) (n other : SessionName) (due : Due)
        → Tells terms past (Sent link (Statement n due))
        → ((view_after (setup_in terms) past).links link).carries ≡ Lent other → other ≢ n → ⊥ }
{}

/// It is sent, in a session that nothing holds, on a link of another account.
pub fn sends_as_another()
    ensures { (terms : Terms) (past : Story) (link : LinkId) (n : SessionName) (due : Due)
        → Tells terms past (Sent link (Statement n due))
        → is_pinned ((view_after (setup_in terms) past).held n).pin ≡ false
        → ((view_after (setup_in terms) past).links link).account ≢ terms.decided.accounts n.client
        → ⊥ }
{}

/// It is sent on a link that was told other settings.
pub fn lends_with_earlier_settings()
    ensures { (terms : Terms) (past : Story) (link : LinkId) (n : SessionName) (due : Due)
        → Tells terms past (Sent link (Statement n due))
        → ((view_after (setup_in terms) past).links link).told.settings ≢ due.place.settings → ⊥ }
{}

/// It is sent on a link that was told another schema, or one while its client stands in none.
pub fn lends_in_another_schema()
    ensures { (terms : Terms) (past : Story) (link : LinkId) (n : SessionName) (due : Due)
        → Tells terms past (Sent link (Statement n due))
        → ((view_after (setup_in terms) past).links link).told.schema ≢ Some due.place.schema → ⊥ }
{}

/// It reads warnings of earlier statements, or FOUND_ROWS(), where none of its own session left any on the link that it keeps.
pub fn reads_what_others_left()
    ensures { (terms : Terms) (past : Story) (link : LinkId) (n : SessionName) (due : Due)
        → Tells terms past (Sent link (Statement n due))
        → reads_own (class_of terms.router.reads due.command) ((view_after (setup_in terms) past).held n).pin ≡ false
        → ⊥ }
{}

/// A link is given back while the session that it carries is held: in a transaction, say.
pub fn gives_back_what_is_held()
    ensures { (terms : Terms) (past : Story) (link : LinkId) (n : SessionName)
        → Tells terms past (Freed link)
        → ((view_after (setup_in terms) past).links link).carries ≡ Joined n
        → is_pinned ((view_after (setup_in terms) past).held n).pin ≡ true
        → n ≡ present (view_after (setup_in terms) past) n.client n.hostgroup → ⊥ }
{}

/// It is given back although what its session did there outlasts it, as a lock or a temporary table.
pub fn gives_back_what_is_unreset()
    ensures { (terms : Terms) (past : Story) (link : LinkId) (n : SessionName)
        → Tells terms past (Freed link)
        → ((view_after (setup_in terms) past).links link).carries ≡ Joined n
        → needs_reset ((view_after (setup_in terms) past).held n).pin ≡ true → ⊥ }
{}

/// A session is reset that goes on.
pub fn resets_what_goes_on()
    ensures { (terms : Terms) (past : Story) (link : LinkId) (n : SessionName)
        → Tells terms past (Sent link (End n))
        → n ≡ present (view_after (setup_in terms) past) n.client n.hostgroup → ⊥ }
{}
