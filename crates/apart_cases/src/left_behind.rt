// Routers that overlook what a statement left behind: an insert id, or a transaction that an error didn't end.
ghost use Rattle.std.specs.Prelude.{◌≡◌, ◌≢◌, ◌∷◌, false, true, None};
ghost use Rattle.core_promises.specs.Wrong.{Tells};
ghost use Rattle.mx_base.specs.declared.names.LinkId.{LinkId};
ghost use Rattle.private_model.specs.Commands.{Reply, is_err, is_marked};
ghost use Rattle.private_model.specs.Names.{SessionName};
ghost use Rattle.private_model.specs.Story.{Due, Freed, Heard, Sent, Statement, Story};
ghost use Rattle.private_model.specs.View.{Answered, Joined, present, view_after};
ghost use Rattle.router_promises.specs.Terms.{Terms, setup_in};
ghost use Rattle.session_state.specs.Pins.{is_pinned};

/// A statement that may read or set the insert id is sent on a link that has another one, and no such statement ran there since the link
/// carries its session.
pub fn lends_with_another_insert_id()
    ensures { (terms : Terms) (past : Story) (link : LinkId) (n : SessionName) (due : Due)
        → Tells terms past (Sent link (Statement n due))
        → is_marked terms.router.reads due.command ≡ true
        → ((view_after (setup_in terms) past).links link).marked ≡ false
        → ((view_after (setup_in terms) past).links link).id ≢ ((view_after (setup_in terms) past).held n).id
        → ⊥ }
{}

/// One is sent in a session that nothing holds, before the insert id is asked for that an earlier one left.
pub fn sends_before_it_asks()
    ensures { (terms : Terms) (past : Story) (link : LinkId) (n : SessionName) (due : Due)
        → Tells terms past (Sent link (Statement n due))
        → is_pinned ((view_after (setup_in terms) past).held n).pin ≡ false
        → ((view_after (setup_in terms) past).held n).id ≡ None → ⊥ }
{}

/// A link is given back before that, while its client goes on: an OK shows an id, and that is believed.
pub fn gives_back_before_it_asks()
    ensures { (terms : Terms) (past : Story) (link : LinkId) (n : SessionName)
        → Tells terms past (Freed link)
        → ((view_after (setup_in terms) past).links link).carries ≡ Joined n
        → ((view_after (setup_in terms) past).held n).id ≡ None
        → n ≡ present (view_after (setup_in terms) past) n.client n.hostgroup → ⊥ }
{}

/// It is given back right behind an error, as if that ended a transaction.
pub fn gives_back_behind_an_error()
    ensures { (terms : Terms) (past : Story) (link : LinkId) (n : SessionName) (due : Due) (reply : Reply)
        → Tells terms (Heard link reply ∷ past) (Freed link)
        → ((view_after (setup_in terms) past).links link).stage ≡ Answered (Statement n due)
        → ((view_after (setup_in terms) past).links link).carries ≡ Joined n → is_err reply ≡ true
        → ⊥ }
{}
