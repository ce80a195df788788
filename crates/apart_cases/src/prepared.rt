// Routers that prepare other texts than their clients did, or execute other statements.
ghost use Rattle.std.specs.Prelude.{◌≡◌, ◌≢◌, ℕ, List, None, Some};
ghost use Rattle.core_promises.specs.Wrong.{Tells};
ghost use Rattle.mx_base.specs.declared.names.LinkId.{LinkId};
ghost use Rattle.private_model.specs.Commands.{Args, Run};
ghost use Rattle.private_model.specs.Names.{SessionName};
ghost use Rattle.private_model.specs.Story.{Due, Prep, Sent, Statement, Story};
ghost use Rattle.private_model.specs.View.{view_after};
ghost use Rattle.router_promises.specs.Terms.{Terms, setup_in};
ghost use Rattle.session_vars.specs.declared.change.SlotValue.{SlotValue};

/// On the way to an execute a text is prepared on a link that was told another schema than that in which its client prepared it.
pub fn prepares_in_another_schema()
    ensures { (terms : Terms) (past : Story) (link : LinkId) (n : SessionName) (key : ℕ) (text : List ℕ)
        → Tells terms past (Sent link (Prep n key text))
        → ((view_after (setup_in terms) past).links link).told.schema ≢ Some ((setup_in terms).keys key).place.schema → ⊥ }
{}

/// Another text is prepared there.
pub fn prepares_another_text()
    ensures { (terms : Terms) (past : Story) (link : LinkId) (n : SessionName) (key : ℕ) (text : List ℕ)
        → Tells terms past (Sent link (Prep n key text))
        → text ≢ ((setup_in terms).keys key).text → ⊥ }
{}

/// An execute is sent on a link where its text isn't prepared.
pub fn executes_what_isnt_there()
    ensures { (terms : Terms) (past : Story) (link : LinkId) (n : SessionName) (due : Due)
        (text schema : List ℕ) (settings : List SlotValue) (args : Args)
        → Tells terms past (Sent link (Statement n due))
        → due.command ≡ Run text schema settings args
        → ((view_after (setup_in terms) past).links link).live due.key ≡ None → ⊥ }
{}

/// An execute runs in another schema than that in which its client prepared it.
pub fn executes_in_another_schema()
    ensures { (terms : Terms) (past : Story) (link : LinkId) (n : SessionName) (due : Due)
        (text schema : List ℕ) (settings : List SlotValue) (args : Args)
        → Tells terms past (Sent link (Statement n due))
        → due.command ≡ Run text schema settings args
        → schema ≢ ((setup_in terms).keys due.key).place.schema → ⊥ }
{}
