// Routers that end clients for no cause: none that keeps its clients apart does so.
ghost use Rattle.std.specs.Prelude.{◌≡◌, ◌||◌, ℕ, List, false};
ghost use Rattle.core_promises.specs.Causes.{is_carried};
ghost use Rattle.core_promises.specs.Endings.{is_its_own, is_new, may_end};
ghost use Rattle.core_promises.specs.InForce.{has_administrator};
ghost use Rattle.core_promises.specs.Wrong.{IsEnded};
ghost use Rattle.log_story.specs.Tale.{Client};
ghost use Rattle.mx_wire.specs.Log.{Log};
ghost use Rattle.mx_wire.specs.declared.entry.Entry.{Entry};
ghost use Rattle.mx_wire.specs.declared.entry.Entry.TheVariants.{Ended, Got, Woke};
ghost use Rattle.private_model.specs.Names.{LinkId};
ghost use Rattle.router_promises.specs.Terms.{Terms, plan_in, setup_in, tale_at};

/// It ends a client that said nothing by which it ends, as something is written, a link is opened or closed, or an open fails, say.
pub fn ends_at_any_time()
    ensures { (terms : Terms) (before : Log) (e : Entry) (client : Client)
        → IsEnded terms before e client → may_end e ≡ false → ⊥ }
{}

/// It ends it as bytes come of a server on a link that carries no session of it, or of another client.
pub fn ends_for_anothers_bytes()
    ensures { (terms : Terms) (before : Log) (link : LinkId) (bytes : List ℕ) (client : Client)
        → IsEnded terms before (Got link bytes) client
        → is_carried (setup_in terms) (tale_at terms before) link client.number ≡ false → ⊥ }
{}

/// It ends it as a link is lost that is neither its own, nor carries a session of it.
pub fn ends_with_anothers_link()
    ensures { (terms : Terms) (before : Log) (link : LinkId) (client : Client)
        → IsEnded terms before (Ended link) client
        → is_its_own (tale_at terms before) link client.number ≡ false
        → is_carried (setup_in terms) (tale_at terms before) link client.number ≡ false → ⊥ }
{}

/// It ends it as the loop wakes, although a message of it was taken up, and no administrator came.
pub fn ends_whom_it_serves()
    ensures { (terms : Terms) (before : Log) (until_ms now_ms : ℕ) (client : Client)
        → IsEnded terms before (Woke until_ms now_ms) client → has_administrator before ≡ false
        → is_new (tale_at terms before) client.number ≡ false → ⊥ }
{}
