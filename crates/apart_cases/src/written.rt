// Routers that write other bytes on links to servers than those of what was asked.
ghost use Rattle.std.specs.Prelude.{◌≡◌, ◌≢◌, ℕ, false, true, List, [], ◌++◌, Some, None};
ghost use Rattle.core_promises.specs.Sessions.{KeepsApart};
ghost use Rattle.core_promises.specs.Wrong.{Has};
ghost use Rattle.log_story.specs.Honest.{IsFront};
ghost use Rattle.log_story.specs.Plan.{Closes, step_payload, text_payload};
ghost use Rattle.log_story.specs.Servers.{may_begin};
ghost use Rattle.log_story.specs.Tale.{is_to_server, link_in};
ghost use Rattle.mx_base.specs.declared.names.LinkId.{LinkId};
ghost use Rattle.mx_base.specs.declared.tag.Tag.{Tag};
ghost use Rattle.mx_wire.specs.Log.{Log};
ghost use Rattle.mx_wire.specs.declared.entry.Entry.TheVariants.{Wrote};
ghost use Rattle.packet_frame.specs.Packets.{spelling};
ghost use Rattle.private_model.specs.Commands.{Query};
ghost use Rattle.private_model.specs.Names.{SessionName};
ghost use Rattle.private_model.specs.Story.{Due, Statement};
ghost use Rattle.private_model.specs.View.{Asked, Quiet};
ghost use Rattle.router_promises.specs.Now.{link_now, now_at};
ghost use Rattle.router_promises.specs.Terms.{Terms, setup_in, tale_at};

/// Other bytes than a query's are written for it: not those of its text as rules rewrite it.
pub fn writes_other_bytes()
    ensures { (terms : Terms) (before more : Log) (link : LinkId) (n : SessionName) (due : Due)
        (text : List ℕ) → KeepsApart terms (before ++ more)
        → is_to_server (tale_at terms before) link ≡ true
        → ((tale_at terms before).wires link).entered ≡ true → due.command ≡ Query text
        → (link_now (setup_in terms) (now_at terms before) link).stage ≡ Asked (Statement n due)
        → (IsFront ((tale_at terms before).wires link).written (spelling 0 (text_payload (Query text)))
        → ⊥) → ⊥ }
{}

/// Bytes are written for which nothing stands in the story: no question, no STMT_CLOSE or STMT_RESET, and no QUIT.
pub fn writes_what_nobody_asked()
    ensures { (terms : Terms) (before more : Log) (link : LinkId) → KeepsApart terms (before ++ more)
        → is_to_server (tale_at terms before) link ≡ true
        → ((tale_at terms before).wires link).entered ≡ true
        → (link_in (setup_in terms) (tale_at terms before) link).stage ≡ Quiet
        → ((tale_at terms before).wires link).step ≡ None
        → ((tale_at terms before).wires link).quits ≡ false
        → ((tale_at terms before).wires link).written ≢ [] → ⊥ }
{}

/// Something begins on a link while a STMT_CLOSE is half written there, so that its bytes are read as the rest of that.
pub fn begins_behind_half_a_close()
    ensures { (terms : Terms) (before : Log) (link : LinkId) (tag : Tag) (bytes : List ℕ) (number : ℕ)
        → Has terms before (Wrote link tag bytes)
        → is_to_server (tale_at terms before) link ≡ true
        → may_begin (setup_in terms) link ((tale_at terms before).wires link) (tale_at terms before) ≡ true
        → ((tale_at terms before).wires link).step ≡ Some (Closes number)
        → ((tale_at terms before).wires link).written ≢ spelling 0 (step_payload (Closes number)) → ⊥ }
{}
