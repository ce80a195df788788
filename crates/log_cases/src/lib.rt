//! Worked logs, computed: each with the story that it tells, that the story is lawful and the log honest, and so that its bytes
//! are private.
#![tactic(auto)]

ghost use Rattle.std.specs.Prelude.{◌≡◌, [], ◌∷◌, ◌++◌, length};
ghost use Rattle.packet_frame.specs.Packets.{spelling, spellings};
ghost use Rattle.client_session.specs.Errors.{connection_refused, own_ok};
ghost use Rattle.private_model.specs.Commands.{runs};
ghost use Rattle.private_model.specs.Worlds.{private_after};
ghost use Rattle.small_server.specs.Tally.{prepared};
ghost use Rattle.small_server.specs.Stories.{came, insert, setup, shared};
ghost use Rattle.private_model.specs.Lawful.{IsLawful};
ghost use Rattle.private_model.specs.Story.{Broke, Story};
ghost use Rattle.log_cases.specs.Aside.{farewell_log, farewell_story, late_story, sent_behind, sent_late};
ghost use Rattle.log_cases.specs.Aside.{asker, asks, given_up, goes_on, is_answered, is_given_up, is_woken, own_plan};
ghost use Rattle.log_cases.specs.Aside.{beside_log, beside_plan, beside_story, copy_log, copy_plan, copy_story, ended_log, ended_plan, ended_story};
ghost use Rattle.log_cases.specs.Cases.{IsWorked};
ghost use Rattle.log_cases.specs.Executed.{done, execute_log, execute_plan, execute_story, preparer};
ghost use Rattle.log_story.specs.Owed.{due_bytes};
ghost use Rattle.log_story.specs.Telling.{story_of};
ghost use Rattle.log_cases.specs.Worked.{later_ok, log, logged_in, plan, second_client, server};

use log_story::honest_bytes;

/// Two clients over one link to a small server. The story that the log tells is lawful, the log is honest, and the second
/// client's session owes it just the bytes that were read for it; so its bytes are private.
pub fn worked_log()
    ensures worked { IsWorked plan log shared }
    ensures owed { due_bytes (private_after setup (runs server) shared).answers plan (length log) second_client ≡ logged_in 2 ++ later_ok }
{
    honest_bytes();
}

/// What the router answers itself. A PING is answered as it is taken up. The statement behind it waits for that answer to be
/// written and for the router to be woken, and then becomes due. It is given up as no link can be opened. The next statement
/// becomes due once that is written, at the next wake. The client is owed the two answers, in order.
pub fn own_answers()
    ensures waits { story_of setup own_plan asks ≡ [] }
    ensures waits_for_an_event { story_of setup own_plan is_answered ≡ [] }
    ensures becomes_due { story_of setup own_plan is_woken ≡ came 1 2 insert ∷ [] }
    ensures is_given_up { story_of setup own_plan is_given_up ≡ came 1 2 insert ∷ [] }
    ensures worked { IsWorked own_plan goes_on given_up }
    ensures owed { due_bytes (private_after setup (runs server) given_up).answers own_plan (length goes_on) asker
        ≡ logged_in 1 ++ (spelling 1 own_ok ++ spelling 1 connection_refused) }
{
    honest_bytes();
}

/// A STMT_RESET, which is answered, and a STMT_CLOSE stand on a link before a client's statement: the story has the second alone.
pub fn beside_questions()
    ensures { IsWorked beside_plan beside_log beside_story }
{
    honest_bytes();
}

/// A statement is copied to another hostgroup. The copy runs in a session of its own, whose client leaves as it is sent; so
/// its link is given back without a question for the insert id.
pub fn copies()
    ensures { IsWorked copy_plan copy_log copy_story }
{
    honest_bytes();
}

/// A client begins a transaction and sends a QUIT. The router ends it, and resets the session that it leaves; then the link is
/// given back.
pub fn client_ended()
    ensures { IsWorked ended_plan ended_log ended_story }
{
    honest_bytes();
}

/// A prepared statement. The first execute runs with the long data and the types that the client sent; the second with the
/// types of the first, and NULL. The client is owed the answer to its preparation with its own number, and two OKs.
pub fn executes()
    ensures worked { IsWorked execute_plan execute_log execute_story }
    ensures owed { due_bytes (private_after setup (runs server) execute_story).answers execute_plan (length execute_log) preparer
        ≡ logged_in 1 ++ (spellings 1 (prepared 1) ++ (done ++ done)) }
{
    honest_bytes();
}

/// A server says why it drops a link, which is honest. What is sent there then is a breach, and so is a statement that was given
/// up; no story with a breach is lawful.
pub fn breaches()
    ensures farewell { IsWorked plan farewell_log farewell_story }
    ensures behind { story_of setup plan sent_behind ≡ Broke ∷ farewell_story }
    ensures late { story_of setup own_plan sent_late ≡ late_story }
    ensures unlawful { (story : Story) → IsLawful setup (Broke ∷ story) → ⊥ }
{
    honest_bytes();
}
