// Links to servers: what is known of them, for whom they are opened, and why they are closed.
ghost use Rattle.std.specs.Prelude.{◌≡◌, ◌++◌, Some, is_some, true};
ghost use Rattle.mx_base.specs.declared.names.LinkId.{LinkId};
ghost use Rattle.mx_wire.specs.Log.{Log};
ghost use Rattle.mx_wire.specs.Moments.{AllLawful, AtEachMoment};
ghost use Rattle.router_promises.specs.Closes.{ClosesSo};
ghost use Rattle.router_promises.specs.Now.{now_at};
ghost use Rattle.router_promises.specs.Opens.{OpensSo};
ghost use Rattle.router_promises.specs.Terms.{AreWhoTheySay};
ghost use Rattle.server_rule.specs.Classes.{router_reads};
ghost use Rattle.shared_router.specs.Fixed.{Fixed, IsNumbered};
ghost use Rattle.shared_router.specs.Fresh.{FreshSo};
ghost use Rattle.shared_router.specs.Known.{Known};
ghost use Rattle.shared_router.specs.Leads.{LeadsSo, ReadsNothing, SpellsIds};
ghost use Rattle.shared_router.specs.Lends.{readied_now};
ghost use Rattle.shared_router.specs.More.{now_of};
ghost use Rattle.shared_router.specs.Ours.{IsOurLog};
ghost use Rattle.shared_router.specs.Ready.{IsReadyFor};
ghost use Rattle.shared_router.specs.Sends.{SendsSo};
ghost use Rattle.shared_router.specs.Shared.{final_terms, world_at};
ghost use Rattle.shared_router.specs.Wishes.{wish_on};
ghost use Rattle.tale_world.specs.Policy.{Readied};

/// By what was decided in the end, all that is known at a moment of the log is what the world knows then: the clock, the tale, servers'
/// states, clients' flags, since when messages are taken up, and how links were used.
pub fn knows_now()
    ensures { (fixed : Fixed) (before after : Log) → IsNumbered fixed
        → now_at (final_terms fixed (before ++ after)) before ≡ now_of fixed (world_at fixed before) }
{}

/// Where clients are who they say, links are opened for statements that wait, as their clients: at servers with room, while fewer links of
/// the key are free or opening than statements wait.
pub fn opens_for_those_who_wait()
    ensures { (fixed : Fixed) (log : Log) → IsNumbered fixed → IsOurLog fixed log
        → AreWhoTheySay (final_terms fixed log) log → AllLawful (OpensSo (final_terms fixed log)) log }
{}

/// Links to servers are closed for a cause.
pub fn closes_for_a_cause()
    ensures { (fixed : Fixed) (log : Log) → IsNumbered fixed → IsOurLog fixed log
        → AllLawful (ClosesSo (final_terms fixed log)) log }
{}

/// Statements are sent while they are due, and no reset behind a statement of which none takes back what it does; a QUIT is said on a link
/// that may be closed, and a STMT_RESET names a statement with long data.
pub fn sends_what_is_due()
    ensures { (fixed : Fixed) (log : Log) → IsNumbered fixed → IsOurLog fixed log → AllLawful (SendsSo (final_terms fixed log)) log }
{}

/// Each step is wanted by the statement whose link it is, or by one that waits for a link of its key: it leads to a schema or to settings that
/// the link wasn't told, or sets the session's insert id. Each preparation is for a statement that is due, and its text doesn't stand there.
/// A STMT_CLOSE names a number that is live, where 1,000 are, or where a statement that is due is to prepare its text anew.
/// Where insert ids are spelt as they are, and an empty text isn't read as a SET.
pub fn takes_steps_that_are_wanted()
    ensures { (fixed : Fixed) (log : Log) → IsNumbered fixed → SpellsIds fixed → ReadsNothing fixed.router.reads → IsOurLog fixed log
        → AllLawful (LeadsSo (final_terms fixed log)) log }
{}

/// As the router reads texts, an empty one is no SET.
pub fn reads_no_set_in_nothing()
    ensures { ReadsNothing router_reads }
{}

/// A link that is readied for a statement is asked for it, where all else that the test looks at is as it should be.
pub fn asks_for_who_is_ready()
    ensures { (k : Known) (link : LinkId) (r : Readied) → readied_now k link ≡ Some r → IsReadyFor k link r → is_some (wish_on k link) ≡ true }
{}

/// What is due is a statement that was sent nowhere and has no reply, and is due in one session.
pub fn keeps_dues_fresh()
    ensures { (fixed : Fixed) (log : Log) → IsOurLog fixed log → AtEachMoment (FreshSo (final_terms fixed log)) log }
{}
