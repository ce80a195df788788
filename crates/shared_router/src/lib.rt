//! The router with shared links, as a world that decides: what it does at each entry of a log, and what such a log keeps.
#![tactic(auto)]

mod clients;
pub mod departing;
mod gives_up;
mod kept;
mod keys;
mod links;
mod replies;
mod rests;
mod waits;
mod words;

ghost use Rattle.std.specs.Prelude.{◌≡◌, ◌++◌, ℕ, Bool, Some, true};
ghost use Rattle.mx_base.specs.declared.names.LinkId.{LinkId};
ghost use Rattle.mx_wire.specs.Log.{Log};
ghost use Rattle.mx_wire.specs.Moments.{AllLawful, AtEachMoment};
ghost use Rattle.packet_frame.specs.Packets.{Framed};
ghost use Rattle.log_story.specs.Plan.{Plan};
ghost use Rattle.log_story.specs.Tale.{Client};
ghost use Rattle.tale_world.specs.Decided.{Agrees};
ghost use Rattle.tale_world.specs.Deciding.{World};
ghost use Rattle.tale_world.specs.World.{decided_next};
ghost use Rattle.router_promises.specs.Headline.{IsLawfulSo};
ghost use Rattle.router_promises.specs.Routed.{RoutesSo};
ghost use Rattle.router_promises.specs.Tags.{TagsSo};
ghost use Rattle.router_promises.specs.Verdicts.{verdict};
ghost use Rattle.router_promises.specs.Terms.{IsRouters, Tried, tale_at};
ghost use Rattle.shared_router.specs.Fixed.{Fixed, IsNumbered, setup_of};
ghost use Rattle.shared_router.specs.Judged.{IsFresh, IsMet, JudgedSo, PromptSo, with_rest};
ghost use Rattle.shared_router.specs.Known.{Known};
ghost use Rattle.shared_router.specs.Lends.{is_near, readied_now};
ghost use Rattle.shared_router.specs.More.{More, terms_of};
ghost use Rattle.shared_router.specs.Ours.{IsOurLog};
ghost use Rattle.shared_router.specs.Waits.{Waits};
ghost use Rattle.tale_world.specs.Policy.{Readied};
ghost use Rattle.shared_router.specs.Shared.{final_terms, shared, starves_now, taking_in, world_at};

/// By what was decided in the end, each beginning of the log tells the tale of the world then.
pub fn one_tale()
    ensures { (fixed : Fixed) (before after : Log) → tale_at (final_terms fixed (before ++ after)) before ≡ (world_at fixed before).tale }
{}

/// The plan is one of this router.
pub fn is_routers()
    ensures { (fixed : Fixed) (log : Log) → IsRouters (final_terms fixed log) }
{}

/// As a message comes up of which nothing was decided: by each plan that agrees with what is decided then, it goes where the verdict
/// by that plan says, or is answered as it says; where memory is refused to its client, it is left.
pub fn is_judged()
    ensures { (fixed : Fixed) (w : World More) (client : Client) (message : Framed) (bare : LinkId → Bool) (tried : ℕ → Tried) (plan : Plan)
        → IsNumbered fixed → IsFresh fixed w client message → Agrees (decided_next (setup_of fixed) (shared fixed) w client) w.tale.moment plan
        → IsMet (starves_now fixed w client) (with_rest (terms_of fixed w) plan bare tried) (taking_in w client message)
        (verdict (with_rest (terms_of fixed w) plan bare tried) w.more.servers (w.more.flags client.number) (taking_in w client message)) }
{}

/// Nothing is decided of a message before it comes up.
pub fn is_prompt()
    ensures { (fixed : Fixed) (log : Log) → IsOurLog fixed log → AllLawful (PromptSo fixed) log }
{}

/// So at each entry of the log, each message that is taken up goes where the verdict by the last plan says, or is answered as it says; where
/// memory is refused to its client, it is left.
pub fn judges_each()
    ensures { (fixed : Fixed) (log : Log) → IsNumbered fixed → IsOurLog fixed log → AllLawful (JudgedSo fixed.starves (final_terms fixed log)) log }
{
    is_prompt();
}

/// Each message that is taken up goes, or is answered, as is promised: who quits, or has no memory, ends by it.
pub fn is_routed()
    ensures { (fixed : Fixed) (log : Log) → IsNumbered fixed → IsOurLog fixed log → AllLawful (RoutesSo (final_terms fixed log)) log }
{
    judges_each();
}

/// The story that the log tells is lawful at each moment.
pub fn is_lawful()
    ensures { (fixed : Fixed) (log : Log) → IsOurLog fixed log → AtEachMoment (IsLawfulSo (final_terms fixed log)) log }
{}

/// What it writes has its tags, and stands where it should.
pub fn is_tagged()
    ensures { (fixed : Fixed) (log : Log) → IsNumbered fixed → IsOurLog fixed log → AllLawful (TagsSo (final_terms fixed log)) log }
{}

/// A link is readied for a statement that waits: in its client's present session, as it is due there.
pub fn readied_waits()
    ensures { (k : Known) (link : LinkId) (r : Readied) → readied_now k link ≡ Some r → Waits k r }
{}

/// And the link is of the key of what is due there: of its hostgroup and account, and kept for those in no schema where it stands in none.
pub fn readied_near()
    ensures { (k : Known) (link : LinkId) (r : Readied) → readied_now k link ≡ Some r → is_near k link r ≡ true }
{}
