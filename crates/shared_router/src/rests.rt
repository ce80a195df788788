// What stands where the loop waits.
ghost use Rattle.std.specs.Prelude.{◌≡◌, None, Some, true};
ghost use Rattle.mx_base.specs.declared.names.LinkId.{LinkId};
ghost use Rattle.mx_wire.specs.Log.{Log};
ghost use Rattle.mx_wire.specs.Moments.{AllLawful, AtEachMoment};
ghost use Rattle.log_story.specs.Tale.{is_to_server};
ghost use Rattle.router_promises.specs.Headline.{SaysSo};
ghost use Rattle.router_promises.specs.Keys.{LinkKey, is_free, is_vacant, key_of};
ghost use Rattle.tale_world.specs.Policy.{Readied};
ghost use Rattle.shared_router.specs.Fixed.{Fixed, IsNumbered};
ghost use Rattle.shared_router.specs.Known.{Known};
ghost use Rattle.shared_router.specs.Lends.{readied_now, waiters_by};
ghost use Rattle.shared_router.specs.Lent.{HaveLinks};
ghost use Rattle.shared_router.specs.Ours.{IsOurLog};
ghost use Rattle.shared_router.specs.Rests.{CalmSo, LogsInSo};
ghost use Rattle.shared_router.specs.Shared.{final_terms};

/// Where the loop waits, nobody waits at a port, and each ready link was named. The link of a client that ended, where it is open, wasn't
/// lost, and the client has time yet to take what it is told. Each open link to a server can be used, and none that
/// rests and carries nobody was idle for as long as the configuration allows. And for the statements of a key that wait as many links are
/// free or opening; or no server of their hostgroup has room for one more, and no idle link of another key lies there.
pub fn waits_when_calm()
    ensures { (fixed : Fixed) (log : Log) → IsNumbered fixed → IsOurLog fixed log
        → AllLawful (CalmSo (final_terms fixed log)) log }
{}

/// Where a link is free and readied for nobody, each statement of its key that waits has a link that is readied for it.
pub fn lends_to_all()
    ensures { (k : Known) (link : LinkId) (key : LinkKey) → is_to_server k.now.tale link ≡ true
        → is_free k.terms k.log k.now link ≡ true → key_of k.terms k.now link ≡ Some key → readied_now k link ≡ None
        → HaveLinks k key (waiters_by k k.now.tale.story) }
{}

/// Where what is written on links to servers is a front of its spelling: where the loop waits, all is written on each open link that
/// there is to say in its login, or the link takes no more.
pub fn logs_in_whole()
    ensures { (fixed : Fixed) (log : Log) → IsNumbered fixed → IsOurLog fixed log
        → AtEachMoment (SaysSo (final_terms fixed log)) log → AllLawful (LogsInSo (final_terms fixed log)) log }
{}

/// A link that is readied is logged in, open and not lost, was told no QUIT, and carries nobody.
pub fn readied_vacant()
    ensures { (k : Known) (link : LinkId) (r : Readied)
        → readied_now k link ≡ Some r → is_vacant k.terms k.log k.now link ≡ true }
{}
