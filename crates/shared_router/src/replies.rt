// What the router writes to clients.
ghost use Rattle.mx_wire.specs.Log.{Log};
ghost use Rattle.mx_wire.specs.Moments.{AllLawful, AtEachMoment};
ghost use Rattle.router_promises.specs.Due.{DueSo};
ghost use Rattle.router_promises.specs.Terms.{Terms};
ghost use Rattle.shared_router.specs.Fixed.{Fixed, IsNumbered};
ghost use Rattle.shared_router.specs.Onward.{AnswersStaySo, GoesOnSo, RepliesStaySo, UntilGoesOnSo, WordsGoOnSo};
ghost use Rattle.shared_router.specs.Ours.{IsOurLog};
ghost use Rattle.shared_router.specs.Shared.{final_terms};

/// What was written to each client is at each moment a front of what it is due, where at each entry what a client
/// is due goes on with what it was due before.
pub fn writes_what_is_due()
    ensures { (fixed : Fixed) (log : Log) → IsOurLog fixed log
        → AllLawful (GoesOnSo (final_terms fixed log)) log
        → AtEachMoment (DueSo (final_terms fixed log)) log }
{}

/// What a client is due but for a last word goes on at each entry, by whatever plan, where each answer to a message that was taken up stays.
pub fn due_goes_on()
    ensures { (terms : Terms) (log : Log) → AllLawful (AnswersStaySo terms) log
        → AllLawful (UntilGoesOnSo terms) log }
{}

/// A reply to a message that was taken up stays, and what was replied to the router doesn't answer later.
pub fn keeps_replies()
    ensures { (fixed : Fixed) (log : Log) → IsNumbered fixed → IsOurLog fixed log → AllLawful (RepliesStaySo (final_terms fixed log)) log }
{}

/// What a client with a last word is due goes on: it is heard no more and takes up nothing more, each of its messages is answered, or its last
/// was left for want of memory; and a word that is said stands behind what it was due, or in place of the answer to its login.
pub fn keeps_last_words()
    ensures { (fixed : Fixed) (log : Log) → IsNumbered fixed → IsOurLog fixed log → AllLawful (WordsGoOnSo (final_terms fixed log)) log }
{}

/// So what was written to each client is at each moment a front of what it is due.
pub fn writes_answers_that_stay()
    ensures { (fixed : Fixed) (log : Log) → IsNumbered fixed → IsOurLog fixed log → AtEachMoment (DueSo (final_terms fixed log)) log }
{}
