// Laws of replies that come in pieces, and of what is taken back.
ghost use Rattle.std.specs.Prelude.{◌≡◌, ℕ, None, true, List, [], ◌++◌, is_some, length};
ghost use Rattle.reply_track.specs.Runs.{renumbered, run};
ghost use Rattle.reply_track.specs.Runs.Ending.{Going};
ghost use Rattle.reply_track.specs.Tracking.{Sought, started};
ghost use Rattle.reply_track.specs.declared.place.State.{State};
ghost use Rattle.lent_link.specs.Links.{is_in, left_in, unbegun};
ghost use Rattle.lent_link.specs.Pieces.{IsRead};
ghost use Rattle.lent_link.specs.Reads.{reading, walked};
ghost use Rattle.lent_link.specs.Rests.{may_begin};
ghost use Rattle.lent_link.specs.declared.link.LentLink.{LentLink};
ghost use Rattle.lent_link.specs.declared.reading.Reading.{Reading};

/// A reply of which nothing was read stands for no bytes. Where it stands for those that were read, it stands with a piece more for these
/// and the piece; how the piece ends the reply is how all of it does; and what was handed on of the pieces is what is of the whole.
pub fn pieces_are_one()
    ensures none { (sought : Sought) → IsRead sought [] (reading sought.kind sought.server sought.client sought.number) }
    ensures ends { (sought : Sought) (bytes piece : List ℕ) (r : Reading) → IsRead sought bytes r
        → run (started sought) (bytes ++ piece) ≡ run r.tracker.state piece }
    ensures handed { (sought : Sought) (bytes piece : List ℕ) (r : Reading) → IsRead sought bytes r
        → renumbered (started sought) (bytes ++ piece) ≡ renumbered (started sought) bytes ++ renumbered r.tracker.state piece }
    ensures goes { (sought : Sought) (bytes piece : List ℕ) (r : Reading) (state : State) → IsRead sought bytes r
        → run r.tracker.state piece ≡ Going state → IsRead sought (bytes ++ piece) (walked (length piece) r (Going state)) }
{}

/// A link takes another wish once what stands there next is taken back, where it took one before; and nothing is left to be written there.
pub fn wishes_are_taken_back()
    ensures may { (link : LentLink) → may_begin (unbegun link) ≡ may_begin link }
    ensures nothing { (link : LentLink) → is_in link.login.stage ≡ true → is_some link.next ≡ true → left_in (unbegun link) ≡ None }
{}
