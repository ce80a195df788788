// A law of replies, for whoever stands on this crate.
ghost use Rattle.std.specs.Prelude.{◌≡◌, ℕ, List, [], ◌++◌};
ghost use Rattle.reply_track.specs.declared.reply.ReplyEnd.{ReplyEnd};
ghost use Rattle.reply_track.specs.Tracking.{Sought, IsWhole};

/// No reply begins another, so bytes have one end of a reply at most, and it ends in one way.
pub fn one_end()
    ensures { (sought : Sought) (bytes more : List ℕ) (payloads others : List (List ℕ)) (end last : ReplyEnd) → IsWhole sought bytes payloads end → IsWhole sought (bytes ++ more) others last → (more ≡ []) × (last ≡ end) }
{}
