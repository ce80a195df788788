// The insert id of a session, where it is known.
ghost use Rattle.std.specs.Prelude.{◌≡◌};
ghost use Rattle.session_state.specs.InsertIds.{id_after_text, id_prepared};

use crate::{EndKind, ReplyEnd};
use pin_classifier::Class;

/// The insert id after a reply to a text of this class, where it is known. `hides` says that the text may set it in a
/// way that no reply shows. Takes no memory.
pub fn insert_id_after(
    known: Option<u64>,
    class: &Class,
    hides: bool,
    end: &ReplyEnd,
) -> Option<u64>
    ensures { result ≡ id_after_text class.now hides end.now known }
{
    if class.marks_id && (class.deep || hides || end.brings_id()) {
        None
    } else {
        known
    }
}

/// The insert id after the answer to a client's STMT_PREPARE of a text of this class. Takes no memory.
pub fn insert_id_prepared(known: Option<u64>, class: &Class, end: &ReplyEnd) -> Option<u64>
    ensures { result ≡ id_prepared class.now end.now known }
{
    if class.marks_id && end.is_err() {
        None
    } else {
        known
    }
}
