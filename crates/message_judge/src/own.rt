// What the router itself answers.
ghost use Rattle.std.specs.Prelude.{◌≡◌, is_some, Option};
ghost use Rattle.router_promises.specs.Verdicts.{is_taken_off};
ghost use Rattle.message_judge.specs.Drafts.{draft_of};
ghost use Rattle.message_judge.specs.Judging.{connection_id, own_ok, own_status};
ghost use Rattle.message_judge.specs.declared.caller.Prepared.{Prepared};
ghost use Rattle.message_judge.specs.declared.draft.Draft.TheVariants as drafts;
ghost use Rattle.message_judge.specs.declared.told.Told.TheVariants as told;

use crate::caller::{Caller, Standing};
use crate::draft::Draft;
use crate::told::{OwnError, Told};
use mx_base::Bytes;
use session_vars::{Slot, SlotValue};

/// SERVER_STATUS_AUTOCOMMIT (client/server protocol, "SERVER_STATUS_flags_enum").
pub const AUTOCOMMIT: u16 = 2;

/// An error.
pub fn refuses(why: OwnError) -> Draft
    ensures { result ≡ drafts.Answers (told.Error why) }
{
    Draft::Answers(Told::Error(why))
}

// Whether it is the value of an autocommit that is off.
fn is_taken_off(value: &SlotValue) -> bool
    ensures { result ≡ is_taken_off value.now }
{
    match value {
        SlotValue::Default => false,
        SlotValue::Text(text) => {
            text.as_slice() == b"0".as_slice() || text.as_slice().eq_ignore_ascii_case(b"off")
        }
    }
}

// The status flags of the router's own OK.
fn own_status(caller: &Caller, standing: Standing) -> u16
    ensures { result ≡ own_status caller.now standing }
{
    let autocommit = if is_taken_off(caller.place.settings.value(Slot::Autocommit)) {
        0
    } else {
        AUTOCOMMIT
    };
    let in_transaction = if standing.transaction.is_some() { 1 } else { 0 };
    autocommit + in_transaction
}

/// The router's own OK.
pub fn own_ok(caller: &Caller, standing: Standing, info: Bytes) -> Draft
    ensures { (prepared : Option Prepared) → draft_of caller.now prepared result ≡ own_ok caller.now standing info }
{
    Draft::Answers(Told::Ok {
        status: own_status(caller, standing),
        info,
    })
}

/// The client's number.
pub fn connection_id(caller: &Caller, standing: Standing) -> Draft
    ensures { (prepared : Option Prepared) → draft_of caller.now prepared result ≡ connection_id caller.now standing }
{
    Draft::Answers(Told::ConnectionId {
        status: own_status(caller, standing),
    })
}
