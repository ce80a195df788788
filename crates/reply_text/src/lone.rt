// Replies of one payload.
ghost use Rattle.std.specs.Prelude.{◌≡◌};
ghost use Rattle.reply_text.specs.Replies.{is_err, ok_flags, is_lone};

use mx_base::{Field, get_lenenc, get_u8, get_u16};

/// Another result follows this one (client/server protocol, "SERVER_STATUS_flags_enum").
const MORE_RESULTS_EXISTS: u16 = 0x0008;

/// Whether the payload is a whole reply: an ERR ("ERR_Packet"), or an OK ("OK_Packet") whose status flags lack
/// MORE_RESULTS_EXISTS. Takes no memory.
pub fn is_lone_reply(payload: &[u8]) -> bool
    ensures { result ≡ is_lone payload.now }
{
    if is_err(payload) {
        return true;
    }
    match ok_flags(payload) {
        Some(flags) => flags & MORE_RESULTS_EXISTS == 0,
        None => false,
    }
}

// Whether the payload is an ERR.
fn is_err(payload: &[u8]) -> bool
    ensures { result ≡ is_err payload.now }
{
    payload.len() >= 9 && payload[0] == 0xFF && payload[3] == b'#'
}

// The status flags of an OK, None where the payload is none.
fn ok_flags(payload: &[u8]) -> Option<u16>
    ensures { result ≡ ok_flags payload.now }
{
    if get_u8(payload, 0)? != 0 {
        return None;
    }
    let Field::Value { next, .. } = get_lenenc(payload, 1) else {
        return None;
    };
    let Field::Value { next, .. } = get_lenenc(payload, next) else {
        return None;
    };
    let flags = get_u16(payload, next)?;
    let _warnings = get_u16(payload, next + 2)?;
    Some(flags)
}
