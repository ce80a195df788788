// Variables (MySQL Reference Manual, "User-Defined Variables" and "Using System Variables").
ghost use Rattle.std.specs.Prelude.{◌≡◌};
ghost use Rattle.sql_tokens.specs.Variables.{system_variable_length, variable_name_length};

use crate::bytes::{behind, followed_by, has_byte, name_run};
use crate::quote::{begins_name, begins_quoted, quoted_length};

// `@@` and the longest run of name bytes; 0 where the run is empty.
#[tactic(auto, unfolding(crate::specs::Variables::system_variable_length))]
pub(crate) fn system_variable_length(bytes: &[u8]) -> usize
    ensures { result ≡ system_variable_length bytes.now }
{
    if has_byte(bytes, 0, b'@') && has_byte(bytes, 1, b'@') {
        followed_by(2, name_run(behind(bytes, 2)))
    } else {
        0
    }
}

// Behind the `@`: a quoted text or a name that is closed, or the longest run of name bytes, which may be empty.
#[tactic(auto, unfolding(crate::specs::Variables::variable_name_length))]
pub(crate) fn variable_name_length(bytes: &[u8]) -> usize
    ensures { result ≡ variable_name_length bytes.now }
{
    if begins_quoted(bytes) || begins_name(bytes) {
        quoted_length(bytes).unwrap_or(0)
    } else {
        name_run(bytes)
    }
}
