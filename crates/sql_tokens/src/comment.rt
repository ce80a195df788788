// Comments (MySQL Reference Manual, "Comments").
ghost use Rattle.std.specs.Prelude.{◌≡◌};
ghost use Rattle.sql_tokens.specs.Bytes.{is_white_or_control};
ghost use Rattle.sql_tokens.specs.Comments.{begins_line_comment, line_length, closes_block, to_block_end, begins_block, block_length, executes};

use crate::bytes::{behind, has_byte};

// White space or a control byte.
fn is_white_or_control(byte: u8) -> bool
    ensures { result ≡ is_white_or_control byte }
{
    byte.is_ascii_control() || byte == b' '
}

// `#`, or `--` before white space, a control byte or the end.
#[tactic(auto, unfolding(crate::specs::Comments::begins_line_comment))]
pub(crate) fn begins_line_comment(bytes: &[u8]) -> bool
    ensures { result ≡ begins_line_comment bytes.now }
{
    has_byte(bytes, 0, b'#')
        || (has_byte(bytes, 0, b'-')
            && has_byte(bytes, 1, b'-')
            && (bytes.len() <= 2 || is_white_or_control(bytes[2])))
}

// To before the line feed, or to the end.
pub(crate) fn line_length(bytes: &[u8]) -> usize
    ensures { result ≡ line_length bytes.now }
{
    bytes.iter().take_while(|b| **b != b'\n').count()
}

// `/*`.
#[tactic(auto, unfolding(crate::specs::Comments::begins_block))]
pub(crate) fn begins_block(bytes: &[u8]) -> bool
    ensures { result ≡ begins_block bytes.now }
{
    has_byte(bytes, 0, b'/') && has_byte(bytes, 1, b'*')
}

// `!` or `M!` behind the `/*`, so that servers execute what stands inside (MySQL Reference Manual and MariaDB, "Comments").
pub(crate) fn executes(bytes: &[u8]) -> bool
    ensures { result ≡ executes bytes.now }
{
    has_byte(bytes, 2, b'!') || (has_byte(bytes, 2, b'M') && has_byte(bytes, 3, b'!'))
}

// `*/`.
fn closes_block(bytes: &[u8]) -> bool
    ensures { result ≡ closes_block bytes.now }
{
    has_byte(bytes, 0, b'*') && has_byte(bytes, 1, b'/')
}

// To the first `*/` and with it.
fn to_block_end(bytes: &[u8]) -> Option<usize>
    ensures { result ≡ to_block_end bytes.now }
{
    for i in 0..bytes.len() {
        if closes_block(behind(bytes, i)) {
            return Some(i + 2);
        }
    }
    None
}

// To the first `*/` behind the whole `/*`.
#[tactic(auto, unfolding(crate::specs::Comments::block_length))]
pub(crate) fn block_length(bytes: &[u8]) -> Option<usize>
    ensures { result ≡ block_length bytes.now }
{
    let end = to_block_end(behind(bytes, 2))?;
    Some(2 + end)
}
