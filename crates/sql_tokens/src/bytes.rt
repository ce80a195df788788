// Bytes at the front of a slice.
ghost use Rattle.std.specs.Prelude.{◌≡◌, ◌+◌, ◌<◌, ◌^◌, length, take, drop};
ghost use Rattle.std.specs.List.{prefix_len};
ghost use Rattle.std.specs.Char.{is_ascii_digit, is_ascii_hexdigit};
ghost use Rattle.sql_tokens.specs.Bytes.{has_byte, followed_by, is_white, is_word_byte, begins_word, begins_symbol, is_lone_byte, is_name_byte};

// Whether this byte stands at this place.
pub(crate) fn has_byte(bytes: &[u8], place: usize, byte: u8) -> bool
    ensures { result ≡ has_byte bytes.now place byte }
{
    place < bytes.len() && bytes[place] == byte
}

/// What follows so many bytes. Takes no memory.
pub fn behind(bytes: &[u8], count: usize) -> &[u8]
    ensures rest { result.now ≡ drop count bytes.now }
    ensures small { length bytes.now < 2 ^ 64 }
{
    &bytes[count.min(bytes.len())..]
}

/// So many bytes from the front on, as far as they are there. Takes no memory.
pub fn front(bytes: &[u8], count: usize) -> &[u8]
    ensures { result.now ≡ take count bytes.now }
{
    &bytes[..count.min(bytes.len())]
}

// So many bytes and behind them a run, which mustn't be empty; 0 where it is.
pub(crate) fn followed_by(front: usize, run: usize) -> usize
    requires { front + run < 2 ^ 64 }
    ensures { result ≡ followed_by front run }
{
    if run == 0 { 0 } else { front + run }
}

// White space: tab to carriage return, and the space.
fn is_white(byte: u8) -> bool
    ensures { result ≡ is_white byte }
{
    (9 <= byte && byte <= 13) || byte == b' '
}

// Which bytes words have: ASCII letters, digits, `_`, `$`, and bytes from 0x80. Most bytes of a statement are looked up here.
const WORD_BYTES: [bool; 256] = [
    false, false, false, false, false, false, false, false, false, false, false, false, false,
    false, false, false, false, false, false, false, false, false, false, false, false, false,
    false, false, false, false, false, false, false, false, false, false, true, false, false,
    false, false, false, false, false, false, false, false, false, true, true, true, true, true,
    true, true, true, true, true, false, false, false, false, false, false, false, true, true,
    true, true, true, true, true, true, true, true, true, true, true, true, true, true, true, true,
    true, true, true, true, true, true, true, true, false, false, false, false, true, false, true,
    true, true, true, true, true, true, true, true, true, true, true, true, true, true, true, true,
    true, true, true, true, true, true, true, true, true, false, false, false, false, false, true,
    true, true, true, true, true, true, true, true, true, true, true, true, true, true, true, true,
    true, true, true, true, true, true, true, true, true, true, true, true, true, true, true, true,
    true, true, true, true, true, true, true, true, true, true, true, true, true, true, true, true,
    true, true, true, true, true, true, true, true, true, true, true, true, true, true, true, true,
    true, true, true, true, true, true, true, true, true, true, true, true, true, true, true, true,
    true, true, true, true, true, true, true, true, true, true, true, true, true, true, true, true,
    true, true, true, true, true, true, true, true, true, true, true, true, true, true, true, true,
    true, true, true, true, true, true, true, true, true, true, true, true, true, true, true,
];

fn is_word_byte(byte: u8) -> bool
    ensures { result ≡ is_word_byte byte }
{
    WORD_BYTES[byte as usize]
}

// Whether a word begins here, as most tokens are: with a byte of words that is no digit.
pub(crate) fn begins_word(bytes: &[u8]) -> bool
    ensures { result ≡ begins_word bytes.now }
{
    !bytes.is_empty() && is_word_byte(bytes[0]) && !bytes[0].is_ascii_digit()
}

// Whether a byte is here that begins no token but a Symbol, as those between words mostly are.
pub(crate) fn begins_symbol(bytes: &[u8]) -> bool
    ensures { result ≡ begins_symbol bytes.now }
{
    !bytes.is_empty() && is_lone_byte(bytes[0])
}

fn is_lone_byte(byte: u8) -> bool
    ensures { result ≡ is_lone_byte byte }
{
    (b'(' <= byte && byte <= b',') || (b';' <= byte && byte <= b'?')
}

fn is_name_byte(byte: u8) -> bool
    ensures { result ≡ is_name_byte byte }
{
    is_word_byte(byte) || byte == b'.'
}

// How many bytes of white space stand at the front.
pub(crate) fn white_run(bytes: &[u8]) -> usize
    ensures { result ≡ prefix_len is_white bytes.now }
{
    bytes.iter().take_while(|b| is_white(**b)).count()
}

pub(crate) fn word_run(bytes: &[u8]) -> usize
    ensures { result ≡ prefix_len is_word_byte bytes.now }
{
    bytes.iter().take_while(|b| is_word_byte(**b)).count()
}

pub(crate) fn name_run(bytes: &[u8]) -> usize
    ensures { result ≡ prefix_len is_name_byte bytes.now }
{
    bytes.iter().take_while(|b| is_name_byte(**b)).count()
}

pub(crate) fn digit_run(bytes: &[u8]) -> usize
    ensures { result ≡ prefix_len is_ascii_digit bytes.now }
{
    bytes.iter().take_while(|b| b.is_ascii_digit()).count()
}

pub(crate) fn hexdigit_run(bytes: &[u8]) -> usize
    ensures { result ≡ prefix_len is_ascii_hexdigit bytes.now }
{
    bytes.iter().take_while(|b| b.is_ascii_hexdigit()).count()
}
