// The values that fields denote.
ghost use Rattle.std.specs.Prelude.{◌≡◌, IfOk};
ghost use Rattle.std.specs.List.{list_all};
ghost use Rattle.recording.specs.Fields.{ordinal, lettered, client, server, link, port, is_salt_byte, salt, some_bytes};

use crate::RecordLink;
use hex::{FromHex, FromHexError};
use mx_base::{Bytes, OutOfMemory, Port, read_number};
use std::alloc::Global;

/// What stands between two fields: a space or a tab.
pub(crate) const BLANKS: &[u8] = b" \t";

/// A number from 1 to 65,535.
#[tactic(auto, unfolding(crate::specs::Fields::ordinal))]
pub(crate) fn read_ordinal(text: &[u8]) -> Option<u16>
    ensures { result ≡ ordinal text.now }
{
    let n = read_number(text)?;
    if 1 <= n && n <= 65535 {
        Some(n as u16)
    } else {
        None
    }
}

fn read_lettered(letter: u8, text: &[u8]) -> Option<u16>
    ensures { result ≡ lettered letter text.now }
{
    match text {
        [first, digits @ ..] if *first == letter => read_ordinal(digits),
        _ => None,
    }
}

/// `c<n>`.
#[tactic(auto, unfolding(crate::specs::Fields::client))]
pub(crate) fn read_client(text: &[u8]) -> Option<u16>
    ensures { result ≡ client text.now }
{
    read_lettered(b'c', text)
}

/// `s<k>`.
#[tactic(auto, unfolding(crate::specs::Fields::server))]
pub(crate) fn read_server(text: &[u8]) -> Option<u16>
    ensures { result ≡ server text.now }
{
    read_lettered(b's', text)
}

/// `c<n>` or `s<k>`.
#[tactic(auto, unfolding(crate::specs::Fields::link))]
pub(crate) fn read_link(text: &[u8]) -> Option<RecordLink>
    ensures { result ≡ link text.now }
{
    match (read_client(text), read_server(text)) {
        (Some(n), _) => Some(RecordLink::Client(n)),
        (None, Some(k)) => Some(RecordLink::Server(k)),
        (None, None) => None,
    }
}

/// `traffic` or `admin`.
#[tactic(auto, unfolding(crate::specs::Fields::port))]
pub(crate) fn read_port(text: &[u8]) -> Option<Port>
    ensures { result ≡ port text.now }
{
    if text == b"traffic".as_slice() {
        Some(Port::Traffic)
    } else if text == b"admin".as_slice() {
        Some(Port::Admin)
    } else {
        None
    }
}

/// Forty hexadecimal digits of either case, of bytes from 01 to 7f.
#[tactic(auto, unfolding(crate::specs::Fields::salt))]
pub(crate) fn read_salt(text: &[u8]) -> Option<[u8; 20]>
    ensures { result ≡ salt text.now }
{
    let bytes = <[u8; 20] as FromHex>::from_hex(text).ok()?;
    if is_salt(&bytes) { Some(bytes) } else { None }
}

fn is_salt(bytes: &[u8; 20]) -> bool
    ensures { result ≡ list_all is_salt_byte bytes.now }
{
    bytes.iter().all(|b| 1 <= *b && *b <= 127)
}

/// Hexadecimal digits of either case, two for each byte, of at least one byte.
#[tactic(auto, unfolding(crate::specs::Fields::some_bytes))]
pub(crate) fn read_bytes(alloc: Global, text: &[u8]) -> Result<Option<Bytes>, OutOfMemory>
    ensures { IfOk result (λ bytes. bytes ≡ some_bytes text.now) }
{
    match hex::decode(alloc, text) {
        Ok(bytes) => {
            if bytes.is_empty() {
                return Ok(None);
            }
            Ok(Some(Bytes::from_slice(alloc, &bytes)?))
        }
        Err(FromHexError::OutOfMemory) => Err(OutOfMemory),
        Err(_) => Ok(None),
    }
}
