// Parts of a payload.
ghost use Rattle.std.specs.Prelude.{◌≡◌, drop, slice_index_or, take};

/// The byte that says which command it is, 0 where there is none.
pub(crate) fn first_byte(payload: &[u8]) -> u8
    ensures { result ≡ slice_index_or payload.now 0 0 }
{
    if payload.is_empty() { 0 } else { payload[0] }
}

/// At most so many bytes at the front.
pub(crate) fn front(bytes: &[u8], n: usize) -> &[u8]
    ensures { result.now ≡ take n bytes.now }
{
    if n < bytes.len() { &bytes[..n] } else { bytes }
}

/// The bytes behind so many.
pub(crate) fn behind(bytes: &[u8], n: usize) -> &[u8]
    ensures { result.now ≡ drop n bytes.now }
{
    if n < bytes.len() {
        &bytes[n..]
    } else {
        &bytes[bytes.len()..]
    }
}
