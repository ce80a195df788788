// Numbers in a packet.
ghost use Rattle.std.specs.Prelude.{◌≡◌, ◌++◌, OnOk, OnErr};
ghost use Rattle.mx_base.specs.Fields.{number_at, lenenc_at, lenenc};

use crate::OutOfMemory;

/// What stands where a length-encoded number is due (client/server protocol, "Protocol::LengthEncodedInteger").
#[derive(Clone, Copy, Debug)]
pub enum Field {
    /// The number, and the place behind its spelling. A longer spelling of a small number is one too.
    Value { n: u64, next: usize },
    /// The byte 0xFB, which is NULL in a text row.
    Null,
    /// The spelling runs past the end.
    Short,
    /// The byte 0xFF, which begins no number.
    Bad,
}

/// The byte at a place, None where that is past the end (client/server protocol, "Protocol::FixedLengthInteger").
pub fn get_u8(bytes: &[u8], at: usize) -> Option<u8>
    ensures { result ≡ number_at 1 at bytes.now }
{
    bytes.get(at).copied()
}

/// The little-endian number of 2 bytes at a place, None exactly where it runs past the end (client/server
/// protocol, "Protocol::FixedLengthInteger").
pub fn get_u16(bytes: &[u8], at: usize) -> Option<u16>
    ensures { result ≡ number_at 2 at bytes.now }
{
    let low = get_u8(bytes, at)?;
    let high = get_u8(bytes, at + 1)?;
    Some(low as u16 + 256 * high as u16)
}

/// The little-endian number of 3 bytes at a place, None exactly where it runs past the end (client/server
/// protocol, "Protocol::FixedLengthInteger").
pub fn get_u24(bytes: &[u8], at: usize) -> Option<u32>
    ensures { result ≡ number_at 3 at bytes.now }
{
    Some(get_u16(bytes, at)? as u32 + 65_536 * get_u8(bytes, at + 2)? as u32)
}

/// The little-endian number of 4 bytes at a place, None exactly where it runs past the end (client/server
/// protocol, "Protocol::FixedLengthInteger").
pub fn get_u32(bytes: &[u8], at: usize) -> Option<u32>
    ensures { result ≡ number_at 4 at bytes.now }
{
    Some(get_u16(bytes, at)? as u32 + 65_536 * get_u16(bytes, at + 2)? as u32)
}

/// The little-endian number of 8 bytes at a place, None exactly where it runs past the end (client/server
/// protocol, "Protocol::FixedLengthInteger").
pub fn get_u64(bytes: &[u8], at: usize) -> Option<u64>
    ensures { result ≡ number_at 8 at bytes.now }
{
    let low = get_u32(bytes, at)?;
    let high = get_u32(bytes, at + 4)?;
    Some(low as u64 + 4_294_967_296 * high as u64)
}

/// The length-encoded number at a place (client/server protocol, "Protocol::LengthEncodedInteger"): a byte below
/// 0xFB is the number; 0xFC, 0xFD and 0xFE stand before one of 2, 3 and 8 bytes. Short exactly where that runs past
/// the end, Null exactly at 0xFB, Bad exactly at 0xFF.
pub fn get_lenenc(bytes: &[u8], at: usize) -> Field
    ensures { result ≡ lenenc_at at bytes.now }
{
    match get_u8(bytes, at) {
        None => Field::Short,
        Some(0xFB) => Field::Null,
        Some(0xFC) => match get_u16(bytes, at + 1) {
            None => Field::Short,
            Some(n) => Field::Value {
                n: n as u64,
                next: at + 3,
            },
        },
        Some(0xFD) => match get_u24(bytes, at + 1) {
            None => Field::Short,
            Some(n) => Field::Value {
                n: n as u64,
                next: at + 4,
            },
        },
        Some(0xFE) => match get_u64(bytes, at + 1) {
            None => Field::Short,
            Some(n) => Field::Value { n, next: at + 9 },
        },
        Some(0xFF) => Field::Bad,
        Some(first) => Field::Value {
            n: first as u64,
            next: at + 1,
        },
    }
}

/// Appends the shortest spelling of a length-encoded number (client/server protocol,
/// "Protocol::LengthEncodedInteger"), of 1, 3, 4 or 9 bytes. OutOfMemory leaves `out` as it was.
pub fn put_lenenc(out: &mut Vec<u8>, n: u64) -> Result<(), OutOfMemory>
    ensures ok { OnOk result (out.new.items ≡ out.old.items ++ lenenc n) }
    ensures err { OnErr result (out.new.items ≡ out.old.items) }
{
    let [a, b, c, d, e, f, g, h] = n.to_le_bytes();
    match n {
        0..=250 => out.push(a)?,
        251..=0xFFFF => out.extend_from_slice(&[0xFC, a, b])?,
        0x1_0000..=0xFF_FFFF => out.extend_from_slice(&[0xFD, a, b, c])?,
        _ => out.extend_from_slice(&[0xFE, a, b, c, d, e, f, g, h])?,
    }
    Ok(())
}
