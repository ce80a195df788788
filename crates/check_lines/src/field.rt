// Bytes as a field spells them.
ghost use Rattle.std.specs.Prelude.{◌≡◌, ◌≤◌, ◌+◌, length, vec_len, OnOk, IfOk};

use crate::fault::CaseFault;
use std::alloc::Global;

/// The most bytes that a field may spell: 64 MiB.
pub const MOST_BYTES: usize = 67_108_864;

/// The bytes that a field spells: those of its text, or behind `hex:` those of pieces that are joined by `+`, each of hex
/// digits, `<hex>`, or of hex digits so many times, `<hex>*<count>`. Bad where a piece is neither, and past MOST_BYTES.
pub fn bytes_of(alloc: Global, field: &str) -> Result<Vec<u8>, CaseFault>
    ensures { IfOk result (λ bytes. vec_len bytes ≤ MOST_BYTES) }
{
    let mut bytes = Vec::new(alloc);
    append_field(&mut bytes, alloc, field)?;
    Ok(bytes)
}

// Appends what a field spells.
fn append_field(bytes: &mut Vec<u8>, alloc: Global, field: &str) -> Result<(), CaseFault>
    requires { vec_len bytes.old ≤ MOST_BYTES }
    ensures { vec_len bytes.new ≤ MOST_BYTES }
{
    match field.strip_prefix("hex:") {
        Some(pieces) => append_pieces(bytes, alloc, pieces),
        None => append_times(bytes, field.as_bytes(), 1),
    }
}

fn append_pieces(bytes: &mut Vec<u8>, alloc: Global, pieces: &str) -> Result<(), CaseFault>
    requires { vec_len bytes.old ≤ MOST_BYTES }
    ensures { vec_len bytes.new ≤ MOST_BYTES }
{
    for piece in pieces.split('+') {
        append_piece(bytes, alloc, piece)?;
    }
    Ok(())
}

// Appends what a piece spells.
fn append_piece(bytes: &mut Vec<u8>, alloc: Global, piece: &str) -> Result<(), CaseFault>
    requires { vec_len bytes.old ≤ MOST_BYTES }
    ensures { vec_len bytes.new ≤ MOST_BYTES }
{
    let (digits, count) = piece.split_once('*').unwrap_or((piece, "1"));
    let Ok(count) = count.parse() else {
        return Err(CaseFault::Bad);
    };
    match hex::decode(alloc, digits) {
        Ok(once) => append_times(bytes, &once, count),
        Err(_) => Err(CaseFault::Bad),
    }
}

// Appends bytes so many times, or some of them where they are too many.
fn append_times(bytes: &mut Vec<u8>, once: &[u8], count: usize) -> Result<(), CaseFault>
    requires { vec_len bytes.old ≤ MOST_BYTES }
    ensures { vec_len bytes.new ≤ MOST_BYTES }
{
    if count > MOST_BYTES {
        return Err(CaseFault::Bad);
    }
    for _ in 0..count {
        if once.len() > MOST_BYTES - bytes.len() {
            return Err(CaseFault::Bad);
        }
        bytes.extend_from_slice(once)?;
    }
    Ok(())
}
