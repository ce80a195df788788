// Bytes that are read.
ghost use Rattle.std.specs.Prelude.{◌<◌, length};
ghost use Rattle.scripted_wire.specs.Giving.{ReadsFrom};

/// Moves a front of the bytes to the front of `into`, as many as fit.
pub(crate) fn give(bytes: &[u8], into: &mut [u8]) -> usize
    requires some { 0 < length bytes.now }
    requires room { 0 < length into.old }
    ensures { ReadsFrom bytes.now into.old into.new result }
{
    let n = into.len().min(bytes.len());
    into[..n].copy_from_slice(&bytes[..n]);
    n
}
