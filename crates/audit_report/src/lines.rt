// The lines of a file.
ghost use Rattle.std.specs.Prelude.{◌≡◌, ◌≢◌, ◌∷◌, [], ◌<◌, length, IfOk};
ghost use Rattle.audit_report.specs.Lines.{lines_of};

use memchr::memchr;
use mx_base::{Bytes, OutOfMemory};
use std::alloc::Global;

// The first line of a text that isn't empty, and what is behind it.
fn first_line(text: &[u8]) -> (&[u8], &[u8])
    requires { text.now ≢ [] }
    ensures lines { lines_of text.now ≡ result.0.now ∷ lines_of result.1.now }
    ensures shorter { length result.1.now < length text.now }
{
    match memchr(b'\n', text) {
        Some(at) => (&text[..at], &text[at + 1..]),
        None => (text, &[]),
    }
}

/// The lines of a file. Each ends with a line feed, which isn't part of it; the last one may end with the file.
pub fn lines_of(alloc: Global, file: &[u8]) -> Result<Vec<Bytes>, OutOfMemory>
    ensures { IfOk result (λ lines. lines.items ≡ lines_of file.now) }
{
    let mut lines = Vec::new(alloc);
    let mut rest = file;
    while !rest.is_empty() {
        let (line, behind) = first_line(rest);
        lines.push(Bytes::from_slice(alloc, line)?)?;
        rest = behind;
    }
    Ok(lines)
}
