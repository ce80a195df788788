// Hashes as a row of the configuration has them.
ghost use Rattle.std.specs.Prelude.{◌≡◌, ◌++◌, IfOk, OnOk};
ghost use Rattle.sql_whitelist.specs.Text.{digests_line, quoted, hashes_text};

use mx_base::{Bytes, OutOfMemory};
use std::alloc::Global;

// Appends a hash in double quotes.
#[tactic(auto, unfolding(crate::specs::Text::quoted))]
fn write_hash(alloc: Global, out: &mut Bytes, hash: u64) -> Result<(), OutOfMemory>
    ensures { OnOk result (out.new ≡ out.old ++ quoted hash) }
{
    let text = hex::encode(alloc, hash.to_be_bytes())?;
    out.append(b"\"")?;
    out.append(text.as_bytes())?;
    out.append(b"\"")
}

// Appends hashes with `, ` between them.
fn write_hashes(alloc: Global, out: &mut Bytes, hashes: &[u64]) -> Result<(), OutOfMemory>
    ensures { OnOk result (out.new ≡ out.old ++ hashes_text hashes.now) }
{
    let [first, rest @ ..] = hashes else {
        return Ok(());
    };
    write_hash(alloc, out, *first)?;
    for hash in rest {
        out.append(b", ")?;
        write_hash(alloc, out, *hash)?;
    }
    Ok(())
}

/// The key `digests` of a row with these hashes: `digests = ["<hash>", ..]`, each hash as 16 hexadecimal digits in lower
/// case, the highest first, and a line feed.
pub fn digests_line(alloc: Global, hashes: &[u64]) -> Result<Bytes, OutOfMemory>
    ensures { IfOk result (λ line. line ≡ digests_line hashes.now) }
{
    let mut line = Bytes::from_slice(alloc, b"digests = [")?;
    write_hashes(alloc, &mut line, hashes)?;
    line.append(b"]\n")?;
    Ok(line)
}
