// The parts of a transcript's lines.
ghost use Rattle.std.specs.Prelude.{◌≡◌, ◌++◌, OnOk, decimal, codes};
ghost use Rattle.hex.specs.Hex.{encode_lower};
ghost use Rattle.recording.specs.Transcript.{numbered, tag_text, same_tag};

use itoa::Buffer;
use mx_base::{Bytes, ClientNo, OutOfMemory, Tag};
use std::alloc::Global;

pub(crate) fn put_decimal(out: &mut Bytes, n: u64) -> Result<(), OutOfMemory>
    ensures { OnOk result (out.new ≡ out.old ++ decimal n) }
{
    let mut buffer = Buffer::new();
    out.append(buffer.format(n).as_bytes())
}

pub(crate) fn put_hex(alloc: Global, out: &mut Bytes, bytes: &[u8]) -> Result<(), OutOfMemory>
    ensures { OnOk result (out.new ≡ out.old ++ encode_lower bytes.now) }
{
    let text = hex::encode(alloc, bytes)?;
    out.append(text.as_bytes())
}

// A word, and behind it a client's message, or a client's session of a hostgroup.
fn put_numbered(out: &mut Bytes, word: &[u8], client: ClientNo, n: u64) -> Result<(), OutOfMemory>
    ensures { OnOk result (out.new ≡ out.old ++ (word.now ++ numbered client n)) }
{
    out.append(word)?;
    out.append(b"c")?;
    put_decimal(out, client.0)?;
    out.append(b"/")?;
    put_decimal(out, n)
}

#[tactic(auto, unfolding(crate::specs::Transcript::tag_text))]
pub(crate) fn put_tag(out: &mut Bytes, tag: Tag) -> Result<(), OutOfMemory>
    ensures { OnOk result (out.new ≡ out.old ++ tag_text tag) }
{
    match tag {
        Tag::For { client, ordinal } => put_numbered(out, b"for ", client, ordinal),
        Tag::Sync { client, hostgroup } => {
            put_numbered(out, b"sync ", client, u64::from(hostgroup.0))
        }
        Tag::Prep { client, ordinal } => put_numbered(out, b"prep ", client, ordinal),
        Tag::Mirror { client, ordinal } => put_numbered(out, b"mirror ", client, ordinal),
        Tag::End { client, hostgroup } => {
            put_numbered(out, b"end ", client, u64::from(hostgroup.0))
        }
        Tag::Own => out.append(b"own"),
        Tag::Reply => out.append(b"reply"),
    }
}

#[tactic(auto, unfolding(crate::specs::Transcript::same_tag))]
pub(crate) fn is_same(a: Tag, b: Tag) -> bool
    ensures { result ≡ same_tag a b }
{
    a == b
}
