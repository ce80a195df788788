// Fields of a payload that is written.
ghost use Rattle.std.specs.Prelude.{◌≡◌, ◌++◌, flat_map, OnOk, OnErr};
ghost use Rattle.handshake.specs.Spelling.{under, IsText};

use crate::capability::has;
use mx_base::OutOfMemory;

/// What ends a text.
pub(crate) const NUL: [u8; 1] = [0];

/// Appends fields in order. OutOfMemory leaves `out` as it was.
pub(crate) fn put_fields(out: &mut Vec<u8>, fields: &[&[u8]]) -> Result<(), OutOfMemory>
    ensures ok { OnOk result (out.new.items ≡ out.old.items ++ flat_map (λ field. field.now) fields.now) }
    ensures err { OnErr result (out.new.items ≡ out.old.items) }
{
    let before = out.len();
    for field in fields {
        if out.extend_from_slice(field).is_err() {
            out.truncate(before);
            return Err(OutOfMemory);
        }
    }
    Ok(())
}

/// A field that stands under a capability alone.
pub(crate) fn under(capability: u32, capabilities: u32, field: &[u8]) -> &[u8]
    ensures { result.now ≡ under capability capabilities field.now }
{
    if has(capabilities, capability) {
        field
    } else {
        &[]
    }
}

/// A text that a NUL can end, as a field.
pub(crate) fn text_field(text: &[u8]) -> &[u8]
    requires { IsText text.now }
    ensures { result.now ≡ text.now }
{
    text
}
