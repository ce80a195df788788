// A client that sends much at once, over a machine of the case's own.
ghost use Rattle.std.specs.Prelude.{None, Some, [], ◌∷◌, replicate, true, false};
ghost use Rattle.mx_base.specs.declared.tag.Tag.TheVariants as tag;

use crate::bare_wire::BareWire;
use check_lines::Fields;
use mx_base::{Address, LinkId, OutOfMemory, Piece, Port, Tag};
use ready_loop::{Act, Event, Machine, ServeEnd, serve};

const GREETING: &[u8] = &[7];

// Reads each link, has a greeting for it, and asks for nothing.
#[derive(Drop)]
struct Reader;

impl Machine for Reader {
    ghost stands = { λ _ _. Unit {0} };

    ghost sends = { λ _ _. Some (record { tag = tag.Reply; bytes = 7 ∷ [] }) };

    ghost reads = { λ _ _. true };

    ghost until = { λ _. 0 };

    ghost awaits = { λ _. None };

    ghost is_stopped = { λ _. false };

    ghost changed = { λ _ _. false };

    ghost unnamed = { λ _. 0 };

    ghost address_of = { λ _ _. record { ip = replicate 4 0; port = 0 } };

    ghost most = { λ _. 4 };

    ghost Service = { Unit {0} };

    ghost serves_by = { λ _. tt };

    ghost owes = { λ _ _ _ _. Unit {0} };

    fn take(&mut self, _: Event, _: &mut [u8]) -> Result<(), OutOfMemory> {
        Ok(())
    }

    fn next_act(&mut self) -> Option<Act> {
        None
    }

    fn next_changed(&mut self) -> Option<LinkId> {
        None
    }

    fn outgoing(&self, _: LinkId) -> Option<Piece<'_>> {
        Some(Piece {
            tag: Tag::Reply,
            bytes: GREETING,
        })
    }

    fn taken(&mut self, _: LinkId, _: usize) {}

    fn wants_read(&self, _: LinkId) -> bool {
        true
    }

    fn until_ms(&self) -> u64 {
        0
    }

    fn stopped(&self) -> bool {
        false
    }

    fn address(&self, _: Port) -> Address {
        Address {
            ip: [0; 4],
            port: 0,
        }
    }

    fn most_links(&self) -> u32 {
        4
    }

    fn quiet() {}

    fn lends() {}
}

/// `flood <bytes>` lets one client send so many bytes at one wake. The answer is the sizes of the first four reads, 7 for one that isn't
/// made, and whether a write was offered.
pub fn answer(fields: &mut Fields<'_>) {
    let mut wire = BareWire::with_bytes(fields.number());
    match serve(fields.answer.alloc(), &mut Reader, &mut wire, 5) {
        ServeEnd::Over => {
            fields.answer.debug(wire.sizes);
            fields.answer.text(" ");
            fields.answer.display(wire.is_offered);
        }
        _ => fields.answer.bad(),
    }
}
