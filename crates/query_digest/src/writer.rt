// A digest that is being written.
ghost use Rattle.std.specs.Prelude.{◌≡◌, ◌++◌, ◌∷◌, [], List, OnOk, IfOk, None, if◌then◌else◌};
ghost use Rattle.query_digest.specs.Parts.{Spaced, folded, spelled};
ghost use Rattle.query_digest.specs.Writing.{part_of, held_parts, grown};

use mx_base::OutOfMemory;
use std::alloc::Global;

// What stands in a digest for a token.
#[derive(Clone, Copy)]
pub(crate) enum Piece<'a> {
    Value,
    Comma,
    Other(&'a [u8]),
}

// A value or a list of them, and maybe a comma behind it, that isn't written yet, since more of the list may come. The
// flags say whether a blank stands before the value and before the comma.
#[derive(Clone, Copy)]
pub(crate) struct Held {
    pub apart: bool,
    pub many: bool,
    pub comma: Option<bool>,
}

#[derive(Drop)]
pub(crate) struct Writer {
    pub out: Vec<u8>,
    pub held: Option<Held>,
}

// What is held once a piece behind it belongs to it: a comma behind values, and a value behind that comma.
fn grown(held: Option<Held>, apart: bool, piece: Piece) -> Option<Held>
    ensures { result ≡ grown held apart (part_of piece.entry) }
{
    let held = held?;
    match (held.comma, piece) {
        (None, Piece::Comma) => Some(Held {
            comma: Some(apart),
            ..held
        }),
        (Some(_), Piece::Value) => Some(Held {
            many: true,
            comma: None,
            ..held
        }),
        _ => None,
    }
}

// Writes a blank where there is one, and the bytes.
fn write_bytes(out: &mut Vec<u8>, apart: bool, bytes: &[u8]) -> Result<(), OutOfMemory>
    ensures { OnOk result (out.new.items ≡ out.old.items ++ ((if apart then 32 ∷ [] else []) ++ bytes.now)) }
{
    if apart {
        out.push(b' ')?;
    }
    out.extend_from_slice(bytes)?;
    Ok(())
}

impl Writer {
    pub(crate) fn new(alloc: Global, room: usize) -> Result<Self, OutOfMemory>
        ensures out { IfOk result (λ writer. writer.out.items ≡ []) }
        ensures held { IfOk result (λ writer. writer.held ≡ None) }
    {
        Ok(Writer {
            out: Vec::with_capacity(alloc, room)?,
            held: None,
        })
    }

    // Writes what is held back.
    pub(crate) fn release(&mut self) -> Result<(), OutOfMemory>
        ensures out { OnOk result (self.new.out.items ≡ self.old.out.items ++ spelled (held_parts self.old.held)) }
        ensures held { OnOk result (self.new.held ≡ None) }
    {
        if let Some(held) = self.held {
            let values: &[u8] = if held.many { b"?,..." } else { b"?" };
            write_bytes(&mut self.out, held.apart, values)?;
            if let Some(apart) = held.comma {
                write_bytes(&mut self.out, apart, b",")?;
            }
        }
        self.held = None;
        Ok(())
    }

    // Takes the next piece. Whatever parts follow it, the digest is the same as before.
    pub(crate) fn put(&mut self, apart: bool, piece: Piece) -> Result<(), OutOfMemory>
        ensures { OnOk result ((rest : List Spaced) → self.new.out.items ++ spelled (folded (held_parts self.new.held ++ rest)) ≡ self.old.out.items ++ spelled (folded (held_parts self.old.held ++ (record { apart = apart; part = part_of piece.entry } ∷ rest)))) }
    {
        if let Some(held) = grown(self.held, apart, piece) {
            self.held = Some(held);
            return Ok(());
        }
        self.release()?;
        self.begin(apart, piece)
    }

    // Takes a piece where nothing is held back.
    fn begin(&mut self, apart: bool, piece: Piece) -> Result<(), OutOfMemory>
        requires { self.old.held ≡ None }
        ensures { OnOk result ((rest : List Spaced) → self.new.out.items ++ spelled (folded (held_parts self.new.held ++ rest)) ≡ self.old.out.items ++ spelled (folded (record { apart = apart; part = part_of piece.entry } ∷ rest))) }
    {
        match piece {
            Piece::Value => {
                self.held = Some(Held {
                    apart,
                    many: false,
                    comma: None,
                });
                Ok(())
            }
            Piece::Comma => write_bytes(&mut self.out, apart, b","),
            Piece::Other(bytes) => write_bytes(&mut self.out, apart, bytes),
        }
    }
}
