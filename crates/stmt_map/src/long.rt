// Long data of a statement.
ghost use Rattle.std.specs.Prelude.{◌≡◌, ◌<◌, ◌≤◌, OnOk, OnErr, length, slice_get};
ghost use Rattle.stmt_map.specs.Long.{grown, grown_at, long_with, no_long, place_of};

use mx_base::{Bytes, OutOfMemory};
use session_vars::LongPart;
use std::alloc::Global;
use std::marker::Model;

/// Why long data isn't kept.
#[derive(Debug, Drop)]
pub enum LongFault {
    /// The statement would have more of it than it may.
    TooLong,
    OutOfMemory,
}

impl From<OutOfMemory> for LongFault {
    ghost use Rattle.std.specs.Prelude.{◌≡◌};
    ghost use Rattle.stmt_map.specs.declared.long.LongFault.TheVariants as faults;

    ghost from_gives = { λ _ fault. fault ≡ faults.OutOfMemory };

    fn from(_error: OutOfMemory) -> Self {
        LongFault::OutOfMemory
    }
}

/// The long data of a statement (client/server protocol, "COM_STMT_SEND_LONG_DATA"): one part for each parameter that has some, in the
/// order in which they came first; and how many bytes came.
#[derive(Drop)]
pub struct LongData {
    parts: Vec<LongPart>,
    size: u64,
}

impl Model for LongData {
    ghost use Rattle.stmt_map.specs.Long.{Long};

    ghost Value = { Long };

    ghost view = { λ d. record { parts = d.parts.items; size = d.size } };
}

impl LongData {
    /// None.
    pub fn new(alloc: Global) -> Self
        ensures { result ≡ no_long }
    {
        LongData {
            parts: Vec::new(alloc),
            size: 0,
        }
    }

    /// The parts.
    pub fn parts(&self) -> &[LongPart]
        ensures { result.now ≡ self.now.parts }
    {
        &self.parts
    }

    /// How many bytes they have.
    pub fn size(&self) -> u64
        ensures { result ≡ self.now.size }
    {
        self.size
    }

    /// The parts, taken out. Takes no memory.
    pub fn into_parts(self) -> Vec<LongPart>
        ensures { result.items ≡ self.parts }
    {
        self.parts
    }

    /// Appends bytes to a parameter's part. `most` is how many bytes there may be of all parameters.
    pub fn append(
        &mut self,
        alloc: Global,
        parameter: u16,
        bytes: &[u8],
        most: u64,
    ) -> Result<(), LongFault>
        ensures ok { OnOk result (self.new ≡ grown self.old parameter bytes.now) }
        ensures within { OnOk result (self.new.size ≤ most) }
        ensures err { OnErr result (self.new ≡ self.old) }
    {
        let size = match self.size.checked_add(bytes.len() as u64) {
            Some(size) if size <= most => size,
            _ => return Err(LongFault::TooLong),
        };
        append_part(alloc, &mut self.parts, parameter, bytes)?;
        self.size = size;
        Ok(())
    }
}

fn place_of(parts: &[LongPart], parameter: u16) -> Option<usize>
    ensures { result ≡ place_of parts.now parameter }
{
    parts.iter().position(|part| part.parameter == parameter)
}

fn append_part(
    alloc: Global,
    parts: &mut Vec<LongPart>,
    parameter: u16,
    bytes: &[u8],
) -> Result<(), OutOfMemory>
    ensures ok { OnOk result (parts.new.items ≡ long_with parts.old.items parameter bytes.now) }
    ensures err { OnErr result (parts.new.items ≡ parts.old.items) }
{
    match place_of(parts, parameter) {
        Some(place) => append_at(parts, place, bytes),
        None => {
            let bytes = Bytes::from_slice(alloc, bytes)?;
            parts.push(LongPart { parameter, bytes })?;
            Ok(())
        }
    }
}

fn append_at(parts: &mut Vec<LongPart>, place: usize, bytes: &[u8]) -> Result<(), OutOfMemory>
    requires { place < length parts.old.items }
    ensures ok { OnOk result (parts.new.items ≡ grown_at parts.old.items place bytes.now (slice_get parts.old.items place)) }
    ensures err { OnErr result (parts.new.items ≡ parts.old.items) }
{
    parts[place].bytes.append(bytes)?;
    Ok(())
}
