// Fields of a payload, one after the other.
ghost use Rattle.std.specs.Prelude.{◌≡◌};
ghost use Rattle.handshake.specs.Reading.{nul_at};

use crate::HandFault;
use mx_base::{Field, get_u8, get_u16, get_u32};
use std::marker::Model;

/// The bytes of a payload that aren't read yet, and the place where they begin.
#[derive(Drop)]
pub(crate) struct Cursor<'a> {
    rest: &'a [u8],
    total: usize,
}

impl<'a> Model for Cursor<'a> {
    ghost use Rattle.std.specs.Prelude.{◌≤◌, ◌-◌, length};
    ghost use Rattle.handshake.specs.Reading.{Rest};

    ghost Value = { Rest };

    ghost view = { λ c. record { bytes = c.rest.now; at = c.total - length c.rest.now } };

    ghost invariant = { λ c. length c.rest.now ≤ c.total };
}

// The place of the first NUL.
fn nul_at(bytes: &[u8]) -> Option<usize>
    ensures { result ≡ nul_at bytes.now }
{
    bytes.iter().position(|b| *b == 0)
}

impl<'a> Cursor<'a> {
    ghost use Rattle.std.specs.Prelude.{◌≡◌, ◌≤◌, length, Ok, Err, IfOk, MatchResult};
    ghost use Rattle.handshake.specs.Reading.{Rest, start, after, Takes, number_field, bytes_field, text_field, last_text, counted_field, optional_text};
    ghost use Rattle.std.specs.Option.{option_copied};

    /// Before the first field.
    pub fn new(payload: &'a [u8]) -> Self
        ensures { result ≡ start payload.now }
    {
        Cursor {
            rest: payload,
            total: payload.len(),
        }
    }

    fn short(&self) -> HandFault
        ensures { result ≡ HandFault.Short self.now.at }
    {
        HandFault::Short {
            at: self.total - self.rest.len(),
        }
    }

    fn pass(&mut self, n: usize)
        requires { n ≤ length self.old.bytes }
        ensures { self.new ≡ after n self.old }
    {
        self.rest = &self.rest[n..];
    }

    /// A number of one byte.
    #[tactic(auto, unfolding(crate::specs::Reading::number_field))]
    pub fn take_u8(&mut self) -> Result<u8, HandFault>
        ensures { Takes result self.new (number_field 1 self.old) }
    {
        let Some(n) = get_u8(self.rest, 0) else {
            return Err(self.short());
        };
        self.pass(1);
        Ok(n)
    }

    /// A number of two bytes.
    #[tactic(auto, unfolding(crate::specs::Reading::number_field))]
    pub fn take_u16(&mut self) -> Result<u16, HandFault>
        ensures { Takes result self.new (number_field 2 self.old) }
    {
        let Some(n) = get_u16(self.rest, 0) else {
            return Err(self.short());
        };
        self.pass(2);
        Ok(n)
    }

    /// A number of four bytes.
    #[tactic(auto, unfolding(crate::specs::Reading::number_field))]
    pub fn take_u32(&mut self) -> Result<u32, HandFault>
        ensures { Takes result self.new (number_field 4 self.old) }
    {
        let Some(n) = get_u32(self.rest, 0) else {
            return Err(self.short());
        };
        self.pass(4);
        Ok(n)
    }

    /// So many bytes.
    #[tactic(auto, unfolding(crate::specs::Reading::bytes_field))]
    pub fn take_bytes(&mut self, n: usize) -> Result<&'a [u8], HandFault>
        ensures field { MatchResult result (λ bytes. bytes_field n self.old ≡ Ok (bytes.now, self.new)) (λ fault. bytes_field n self.old ≡ Err fault) }
        ensures long { IfOk result (λ bytes. length bytes.now ≡ n) }
    {
        if self.rest.len() < n {
            return Err(self.short());
        }
        let bytes = &self.rest[..n];
        self.pass(n);
        Ok(bytes)
    }

    /// A text that a NUL ends.
    #[tactic(auto, unfolding(crate::specs::Reading::text_field))]
    pub fn take_text(&mut self) -> Result<&'a [u8], HandFault>
        ensures { MatchResult result (λ text. text_field self.old ≡ Ok (text.now, self.new)) (λ fault. text_field self.old ≡ Err fault) }
    {
        let Some(end) = nul_at(self.rest) else {
            return Err(self.short());
        };
        let text = &self.rest[..end];
        self.pass(end + 1);
        Ok(text)
    }

    /// A text that a NUL or the payload's end ends, as the last field.
    #[tactic(auto, unfolding(crate::specs::Reading::last_text))]
    pub fn last_text(&self) -> &'a [u8]
        ensures { result.now ≡ last_text self.now }
    {
        match nul_at(self.rest) {
            Some(end) => &self.rest[..end],
            None => self.rest,
        }
    }

    /// The bytes that aren't read yet.
    pub fn rest(&self) -> &'a [u8]
        ensures { result.now ≡ self.now.bytes }
    {
        self.rest
    }

    /// Bytes behind their number, as it was read at the place of the cursor.
    #[tactic(auto, unfolding(crate::specs::Reading::counted_field))]
    pub fn take_counted(&mut self, number: Field) -> Result<&'a [u8], HandFault>
        ensures { MatchResult result (λ bytes. counted_field number self.old ≡ Ok (bytes.now, self.new)) (λ fault. counted_field number self.old ≡ Err fault) }
    {
        let Field::Value { n, next } = number else {
            return Err(self.short());
        };
        let left = self.rest.len();
        if left < next || ((left - next) as u64) < n {
            return Err(self.short());
        }
        let end = next + n as usize;
        let bytes = &self.rest[next..end];
        self.pass(end);
        Ok(bytes)
    }

    /// A text that is there or not. The last field may end with the payload.
    #[tactic(auto, unfolding(crate::specs::Reading::optional_text))]
    pub fn take_optional_text(
        &mut self,
        there: bool,
        last: bool,
    ) -> Result<Option<&'a [u8]>, HandFault>
        ensures { MatchResult result (λ text. optional_text there last self.old ≡ Ok (option_copied text, self.new)) (λ fault. optional_text there last self.old ≡ Err fault) }
    {
        if !there {
            return Ok(None);
        }
        if last {
            return Ok(Some(self.last_text()));
        }
        Ok(Some(self.take_text()?))
    }
}
