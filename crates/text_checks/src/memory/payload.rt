// What stands in payloads.
use check_lines::Answer;
use mx_base::{Field, get_lenenc};

/// What isn't read yet of a payload. What is missing is read as nothing, and is a fault of the answer.
#[derive(Clone, Copy)]
pub struct Payload<'a> {
    pub rest: &'a [u8],
}

impl<'a> Payload<'a> {
    /// The next bytes, so many.
    pub fn bytes(&mut self, answer: &mut Answer, count: usize) -> &'a [u8] {
        match self.rest.split_at_checked(count) {
            Some((bytes, rest)) => {
                self.rest = rest;
                bytes
            }
            None => {
                answer.bad();
                b""
            }
        }
    }

    /// The next two bytes, as a number.
    pub fn short(&mut self, answer: &mut Answer) -> u16 {
        match self.bytes(answer, 2) {
            [low, high] => u16::from_le_bytes([*low, *high]),
            _ => 0,
        }
    }

    /// A length-encoded number.
    pub fn number(&mut self, answer: &mut Answer) -> u64 {
        match get_lenenc(self.rest, 0) {
            Field::Value { n, next } => {
                self.bytes(answer, next);
                n
            }
            _ => {
                answer.bad();
                0
            }
        }
    }

    /// A length-encoded text (client/server protocol, "Protocol::LengthEncodedString").
    pub fn text(&mut self, answer: &mut Answer) -> &'a [u8] {
        let count = self.number(answer);
        self.bytes(answer, count as usize)
    }

    /// All is read.
    pub fn end(&self, answer: &mut Answer) {
        if !self.rest.is_empty() {
            answer.bad();
        }
    }
}
