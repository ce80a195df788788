// The fields of a case, read in order, and its answer.
use crate::answer::Answer;
use crate::case::Case;
use std::alloc::Global;

/// The fields of a case, and its answer. A field that is missing or wrong is read as nothing, and is a fault of the answer.
#[derive(Drop)]
pub struct Fields<'a> {
    pub case: Case<'a>,
    pub answer: Answer,
}

impl<'a> Fields<'a> {
    /// The fields of a case of which nothing is answered.
    pub fn of(alloc: Global, case: Case<'a>) -> Self {
        Fields {
            case,
            answer: Answer::new(alloc),
        }
    }

    /// The next field, as it is written.
    pub fn text(&mut self) -> &'a str {
        match self.case.text() {
            Ok(text) => text,
            Err(fault) => {
                self.answer.fail(fault);
                ""
            }
        }
    }

    /// The next field, as a decimal number.
    pub fn number<N: TryFrom<u64> + Default + Drop>(&mut self) -> N
    where
        N::Error: Drop,
    {
        match self.case.number() {
            Ok(number) => number,
            Err(fault) => {
                self.answer.fail(fault);
                N::default()
            }
        }
    }

    /// The next field, as bytes.
    pub fn bytes(&mut self) -> Vec<u8> {
        let field = self.text();
        self.answer.spelled(field)
    }

    /// The rest of the line, as bytes.
    pub fn rest_bytes(&mut self) -> Vec<u8> {
        let field = self.case.rest_text();
        self.answer.spelled(field)
    }

    /// The rest of the line, blanks and all.
    pub fn rest_text(&mut self) -> &'a str {
        self.case.rest_text()
    }

    /// The next field, as so many bytes: a salt, or a state.
    pub fn array<const N: usize>(&mut self) -> [u8; N] {
        match <[u8; N]>::try_from(self.bytes().as_slice()) {
            Ok(bytes) => bytes,
            Err(_) => {
                self.answer.bad();
                [0; N]
            }
        }
    }
}
