// The fields of a case.
ghost use Rattle.std.specs.Prelude.{◌≡◌, ◌↔◌, ◌∷◌, [], IsTrue, IfOk, OnOk, OnErr, IsErr};
ghost use Rattle.check_lines.specs.Words.{first_word, behind_word};

use crate::fault::CaseFault;

/// A case: the name of its reader, and the fields that aren't read yet. One blank stands before each field.
#[derive(Clone, Copy)]
pub struct Case<'a> {
    pub reader: &'a str,
    pub rest: &'a str,
}

// The first word of a text, and what stands behind the blank after it.
fn split_word(text: &str) -> (&str, &str)
    ensures word { result.0.now ≡ first_word text.now }
    ensures rest { result.1.now ≡ behind_word text.now }
{
    match text.split_once(' ') {
        Some(parts) => parts,
        None => (text, ""),
    }
}

// A decimal number of this type.
fn number_of<N: TryFrom<u64> + Drop>(text: &str) -> Option<N>
where
    N::Error: Drop,
{
    let number = text.parse::<u64>().ok()?;
    N::try_from(number).ok()
}

impl<'a> Case<'a> {
    /// The case of a line.
    pub fn of(line: &'a str) -> Self
        ensures reader { result.reader.now ≡ first_word line.now }
        ensures rest { result.rest.now ≡ behind_word line.now }
    {
        let (reader, rest) = split_word(line);
        Case { reader, rest }
    }

    /// Whether no field is left.
    pub fn is_done(&self) -> bool
        ensures { IsTrue result ↔ (self.now.rest.now ≡ []) }
    {
        self.rest.is_empty()
    }

    /// The next field, as it is written. Bad exactly where none is left.
    pub fn text(&mut self) -> Result<&'a str, CaseFault>
        ensures missing { IsErr result ↔ (self.old.rest.now ≡ []) }
        ensures field { IfOk result (λ field. field.now ≡ first_word self.old.rest.now) }
        ensures rest { OnOk result (self.new.rest.now ≡ behind_word self.old.rest.now) }
    {
        if self.rest.is_empty() {
            return Err(CaseFault::Bad);
        }
        let (field, rest) = split_word(self.rest);
        self.rest = rest;
        Ok(field)
    }

    /// The next field, as a decimal number. Bad where it is none, or none of this type.
    pub fn number<N: TryFrom<u64> + Drop>(&mut self) -> Result<N, CaseFault>
    where
        N::Error: Drop,
    {
        match self.text() {
            Ok(text) => number_of(text).ok_or(CaseFault::Bad),
            Err(fault) => Err(fault),
        }
    }

    /// The rest of the line, blanks and all, of a reader whose last field is a text. It may be empty.
    pub fn rest_text(&mut self) -> &'a str
        ensures text { result.now ≡ self.old.rest.now }
        ensures rest { self.new.rest.now ≡ [] }
    {
        let rest = self.rest;
        self.rest = "";
        rest
    }
}
