// An answer as it is written.
use crate::fault::CaseFault;
use crate::field::bytes_of;
use mx_base::OutOfMemory;
use std::alloc::Global;
use std::fmt;
use std::str::FromStr;

/// The most bytes that are shown whole.
const MOST_SHOWN: usize = 1_024;

/// How many bytes of a longer list are shown at each end.
const AT_THE_ENDS: usize = 8;

/// The answer to a case as it is written. The first fault is kept, and what is written beside one doesn't count: so nothing that
/// is written has to say whether it was.
#[derive(Drop)]
pub struct Answer {
    alloc: Global,
    text: String,
    fault: Option<CaseFault>,
}

impl Answer {
    /// An answer of which nothing is written.
    pub fn new(alloc: Global) -> Self {
        Answer {
            alloc,
            text: String::new(alloc),
            fault: None,
        }
    }

    /// What is written, or the first fault.
    pub fn finished(self) -> Result<String, CaseFault> {
        match self.fault {
            Some(fault) => Err(fault),
            None => Ok(self.text),
        }
    }

    /// Where its memory is from.
    pub fn alloc(&self) -> Global {
        self.alloc
    }

    /// How many bytes are written.
    pub fn len(&self) -> usize {
        self.text.len()
    }

    /// Keeps a fault, unless there is one.
    pub fn fail(&mut self, fault: CaseFault) {
        if self.fault.is_none() {
            self.fault = Some(fault);
        }
    }

    /// The case can't be answered.
    pub fn bad(&mut self) {
        self.fail(CaseFault::Bad);
    }

    /// Memory was refused.
    pub fn refused(&mut self) {
        self.fail(CaseFault::OutOfMemory);
    }

    /// Something was done, unless memory was refused.
    pub fn done(&mut self, done: Result<(), OutOfMemory>) {
        if done.is_err() {
            self.refused();
        }
    }

    /// Appends a text.
    pub fn text(&mut self, text: &str) {
        if self.text.push_str(text).is_err() {
            self.refused();
        }
    }

    /// Appends a value by its Debug.
    pub fn debug<D: fmt::Debug + Drop>(&mut self, value: D) {
        if write!(self.text, "{value:?}").is_err() {
            self.refused();
        }
    }

    /// Appends a value by its Display.
    pub fn display<D: fmt::Display + Drop>(&mut self, value: D) {
        if write!(self.text, "{value}").is_err() {
            self.refused();
        }
    }

    /// Appends what stands between the parts of a list that begins at this length, but before its first.
    pub fn separate(&mut self, start: usize, between: &str) {
        if self.text.len() > start {
            self.text(between);
        }
    }

    /// Appends the hex digits of bytes.
    pub fn digits(&mut self, bytes: &[u8]) {
        match hex::encode(self.alloc, bytes) {
            Ok(digits) => self.text(&digits),
            Err(_) => self.refused(),
        }
    }

    /// Appends bytes: `hex:` and their digits. Of more than 1,024 how many there are, and the first 8 and the last 8:
    /// `<count> bytes <first>..<last>`.
    pub fn bytes(&mut self, bytes: &[u8]) {
        let count = bytes.len();
        if count <= MOST_SHOWN {
            self.text("hex:");
            self.digits(bytes);
        } else {
            self.display(count);
            self.text(" bytes ");
            self.digits(&bytes[..AT_THE_ENDS]);
            self.text("..");
            self.digits(&bytes[count - AT_THE_ENDS..]);
        }
    }

    /// The bytes that a text spells (`bytes_of`), or none and the fault.
    pub fn spelled(&mut self, field: &str) -> Vec<u8> {
        match bytes_of(self.alloc, field) {
            Ok(bytes) => bytes,
            Err(fault) => {
                self.fail(fault);
                Vec::new(self.alloc)
            }
        }
    }

    /// The value that a text spells, or the default and the fault.
    pub fn parsed<T: FromStr + Default + Drop>(&mut self, text: &str) -> T
    where
        T::Err: Drop,
    {
        match text.parse() {
            Ok(value) => value,
            Err(_) => {
                self.bad();
                T::default()
            }
        }
    }

    /// A text in which each such part is replaced, or none and the fault.
    pub fn replaced(&mut self, text: &str, part: &str, by: &str) -> String {
        match text.replace(self.alloc, part, by) {
            Ok(text) => text,
            Err(_) => {
                self.refused();
                String::new(self.alloc)
            }
        }
    }

    /// A value so many times, or not at all and the fault.
    pub fn repeated<T: Copy>(&mut self, value: T, count: usize) -> Vec<T> {
        match vec![in self.alloc; value; count] {
            Ok(values) => values,
            Err(_) => {
                self.refused();
                Vec::new(self.alloc)
            }
        }
    }

    /// Appends a value to a list, unless memory is refused.
    pub fn keep<T: Drop>(&mut self, list: &mut Vec<T>, value: T) {
        if list.push(value).is_err() {
            self.refused();
        }
    }

    /// What another answer says, or nothing and its fault.
    pub fn told(&mut self, other: Answer) -> String {
        match other.finished() {
            Ok(text) => text,
            Err(fault) => {
                self.fail(fault);
                String::new(self.alloc)
            }
        }
    }
}
