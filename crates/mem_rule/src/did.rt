// What statements say and do.
use crate::{Answer, Form, Notes};
use mx_base::Bytes;

/// What a statement does that changes neither schema nor settings: to the data, as notes, and to the session; and what it
/// answers.
#[derive(Drop)]
pub struct Did {
    pub writes: Notes,
    pub tx: Bytes,
    pub locks: Bytes,
    pub deep: Bytes,
    pub last_id: u64,
    pub answer: Answer,
}

/// A statement: its form, and the values in it.
#[derive(Drop)]
pub struct Said {
    pub form: Form,
    pub id: u64,
    pub name: Bytes,
    pub text: Bytes,
}
