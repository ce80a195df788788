// What is asked of a generated load.

/// What is asked of a generated load: the number from which its numbers are drawn, and how many clients say how many statements.
#[derive(Clone, Copy)]
pub struct LoadAsk {
    pub start: u64,
    pub clients: u64,
    pub statements: u64,
}
