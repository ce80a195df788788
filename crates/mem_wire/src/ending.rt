// How a link ends.

/// How a link ends behind its bytes: reads answer End, or reads and writes answer Failed.
#[derive(Clone, Copy)]
pub(crate) enum Ending {
    End,
    Fail,
}
