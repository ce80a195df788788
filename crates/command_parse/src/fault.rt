// Why a payload is no command.
use thiserror::Error;

/// Why a payload is no command (client/server protocol, "Command Phase").
#[derive(Clone, Copy, Debug, Error)]
pub enum CommandFault {
    /// There is no byte that says which command it is.
    #[error("the command is empty")]
    Empty,
    /// The field that begins at this place of the payload, counted from 0, runs past the payload's end.
    #[error("the field at {at} runs past the end")]
    Short { at: usize },
    /// No statement that is prepared has this number.
    #[error("statement {id} isn't prepared")]
    UnknownStatement { id: u32 },
    /// An execute has parameters whose types no execute has told.
    #[error("the parameters have no types")]
    TypesMissing,
}
