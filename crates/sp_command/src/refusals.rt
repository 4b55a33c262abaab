//! Why a line is no command.

use thiserror::Error;

/// Why a line isn't taken as a command.
#[derive(Clone, Copy, PartialEq, Eq, Debug, Error)]
pub enum CommandRefusal {
    /// The line has more than 4,096 bytes.
    #[error("long line")]
    LongLine,
    /// Its first word is no command.
    #[error("unknown command")]
    UnknownCommand,
    /// Its other words aren't what the command takes.
    #[error("bad argument")]
    BadArgument,
    /// There was no memory left.
    #[error("no memory")]
    NoMemory,
}
