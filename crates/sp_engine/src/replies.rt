//! What a command answers.
ghost use Rattle.std.specs.Prelude.{◌≡◌};
ghost use Rattle.sp_engine.specs.Replies.{is_refused};

use sp_meaning::Refusal;
use sp_model::Items;

/// The reply to a command.
#[derive(Debug, Drop)]
pub enum Reply {
    /// The file was read.
    Read {
        /// How many variables its model has.
        variables: usize,
        /// How many rows its model has, indicators aside.
        rows: usize,
    },
    /// Every listed point was found.
    Listed {
        /// The optimum, `None` where no point is feasible.
        optimum: Option<i128>,
        /// The serials of the listed points, in the list's order. The points that were found since the last accepted
        /// read count from 1.
        serials: Items<u32>,
    },
    /// The node limit stopped the run.
    Stopped {
        /// The size of its tree.
        nodes: u32,
    },
    /// The command was refused.
    Refused(Refusal),
}

impl Reply {
    /// Whether the command was refused.
    pub fn is_refused(&self) -> bool
        ensures { result ≡ is_refused self.now }
    {
        match self {
            Reply::Refused(_) => true,
            Reply::Read { .. } => false,
            Reply::Listed { .. } => false,
            Reply::Stopped { .. } => false,
        }
    }
}
