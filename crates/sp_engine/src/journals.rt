//! What a run asked of the outside and what it found, in order.
use sp_base::Text;
use sp_model::{Items, Point};

/// What a run noted, in the order in which it happened.
#[derive(Debug, Drop)]
pub struct Journal {
    /// The notes, the first one first.
    pub entries: Items<Entry>,
}

/// One note of a journal.
#[derive(Debug, Drop)]
pub enum Entry {
    /// The shelf was asked for a file.
    Fetched(FetchNote),
    /// The shelf was given a file.
    Stored(StoreNote),
    /// A feasible point was found.
    Found(Point),
    /// A run ended.
    Ended {
        /// Why it ended.
        end: RunEnd,
        /// The size of its tree.
        nodes: u32,
    },
}

/// What a shelf answered to a read, but for want of memory.
#[derive(Debug, Drop)]
pub enum FetchNote {
    /// The file's bytes.
    Bytes(Text),
    /// There is no such file.
    Absent,
    /// The file is longer than the limit.
    TooLong,
    /// The read failed.
    Failed,
}

/// What a shelf answered to a write, but for want of memory.
#[derive(Clone, Copy, PartialEq, Eq, Debug)]
pub enum StoreNote {
    /// The file has the bytes.
    Kept,
    /// The write failed.
    Failed,
}

/// Why a run ended.
#[derive(Clone, Copy, PartialEq, Eq, Debug)]
pub enum RunEnd {
    /// The optimum was found and proved.
    Optimal,
    /// It was proved that no point is feasible.
    Infeasible,
    /// Every listed point was found.
    Done,
    /// The tree had no room for another split.
    NodeLimit,
    /// As many points were found as were asked for.
    PopulateLimit,
}
