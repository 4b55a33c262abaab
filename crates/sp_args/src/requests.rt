//! What the words ask for.
use sp_base::Text;
use sp_model::Gaps;

/// What the words of a command line ask for: the list of the model in a file.
#[derive(Debug, Drop)]
pub struct Request {
    /// How far from the optimum a listed point may lie.
    pub gaps: Gaps,
    /// The most nodes that the tree may have, from 1 to 200,000.
    pub nodes: u32,
    /// The name of the file, as it was written.
    pub file: Text,
}

/// Why words ask for nothing.
#[derive(Clone, Copy, Debug, PartialEq, Eq, Drop)]
pub enum WordsRefusal {
    /// The words are no reading of the command.
    Usage,
    /// There is no memory.
    NoMemory,
}
