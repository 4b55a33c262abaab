//! What a session is asked.
use sp_base::Text;

/// A command.
#[derive(Debug, Drop)]
pub enum Command {
    /// Reads the model file of this name.
    Read(Text),
    /// Lists the solutions of the model.
    List,
}
