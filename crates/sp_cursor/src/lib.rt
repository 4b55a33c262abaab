//! A cursor in the tree of a search: what is kept over the box of one node, the moves to other nodes, and hints where
//! to split.
#![tactic(auto)]

mod cursor_laws;
mod cursors;
mod hands;
mod hints;

pub use cursor_laws::cursors_last;
pub use cursors::{Back, Cursor, root_cursor};
pub use hands::{Hand, least_objective};
pub use hints::{Look, most_wanted, place_hint, price_of};
