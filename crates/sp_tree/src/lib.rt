//! The tree of boxes that a search grows: nodes with marks, and a table of lists of multipliers that bounds name.
#![tactic(auto)]

mod cuts;
mod ids;
mod indexes;
mod nodes;
mod paths;
mod refusals;
mod sweeps;
mod tables;
mod tree_laws;
mod trees;

pub use ids::NodeId;
pub use nodes::{Bound, Kind, Node};
pub use refusals::SplitRefusal;
pub use tables::Keep;
pub use tree_laws::{
    complete_trees_stay_closed, extensions_last, final_nodes_stay, reopening_spares_licensed,
    trees_divide,
};
pub use trees::Tree;
