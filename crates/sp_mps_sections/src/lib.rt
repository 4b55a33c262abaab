//! The sections of MPS files: what is kept of each, what a line of it adds, and what a line is refused for.
#![tactic(auto)]

mod bounds;
mod columns;
mod indicators;
mod line_faults;
mod names;
mod order;
mod pairs;
mod rows;
mod sides;

pub use bounds::{BoundList, ColumnBound};
pub use columns::{ColumnList, Term};
pub use indicators::{IndicatorList, IndicatorRow};
pub use line_faults::LineFault;
pub use order::{check_direction, check_head, direction_at};
pub use pairs::{RowSide, RowValue};
pub use rows::RowList;
pub use sides::{RangeList, SideList};
