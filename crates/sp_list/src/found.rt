//! Points with their objectives.

use sp_model::Point;

/// A point with its objective.
#[derive(Debug, Drop)]
pub struct Found {
    /// The point.
    pub point: Point,
    /// Its objective in scaled units, in the minimising direction.
    pub value: i128,
}
