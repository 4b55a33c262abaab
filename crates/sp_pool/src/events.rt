//! What can happen to a pool.

use crate::members::{Offered, Rule};
use sp_model::Gaps;

/// What happens to a pool, as CPLEX's solution pool has it: points that are found, and settings and filters that change.
#[derive(Clone, Copy, Debug)]
pub enum PoolEvent<'a> {
    /// A found point is offered.
    Offer {
        /// Its serial, from 1.
        serial: u32,
        /// Its objective in scaled units, in the minimising direction, of a magnitude of at most 10^36.
        value: i128,
        /// Whether it passes all filters.
        passes: bool,
    },
    /// The greatest number of members changes.
    Capacity(u32),
    /// The rule of a full pool changes.
    Rule(Rule),
    /// The gaps change.
    Gap(Gaps),
    /// Only the members with these serials stay.
    Retain(&'a [u32]),
    /// Each of these points is offered, unless its serial is a member's at that moment.
    Refresh(&'a [Offered]),
}
