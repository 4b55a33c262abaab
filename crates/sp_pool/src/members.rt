//! Members of a pool, what is offered to it, and what it drops.

/// A found point that a pool holds.
#[derive(Clone, Copy, PartialEq, Eq, Debug)]
pub struct Member {
    /// Its serial, from 1.
    pub serial: u32,
    /// Its objective in scaled units, in the minimising direction.
    pub value: i128,
}

/// A found point that is offered to a pool.
#[derive(Clone, Copy, Debug)]
pub struct Offered {
    /// Its serial, from 1.
    pub serial: u32,
    /// Its objective in scaled units, in the minimising direction, of a magnitude of at most 10^36.
    pub value: i128,
    /// Whether it passes all filters.
    pub passes: bool,
}

/// What a full pool drops for a new member.
#[derive(Clone, Copy, PartialEq, Eq, Debug)]
pub enum Rule {
    /// The member that came first.
    Fifo,
    /// The member of greatest value, the last one on a tie, and only for a lesser value.
    Worst,
}
