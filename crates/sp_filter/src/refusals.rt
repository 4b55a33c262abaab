//! Why a filter can't be added or removed.

/// Why a filter isn't added.
#[derive(Clone, Copy, PartialEq, Eq, Debug)]
pub enum FilterRefusal {
    /// A held filter has the name.
    NameTaken,
    /// 64 filters are held, or no id is left: the next one is 2^32 - 1.
    TooMany,
    /// A weight of a diversity filter is negative.
    NegativeWeight,
    /// The width is above 10^36.
    Wide,
    /// There wasn't enough memory.
    NoMemory,
}

/// No held filter has the name.
#[derive(Clone, Copy, PartialEq, Eq, Debug)]
pub struct NoFilter;
