//! The ids of filters.

use std::marker::Model;

/// A filter that was added. It counts from 0, rises with each filter, and is never used again.
#[derive(Clone, Copy, PartialEq, Eq, PartialOrd, Ord, Debug)]
pub struct FilterId(u32);

impl Model for FilterId {
    ghost use Rattle.std.specs.Prelude.{ℕ};

    ghost Value = { ℕ };

    ghost view = { λ f. f.0 };

    ghost inverse = { λ n. record { 0 = n } };
}

ghost use Rattle.std.specs.Prelude.{◌≡◌};

impl FilterId {
    /// The id of this number.
    pub fn new(number: u32) -> Self
        ensures { result ≡ number }
    {
        FilterId(number)
    }

    /// The number of the id.
    pub fn number(self) -> u32
        ensures { result ≡ self }
    {
        self.0
    }
}
