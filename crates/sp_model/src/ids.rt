//! The ids of variables and rows.

use std::marker::Model;

/// A variable, by its place among the declared ones, from 0.
#[derive(Clone, Copy, PartialEq, Eq, PartialOrd, Ord, Debug)]
pub struct VarId(u32);

impl Model for VarId {
    ghost use Rattle.std.specs.Prelude.{ℕ};

    ghost Value = { ℕ };

    ghost view = { λ v. v.0 };

    ghost inverse = { λ n. record { 0 = n } };
}

ghost use Rattle.std.specs.Prelude.{◌≡◌};

impl VarId {
    /// The variable at this place.
    pub fn new(place: u32) -> Self
        ensures { result ≡ place }
    {
        VarId(place)
    }

    /// The place as an index.
    pub fn index(self) -> usize
        ensures { result ≡ self }
    {
        self.0 as usize
    }
}

/// A row, by its place among the rows, from 0.
#[derive(Clone, Copy, PartialEq, Eq, PartialOrd, Ord, Default, Debug)]
pub struct RowId(u32);

impl Model for RowId {
    ghost use Rattle.std.specs.Prelude.{ℕ};

    ghost Value = { ℕ };

    ghost view = { λ r. r.0 };

    ghost inverse = { λ n. record { 0 = n } };
}

impl RowId {
    /// The row at this place.
    pub fn new(place: u32) -> Self
        ensures { result ≡ place }
    {
        RowId(place)
    }

    /// The place as an index.
    pub fn index(self) -> usize
        ensures { result ≡ self }
    {
        self.0 as usize
    }
}
