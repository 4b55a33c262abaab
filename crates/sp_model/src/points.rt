//! Points: a whole number for each variable.

ghost use Rattle.std.specs.Prelude.{◌≡◌, [], ◌∷◌, ◌++◌, take, IfErr, OnOk, OnErr};

use std::alloc::{AllocFailed, Global};
use std::marker::Model;

/// A point: a whole number for each variable, in declared order. Contracts see it as the list of these numbers.
#[derive(Debug, Drop)]
pub struct Point {
    values: Vec<i64>,
}

impl Model for Point {
    ghost use Rattle.std.specs.Prelude.{List, ℤ};

    ghost Value = { List ℤ };

    ghost view = { λ p. p.values.items };
}

impl Point {
    /// The point without a variable, which takes no memory.
    pub fn new(alloc: Global) -> Point
        ensures { result ≡ [] }
    {
        Point {
            values: Vec::new(alloc),
        }
    }

    /// The point of these numbers.
    pub fn from_vec(values: Vec<i64>) -> Point
        ensures { result ≡ values.items }
    {
        Point { values }
    }

    /// The number of the next variable. After an error the point is as before, and the number is given back.
    pub fn push(&mut self, value: i64) -> Result<(), AllocFailed<i64>>
        ensures ok { OnOk result (self.new ≡ self.old ++ value ∷ []) }
        ensures err { OnErr result (self.new ≡ self.old) }
        ensures given_back { IfErr result (λ failed. failed.value ≡ value) }
    {
        self.values.push(value)
    }

    /// Keeps the numbers of the first `count` variables.
    pub fn truncate(&mut self, count: usize)
        ensures { self.new ≡ take count self.old }
    {
        self.values.truncate(count);
    }

    /// The numbers in declared order.
    pub fn as_slice(&self) -> &[i64]
        ensures { result.now ≡ self.now }
    {
        self.values.as_slice()
    }

    /// The vector that holds the numbers.
    pub fn into_vec(self) -> Vec<i64>
        ensures { result.items ≡ self }
    {
        let Point { values } = self;
        values
    }
}
