//! A list of multipliers: a common divisor, and rows with their multipliers.

ghost use Rattle.std.specs.Prelude.{◌≡◌, ◌≤◌, ◌↔◌, pos, IsTrue, SomeIff};
ghost use Rattle.sp_dual.specs.Lists.{MultiplierList, Rises, IsWellFormed, zero_list};
ghost use Rattle.sp_dual.specs.Inner.{next_of};

use smallvec::SmallVec;
use sp_model::RowId;
use std::alloc::Global;
use std::marker::Model;

/// How many entries a list has at most.
pub const MOST_ENTRIES: usize = 10_000;

/// Whether the row comes after the last one, if there is one.
fn is_past(last: Option<usize>, row: usize) -> bool
    ensures { IsTrue result ↔ (next_of last ≤ row) }
{
    match last {
        None => true,
        Some(previous) => previous < row,
    }
}

/// Whether the rows rise strictly and no multiplier is 0.
fn are_rising(entries: &[(RowId, i128)]) -> bool
    ensures { IsTrue result ↔ Rises 0 entries.now }
{
    let mut last = None;
    for entry in entries {
        let row = entry.0.index();
        if !is_past(last, row) {
            return false;
        }
        if is_zero(&entry.1) {
            return false;
        }
        last = Some(row);
    }
    true
}

/// Whether the entries have the same row and the same multiplier.
fn is_same(left: &(RowId, i128), right: &(RowId, i128)) -> bool
    ensures { IsTrue result ↔ (left.now ≡ right.now) }
{
    left.0 == right.0 && left.1 == right.1
}

/// Whether the two lists have the same entries.
fn are_same(left: &[(RowId, i128)], right: &[(RowId, i128)]) -> bool
    ensures { IsTrue result ↔ (left.now ≡ right.now) }
{
    if left.len() != right.len() {
        return false;
    }
    for at in 0..left.len() {
        if !is_same(&left[at], &right[at]) {
            return false;
        }
    }
    true
}

/// Whether the number is 0.
fn is_zero(value: &i128) -> bool
    ensures { IsTrue result ↔ (value.now ≡ pos 0) }
{
    *value == 0
}

/// A list of multipliers. Up to eight entries stand in the value itself, more in an allocation.
#[derive(Drop)]
pub struct Multipliers {
    /// The divisor of all multipliers, at least 1.
    pub d: i128,
    /// Rows with their multipliers, by rising row. No multiplier is 0.
    pub y: SmallVec<(RowId, i128), 8>,
}

impl Model for Multipliers {
    ghost use Rattle.sp_dual.specs.Lists.{MultiplierList, IsWellFormed};

    ghost Value = { MultiplierList };

    ghost view = { λ m. record { d = m.d; y = m.y.items } };

    ghost invariant = { λ m. IsWellFormed (record { d = m.d; y = m.y.items }) };
}

impl Multipliers {
    /// The list without entries, with the divisor 1. It takes no memory.
    pub fn zero(alloc: Global) -> Multipliers
        ensures { result ≡ zero_list }
    {
        Multipliers {
            d: 1,
            y: SmallVec::new(alloc),
        }
    }

    /// The list of these entries, `None` exactly where they break a rule.
    pub fn from_entries(d: i128, y: SmallVec<(RowId, i128), 8>) -> Option<Multipliers>
        ensures { SomeIff result (IsWellFormed (record { d = d; y = y.items })) (record { d = d; y = y.items }) }
    {
        if 1 <= d && y.len() <= MOST_ENTRIES && are_rising(y.as_slice()) {
            Some(Multipliers { d, y })
        } else {
            None
        }
    }

    /// The entries, by rising row.
    pub fn entries(&self) -> &[(RowId, i128)]
        ensures same { result.now ≡ self.now.y }
        ensures well_formed { IsWellFormed self.now }
    {
        self.y.as_slice()
    }

    /// Whether the other list has the same divisor and the same entries.
    pub fn is_equal(&self, other: &Multipliers) -> bool
        ensures { IsTrue result ↔ (self.now ≡ other.now) }
    {
        self.d == other.d && are_same(self.y.as_slice(), other.y.as_slice())
    }
}
