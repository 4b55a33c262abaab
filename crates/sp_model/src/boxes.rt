//! Boxes of ranges of whole numbers: their points are counted, and they are split.

ghost use Rattle.std.specs.Prelude.{◌≡◌, ◌^◌, ◌<◌, ◌≤◌, ◌↔◌, length, slice_set, IfOk, IsTrue, SomeIff, ◌<ℤ◌, ◌≤ℤ◌};
ghost use Rattle.sp_model.specs.Boxes.{ranges, range_at, width_of, point_count, below, above, CanSplit, IsBetween, IsWithin};

use crate::ids::VarId;
use crate::items::Items;
use crate::no_memory::NoMemory;
use crate::points::Point;
use std::alloc::Global;
use std::marker::Model;

/// A box: a range of whole numbers for each variable, which is empty where its least number is above its greatest.
/// Contracts see it as the list of these ranges.
#[derive(Debug, Drop)]
pub struct BoxOf {
    /// The least value of each variable.
    pub lower: Items<i64>,
    /// The greatest value of each variable.
    pub upper: Items<i64>,
}

impl Model for BoxOf {
    ghost use Rattle.std.specs.Prelude.{◌≡◌, length};
    ghost use Rattle.sp_model.specs.Boxes.{Bounds, ranges};

    ghost Value = { Bounds };

    ghost view = { λ b. ranges b.lower b.upper };

    ghost invariant = { λ b. length b.upper ≡ length b.lower };
}

impl BoxOf {
    /// How many variables the box has.
    pub fn len(&self) -> usize
        ensures { result ≡ length self.now }
    {
        self.lower.len()
    }

    /// The least and the greatest value of a variable.
    pub fn range(&self, var: VarId) -> (i64, i64)
        requires { var < length self.now }
        ensures { result ≡ range_at self.now var }
    {
        let place = var.index();
        (self.lower.as_slice()[place], self.upper.as_slice()[place])
    }

    /// Gives a variable another range, which may be empty.
    pub fn set(&mut self, var: VarId, range: &(i64, i64))
        requires { var < length self.old }
        ensures { self.new ≡ slice_set self.old var range.now }
    {
        let place = var.index();
        self.lower.set(place, range.0);
        self.upper.set(place, range.1);
    }

    /// Whether the point has a value for each variable, and each lies within its range. It takes no memory.
    pub fn holds(&self, x: &Point) -> bool
        ensures { IsTrue result ↔ IsWithin self.now x.now }
    {
        are_values_within(self.lower.as_slice(), self.upper.as_slice(), x.as_slice())
    }

    /// How many values a variable has, at most 2^64.
    pub fn width(&self, var: VarId) -> u128
        requires { var < length self.now }
        ensures value { result ≡ width_of (range_at self.now var) }
        ensures bound { result ≤ 2 ^ 64 }
    {
        let place = var.index();
        width_between(&self.lower.as_slice()[place], &self.upper.as_slice()[place])
    }

    /// Whether the box has a point: no range is empty.
    pub fn has_points(&self) -> bool
        ensures { IsTrue result ↔ (0 < point_count self.now) }
    {
        are_all_filled(self.lower.as_slice(), self.upper.as_slice())
    }

    /// The number of points, or `None` where it passes 128 bits.
    pub fn count(&self) -> Option<u128>
        ensures { SomeIff result (point_count self.now < 2 ^ 128) (point_count self.now) }
    {
        if self.has_points() {
            product_of_widths(self.lower.as_slice(), self.upper.as_slice())
        } else {
            Some(0)
        }
    }

    /// Whether `split` may be called: the variable is the box's, and both parts get a part of its range.
    pub fn can_split(&self, var: VarId, at: i64) -> bool
        ensures { IsTrue result ↔ CanSplit self.now var at }
    {
        if var.index() < self.len() {
            is_inside(&self.range(var), &at)
        } else {
            false
        }
    }

    /// The part with the variable's values up to `at`, and the part with those above it.
    pub fn split(&self, alloc: Global, var: VarId, at: i64) -> Result<(BoxOf, BoxOf), NoMemory>
        requires { CanSplit self.now var at }
        ensures lower { IfOk result (λ parts. parts.0 ≡ below self.now var at) }
        ensures upper { IfOk result (λ parts. parts.1 ≡ above self.now var at) }
    {
        let lower_part = self.up_to(alloc, var, &at)?;
        let upper_part = self.from_after(alloc, var, &at)?;
        Ok((lower_part, upper_part))
    }

    /// The part with the variable's values up to `at`.
    fn up_to(&self, alloc: Global, var: VarId, at: &i64) -> Result<BoxOf, NoMemory>
        requires { var < length self.now }
        ensures { IfOk result (λ part. part ≡ below self.now var at.now) }
    {
        let lower = copy_of(alloc, self.lower.as_slice())?;
        let upper = copy_with(alloc, self.upper.as_slice(), var.index(), at)?;
        Ok(BoxOf { lower, upper })
    }

    /// The part with the variable's values above `at`.
    fn from_after(&self, alloc: Global, var: VarId, at: &i64) -> Result<BoxOf, NoMemory>
        requires known { var < length self.now }
        requires room { at.now <ℤ (range_at self.now var).1 }
        ensures { IfOk result (λ part. part ≡ above self.now var at.now) }
    {
        let place = var.index();
        // It is a number of 64 bits, so one more than `at` is one too.
        let _greatest = self.upper.as_slice()[place];
        let next = *at + 1;
        let lower = copy_with(alloc, self.lower.as_slice(), place, &next)?;
        let upper = copy_of(alloc, self.upper.as_slice())?;
        Ok(BoxOf { lower, upper })
    }
}

fn is_between(least: &i64, greatest: &i64, value: &i64) -> bool
    ensures { IsTrue result ↔ IsBetween (least.now, greatest.now) value.now }
{
    *least <= *value && *value <= *greatest
}

/// Whether there is a value for each range, and each lies within its range.
fn are_values_within(lower: &[i64], upper: &[i64], x: &[i64]) -> bool
    requires { length upper.now ≡ length lower.now }
    ensures { IsTrue result ↔ IsWithin (ranges lower.now upper.now) x.now }
{
    if x.len() != lower.len() {
        return false;
    }
    for at in 0..x.len() {
        if !is_between(&lower[at], &upper[at], &x[at]) {
            return false;
        }
    }
    true
}

/// Whether the number is in the range, and not its greatest.
fn is_inside(range: &(i64, i64), at: &i64) -> bool
    ensures { IsTrue result ↔ ((range.now.0 ≤ℤ at.now) × (at.now <ℤ range.now.1)) }
{
    range.0 <= *at && *at < range.1
}

/// The same numbers.
fn copy_of(alloc: Global, items: &[i64]) -> Result<Items<i64>, NoMemory>
    ensures { IfOk result (λ copy. copy ≡ items.now) }
{
    let copy = Vec::from_slice(alloc, items)?;
    Ok(Items::from_vec(copy))
}

/// The same numbers but for one.
fn copy_with(
    alloc: Global,
    items: &[i64],
    place: usize,
    value: &i64,
) -> Result<Items<i64>, NoMemory>
    requires { place < length items.now }
    ensures { IfOk result (λ copy. copy ≡ slice_set items.now place value.now) }
{
    let mut copy = Vec::from_slice(alloc, items)?;
    copy[place] = *value;
    Ok(Items::from_vec(copy))
}

/// How many whole numbers lie from `least` to `greatest`.
fn width_between(least: &i64, greatest: &i64) -> u128
    ensures value { result ≡ width_of (least.now, greatest.now) }
    ensures bound { result ≤ 2 ^ 64 }
{
    if *greatest < *least {
        0
    } else {
        u128::from(greatest.abs_diff(*least)) + 1
    }
}

/// Whether no range is empty.
fn are_all_filled(lower: &[i64], upper: &[i64]) -> bool
    requires { length upper.now ≡ length lower.now }
    ensures { IsTrue result ↔ (0 < point_count (ranges lower.now upper.now)) }
{
    for place in 0..lower.len() {
        if width_between(&lower[place], &upper[place]) == 0 {
            return false;
        }
    }
    true
}

/// The product of the widths of ranges that aren't empty, or `None` where it passes 128 bits.
fn product_of_widths(lower: &[i64], upper: &[i64]) -> Option<u128>
    requires paired { length upper.now ≡ length lower.now }
    requires filled { 0 < point_count (ranges lower.now upper.now) }
    ensures { let count = point_count (ranges lower.now upper.now) in SomeIff result (count < 2 ^ 128) count }
{
    let mut count: u128 = 1;
    for place in 0..lower.len() {
        match count.checked_mul(width_between(&lower[place], &upper[place])) {
            None => return None,
            Some(product) => count = product,
        }
    }
    Some(count)
}

#[cfg(test)]
mod tests {
    use super::*;
    use std::alloc::AllocError;
    use std::test::Fail;

    /// The box of these ranges.
    fn box_of(alloc: Global, ranges: &[(i64, i64)]) -> Result<BoxOf, AllocError> {
        let mut lower = Vec::new(alloc);
        let mut upper = Vec::new(alloc);
        for (least, greatest) in ranges {
            lower.push(*least)?;
            upper.push(*greatest)?;
        }
        Ok(BoxOf {
            lower: Items::from_vec(lower),
            upper: Items::from_vec(upper),
        })
    }

    /// Every number of 64 bits.
    const ALL: (i64, i64) = (i64::MIN, i64::MAX);

    /// Ranges, and how many points their box has.
    const COUNTS: [(&[(i64, i64)], Option<u128>); 7] = [
        (&[], Some(1)),
        (&[(5, 4)], Some(0)),
        (&[(0, 9), (-5, 5)], Some(110)),
        (&[ALL], Some(18_446_744_073_709_551_616)),
        (&[ALL, ALL], None),
        (&[ALL, ALL, (3, 2)], Some(0)),
        (
            &[
                (i64::MIN, i64::MAX - 1),
                (1, 274_177),
                (0, 67_280_421_310_720),
            ],
            Some(u128::MAX),
        ),
    ];

    #[test]
    fn counts(rt: HostRuntime) -> Result<(), Fail> {
        for (ranges, want) in COUNTS {
            let made = box_of(rt.alloc(), ranges)?;
            assert_eq!(rt; made.count(), want, "{ranges:?}");
            assert_eq!(rt; made.has_points(), want != Some(0));
        }
        Ok(())
    }

    #[test]
    fn counts_many(rt: HostRuntime) -> Result<(), Fail> {
        let mut many = [(0, 1); 2_000];
        assert_eq!(rt; box_of(rt.alloc(), &many)?.count(), None);
        many[1_999] = (1, 0);
        assert_eq!(rt; box_of(rt.alloc(), &many)?.count(), Some(0));
        Ok(())
    }

    /// Whether the box has three variables, this range for one of them, and so many points.
    fn shows(part: &BoxOf, place: u32, range: (i64, i64), count: u128) -> bool {
        let var = VarId::new(place);
        part.len() == 3
            && var.index() < part.len()
            && part.range(var) == range
            && part.count() == Some(count)
    }

    /// Whether a split is lawful, and gives two boxes with these ranges of the variable and so many points.
    fn divides(
        alloc: Global,
        whole: &BoxOf,
        place: u32,
        at: i64,
        lower: ((i64, i64), u128),
        upper: ((i64, i64), u128),
    ) -> Result<bool, NoMemory> {
        let var = VarId::new(place);
        if !whole.can_split(var, at) {
            return Ok(false);
        }
        let (low, high) = whole.split(alloc, var, at)?;
        Ok(shows(&low, place, lower.0, lower.1) && shows(&high, place, upper.0, upper.1))
    }

    /// A variable's place and a number, and whether the box of the test can be split there.
    const PLACES: [(u32, i64, bool); 6] = [
        (1, -6, false),
        (1, -5, true),
        (1, 4, true),
        (1, 5, false),
        (2, 2, false),
        (3, 0, false),
    ];

    #[test]
    fn splits(rt: HostRuntime) -> Result<(), Fail> {
        let whole = box_of(rt.alloc(), &[(0, 9), (-5, 5), (2, 2)])?;
        for (place, at, want) in PLACES {
            assert_eq!(rt;
                whole.can_split(VarId::new(place), at),
                want,
                "{place} {at}"
            );
        }
        assert!(rt; divides(rt.alloc(), &whole, 1, -1, ((-5, -1), 50), ((0, 5), 60))?);
        assert!(rt; divides(rt.alloc(), &whole, 0, 0, ((0, 0), 11), ((1, 9), 99))?);
        Ok(())
    }
}
