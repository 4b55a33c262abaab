//! The right-hand sides and the ranges of a file.
ghost use Rattle.std.specs.Prelude.{◌≡◌, ◌==◌, [], Ok};
ghost use Rattle.sp_mps_sections.specs.Faults.{or_then, set_fault};
ghost use Rattle.sp_mps_sections.specs.Pairs.{check_sides, row_sides, check_values, row_values};
ghost use Rattle.sp_mps_sections.specs.Sides.{set_name, sides_on, check_rhs, ranges_on, check_ranges};
ghost use Rattle.sp_mps_sections.specs.Answers.{Gives, unless};
ghost use Rattle.sp_mps_sections.specs.inner.Answers.{one_or_two};
ghost use Rattle.sp_mps_sections.specs.Additions.{no_sides, with_sides, no_ranges, with_ranges};

use crate::line_faults::LineFault;
use crate::names::{check_set, keep_set};
use crate::pairs::{OneOrTwo, RowSide, RowValue, is_bare, is_led, push_pair};
use crate::rows::RowList;
use sp_base::Text;
use sp_decimal::Numeral;
use sp_model::Items;
use sp_mps_words::{FaultKind, LineFields};
use std::alloc::Global;

/// The right-hand sides that were read so far.
#[derive(Drop)]
pub struct SideList {
    /// The name of their set.
    pub set: Option<Text>,
    /// The right-hand sides, in the order of the lines.
    pub sides: Items<RowSide>,
}

/// The ranges that were read so far.
#[derive(Drop)]
pub struct RangeList {
    /// The name of their set.
    pub set: Option<Text>,
    /// The ranges, in the order of the lines.
    pub ranges: Items<RowValue>,
}

impl SideList {
    /// No right-hand sides yet. They take no memory.
    pub fn new(alloc: Global) -> SideList
        ensures { result ≡ no_sides }
    {
        SideList {
            set: None,
            sides: Items::new(alloc),
        }
    }

    fn keep(&mut self, alloc: Global, set: &[u8], pairs: OneOrTwo<RowSide>) -> Result<(), LineFault>
        ensures { Gives result self.new (Ok (with_sides set.now (one_or_two pairs) self.old)) }
    {
        // The proof wants the type of a side's value to be named here.
        let _held: Option<Numeral> = None;
        match keep_set(alloc, &mut self.set, set) {
            Err(fault) => Err(fault),
            Ok(()) => push_pair(&mut self.sides, pairs),
        }
    }

    /// Takes a set, and one pair or two.
    fn add(
        &mut self,
        alloc: Global,
        rows: &RowList,
        set: &[u8],
        two: bool,
        a: &[u8],
        b: &[u8],
        c: &[u8],
        d: &[u8],
    ) -> Result<(), LineFault>
        ensures { Gives result self.new (unless
            (or_then (set_fault self.old.set set.now) (check_sides rows.now two a.now b.now c.now d.now))
            (with_sides set.now (row_sides rows.now two a.now b.now c.now d.now) self.old)) }
    {
        match check_set(&self.set, set) {
            Err(kind) => Err(LineFault::Refused(kind)),
            Ok(()) => match rows.sides(two, a, b, c, d) {
                Err(kind) => Err(LineFault::Refused(kind)),
                Ok(pairs) => self.keep(alloc, set, pairs),
            },
        }
    }

    /// Takes a line of RHS.
    pub fn read(
        &mut self,
        alloc: Global,
        rows: &RowList,
        fields: &LineFields<'_>,
    ) -> Result<(), LineFault>
        ensures { Gives result self.new (unless
            (check_rhs rows.now self.old.set fields.now.count fields.now.first.now fields.now.second.now
            fields.now.third.now fields.now.fourth.now fields.now.fifth.now)
            (with_sides (set_name fields.now.count fields.now.first.now) (sides_on rows.now fields.now.count
            fields.now.first.now fields.now.second.now fields.now.third.now fields.now.fourth.now
            fields.now.fifth.now) self.old)) }
    {
        if is_led(fields.count) {
            self.add(
                alloc,
                rows,
                fields.first,
                fields.count == 5,
                fields.second,
                fields.third,
                fields.fourth,
                fields.fifth,
            )
        } else if is_bare(fields.count) {
            self.add(
                alloc,
                rows,
                &[],
                fields.count == 4,
                fields.first,
                fields.second,
                fields.third,
                fields.fourth,
            )
        } else {
            Err(LineFault::Refused(FaultKind::Syntax))
        }
    }
}

impl RangeList {
    /// No ranges yet. They take no memory.
    pub fn new(alloc: Global) -> RangeList
        ensures { result ≡ no_ranges }
    {
        RangeList {
            set: None,
            ranges: Items::new(alloc),
        }
    }

    fn keep(
        &mut self,
        alloc: Global,
        set: &[u8],
        pairs: OneOrTwo<RowValue>,
    ) -> Result<(), LineFault>
        ensures { Gives result self.new (Ok (with_ranges set.now (one_or_two pairs) self.old)) }
    {
        match keep_set(alloc, &mut self.set, set) {
            Err(fault) => Err(fault),
            Ok(()) => push_pair(&mut self.ranges, pairs),
        }
    }

    /// Takes a set, and one pair or two.
    fn add(
        &mut self,
        alloc: Global,
        rows: &RowList,
        set: &[u8],
        two: bool,
        a: &[u8],
        b: &[u8],
        c: &[u8],
        d: &[u8],
    ) -> Result<(), LineFault>
        ensures { Gives result self.new (unless
            (or_then (set_fault self.old.set set.now) (check_values rows.now two a.now b.now c.now d.now))
            (with_ranges set.now (row_values rows.now two a.now b.now c.now d.now) self.old)) }
    {
        match check_set(&self.set, set) {
            Err(kind) => Err(LineFault::Refused(kind)),
            Ok(()) => match rows.values(two, a, b, c, d) {
                Err(kind) => Err(LineFault::Refused(kind)),
                Ok(pairs) => self.keep(alloc, set, pairs),
            },
        }
    }

    /// Takes a line of RANGES.
    pub fn read(
        &mut self,
        alloc: Global,
        rows: &RowList,
        fields: &LineFields<'_>,
    ) -> Result<(), LineFault>
        ensures { Gives result self.new (unless
            (check_ranges rows.now self.old.set fields.now.count fields.now.first.now fields.now.second.now
            fields.now.third.now fields.now.fourth.now fields.now.fifth.now)
            (with_ranges (set_name fields.now.count fields.now.first.now) (ranges_on rows.now fields.now.count
            fields.now.first.now fields.now.second.now fields.now.third.now fields.now.fourth.now
            fields.now.fifth.now) self.old)) }
    {
        if is_led(fields.count) {
            self.add(
                alloc,
                rows,
                fields.first,
                fields.count == 5,
                fields.second,
                fields.third,
                fields.fourth,
                fields.fifth,
            )
        } else if is_bare(fields.count) {
            self.add(
                alloc,
                rows,
                &[],
                fields.count == 4,
                fields.first,
                fields.second,
                fields.third,
                fields.fourth,
            )
        } else {
            Err(LineFault::Refused(FaultKind::Syntax))
        }
    }
}
