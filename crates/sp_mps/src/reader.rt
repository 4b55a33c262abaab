//! What was read of a file so far, and its next line.
ghost use Rattle.std.specs.Prelude.{◌≡◌, ◌+◌, ◌<◌, ◌^◌, ◌++◌, ◌∷◌, [], length, Ok};
ghost use Rattle.sp_mps_words.specs.Lines.{line_of};
ghost use Rattle.sp_mps_sections.specs.Fronts.{last_of};
ghost use Rattle.sp_mps_sections.specs.Order.{check_head, check_direction};
ghost use Rattle.sp_mps_words.specs.Kinds.{bound_kind_of};
ghost use Rattle.sp_mps_sections.specs.Sides.{check_rhs, check_ranges, set_name, sides_on, ranges_on};
ghost use Rattle.sp_mps_sections.specs.Bounds.{check_bound, set_on, bounds_on};
ghost use Rattle.sp_mps.specs.Checks.{check_data, check_words};
ghost use Rattle.sp_mps_sections.specs.Answers.{Gives, unless, or_else};
ghost use Rattle.sp_mps_sections.specs.Additions.{with_sides, with_ranges, with_bounds};
ghost use Rattle.sp_mps.specs.inner.Steps.{start, with_head, with_direction, put_sides, put_ranges, put_bounds, with_data, step};
ghost use Rattle.sp_mps.specs.inner.Room.{HasRoom};

use sp_model::Items;
use sp_mps_sections::{
    BoundList, ColumnList, IndicatorList, LineFault, RangeList, RowList, SideList, check_direction,
    check_head, direction_at,
};
use sp_mps_words::{FaultKind, Head, LineFields, LineKind, Tables, kind_of_line, line_fields_of};
use std::alloc::Global;

/// What was read of a file so far. After a refusal it is of no use.
#[derive(Drop)]
pub struct Reader {
    /// The heads of the sections.
    pub heads: Items<Head>,
    /// Whether the objective is to be maximised, if a line says it.
    pub direction: Option<bool>,
    /// The rows.
    pub rows: RowList,
    /// The columns.
    pub columns: ColumnList,
    /// The right-hand sides.
    pub sides: SideList,
    /// The ranges.
    pub ranges: RangeList,
    /// The bounds.
    pub bounds: BoundList,
    /// The indicators.
    pub indicators: IndicatorList,
}

impl Reader {
    /// The reader before the first line. It takes no memory.
    pub(crate) fn new(alloc: Global) -> Reader
        ensures { result ≡ start }
    {
        Reader {
            heads: Items::new(alloc),
            direction: None,
            rows: RowList::new(alloc),
            columns: ColumnList::new(alloc),
            sides: SideList::new(alloc),
            ranges: RangeList::new(alloc),
            bounds: BoundList::new(alloc),
            indicators: IndicatorList::new(alloc),
        }
    }

    fn last_head(&self) -> Option<Head>
        ensures { result ≡ last_of self.now.heads }
    {
        self.heads.as_slice().last().copied()
    }

    /// Notes the direction, if none was given before.
    fn note_direction(&mut self, direction: Option<bool>)
        ensures { self.new ≡ record self.old { direction = or_else self.old.direction direction } }
    {
        if self.direction.is_none() {
            self.direction = direction;
        }
    }

    /// Puts the head behind the others.
    fn push_head(&mut self, head: Head) -> Result<(), LineFault>
        ensures { Gives result self.new (Ok (record self.old { heads = self.old.heads ++ head ∷ [] })) }
    {
        match self.heads.push(head) {
            Ok(()) => Ok(()),
            Err(_) => Err(LineFault::NoMemory),
        }
    }

    /// Takes a section line.
    fn head(
        &mut self,
        tables: &Tables,
        head: Option<Head>,
        count: usize,
        second: &[u8],
    ) -> Result<(), LineFault>
        ensures { Gives result self.new (unless (check_head self.old.heads head count second.now) (with_head head
            count second.now self.old)) }
    {
        match check_head(tables, self.heads.as_slice(), head, count, second) {
            Err(kind) => Err(LineFault::Refused(kind)),
            Ok(()) => {
                self.note_direction(direction_at(tables, head, count, second));
                match head {
                    None => Ok(()),
                    Some(head) => self.push_head(head),
                }
            }
        }
    }

    /// Takes a data line of OBJSENSE.
    fn sense(&mut self, tables: &Tables, count: usize, word: &[u8]) -> Result<(), LineFault>
        ensures { Gives result self.new (unless (check_direction self.old.direction count word.now) (with_direction
            word.now self.old)) }
    {
        match check_direction(tables, self.direction, count, word) {
            Err(kind) => Err(LineFault::Refused(kind)),
            Ok(()) => {
                self.note_direction(tables.direction_of(word));
                Ok(())
            }
        }
    }

    /// Takes a data line of RHS.
    fn side(&mut self, alloc: Global, fields: &LineFields<'_>) -> Result<(), LineFault>
        ensures { Gives result self.new (unless
            (check_rhs self.old.rows self.old.sides.set fields.now.count fields.now.first.now fields.now.second.now
            fields.now.third.now fields.now.fourth.now fields.now.fifth.now)
            (put_sides self.old (with_sides (set_name fields.now.count fields.now.first.now) (sides_on self.old.rows
            fields.now.count fields.now.first.now fields.now.second.now fields.now.third.now fields.now.fourth.now
            fields.now.fifth.now) self.old.sides))) }
    {
        self.sides.read(alloc, &self.rows, fields)
    }

    /// Takes a data line of RANGES.
    fn range(&mut self, alloc: Global, fields: &LineFields<'_>) -> Result<(), LineFault>
        ensures { Gives result self.new (unless
            (check_ranges self.old.rows self.old.ranges.set fields.now.count fields.now.first.now
            fields.now.second.now fields.now.third.now fields.now.fourth.now fields.now.fifth.now)
            (put_ranges self.old (with_ranges (set_name fields.now.count fields.now.first.now) (ranges_on
            self.old.rows fields.now.count fields.now.first.now fields.now.second.now fields.now.third.now
            fields.now.fourth.now fields.now.fifth.now) self.old.ranges))) }
    {
        self.ranges.read(alloc, &self.rows, fields)
    }

    /// Takes a data line of BOUNDS.
    fn bound(
        &mut self,
        alloc: Global,
        tables: &Tables,
        fields: &LineFields<'_>,
    ) -> Result<(), LineFault>
        ensures { Gives result self.new (unless
            (check_bound self.old.columns.names self.old.bounds.set (bound_kind_of fields.now.first.now)
            fields.now.count fields.now.second.now fields.now.third.now fields.now.fourth.now)
            (put_bounds self.old (with_bounds (set_on (bound_kind_of fields.now.first.now) fields.now.count
            fields.now.second.now) (bounds_on self.old.columns.names (bound_kind_of fields.now.first.now)
            fields.now.count fields.now.second.now fields.now.third.now fields.now.fourth.now) self.old.bounds))) }
    {
        self.bounds.read(
            alloc,
            &self.columns.names,
            tables.bound_kind_of(fields.first),
            fields.count,
            fields.second,
            fields.third,
            fields.fourth,
        )
    }

    /// Takes a data line.
    fn data(
        &mut self,
        alloc: Global,
        tables: &Tables,
        fields: &LineFields<'_>,
    ) -> Result<(), LineFault>
        requires { HasRoom self.old }
        ensures { Gives result self.new (unless
            (check_data self.old (last_of self.old.heads) fields.now.count fields.now.first.now fields.now.second.now
            fields.now.third.now fields.now.fourth.now fields.now.fifth.now)
            (with_data (last_of self.old.heads) fields.now.count fields.now.first.now fields.now.second.now
            fields.now.third.now fields.now.fourth.now fields.now.fifth.now self.old)) }
    {
        match self.last_head() {
            Some(Head::Objsense) => self.sense(tables, fields.count, fields.first),
            Some(Head::Rows) => self
                .rows
                .read(tables, fields.count, fields.first, fields.second),
            Some(Head::Columns) => self.columns.read(&self.rows, tables, fields),
            Some(Head::Rhs) => self.side(alloc, fields),
            Some(Head::Ranges) => self.range(alloc, fields),
            Some(Head::Bounds) => self.bound(alloc, tables, fields),
            Some(Head::Indicators) => {
                self.indicators
                    .read(&self.rows, &self.columns.names, tables, fields)
            }
            Some(Head::Name) => Err(LineFault::Refused(FaultKind::Syntax)),
            Some(Head::Endata) => Err(LineFault::Refused(FaultKind::Syntax)),
            None => Err(LineFault::Refused(FaultKind::Syntax)),
        }
    }

    /// Takes the next line.
    #[tactic(auto, unfolding(crate::specs::inner::Steps::step, sp_mps_words::specs::Lines::line_of))]
    pub(crate) fn line(
        &mut self,
        alloc: Global,
        tables: &Tables,
        line: &[u8],
    ) -> Result<(), LineFault>
        requires { HasRoom self.old }
        ensures { Gives result self.new (step self.old (line_of line.now)) }
    {
        let fields = line_fields_of(line);
        match kind_of_line(line) {
            LineKind::Ignored => Ok(()),
            LineKind::Section => self.head(
                tables,
                tables.head_of(fields.first),
                fields.count,
                fields.second,
            ),
            LineKind::Data => self.data(alloc, tables, &fields),
        }
    }
}
