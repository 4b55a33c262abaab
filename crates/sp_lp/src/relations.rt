//! The steps at a relation, a colon, a double colon and an arrow.
ghost use Rattle.std.specs.Prelude.{Some, None};
ghost use Rattle.sp_lp_grammar.specs.InnerMachine.{if_so, ordered, sided, lead_relation, relation_step, colon_step, double_colon_step, arrow_step};
ghost use Rattle.sp_lp.specs.States.{state_of};
ghost use Rattle.sp_lp.specs.Stops.{Gives};

use crate::numbers::{ordered, signed_numeral};
use crate::reader::Reader;
use crate::stops::Stop;
use sp_draft::Sense;
use sp_lp_grammar::{Place, Side, Sum};
use sp_lp_words::set_kind_of;

impl<'a> Reader<'a> {
    /// A value comes next.
    fn side_at(&mut self, side: Side, sense: Sense) -> Result<(), Stop>
        ensures { Gives result (state_of self.new) (Some (sided side sense (state_of self.old))) }
    {
        self.sense = sense;
        self.negative = false;
        self.place = Place::Value(side);
        Ok(())
    }

    /// A second relation.
    fn second_side(&mut self, side: Side, sense: Sense) -> Result<(), Stop>
        ensures { Gives result (state_of self.new) (if_so (ordered self.old.sense sense) (Some (sided side sense (state_of self.old)))) }
    {
        if ordered(self.sense, sense) {
            self.side_at(side, sense)
        } else {
            Err(Stop::Fault)
        }
    }

    /// A relation behind the name that a row began with.
    fn behind_name(&mut self, sense: Sense) -> Result<(), Stop>
        ensures { Gives result (state_of self.new) (Some (lead_relation sense (state_of self.old))) }
    {
        match sense {
            Sense::Equal => self.go(Place::EqualSide),
            _ => match self.lead_term() {
                Ok(()) => self.side_at(Side::Row, sense),
                Err(_) => Err(Stop::Memory),
            },
        }
    }

    /// A relation behind the value that a row began with.
    fn behind_value(&mut self, sense: Sense) -> Result<(), Stop>
        ensures { Gives result (state_of self.new) (relation_step (Place.Numbered Sum.Lead) sense (state_of self.old)) }
    {
        self.value = signed_numeral(self.negative, &self.number);
        self.sense = sense;
        self.negative = false;
        self.place = Place::Signed(Sum::Right);
        Ok(())
    }

    /// A relation behind the value that a bound began with.
    fn behind_bound(&mut self, sense: Sense) -> Result<(), Stop>
        ensures { Gives result (state_of self.new) (relation_step Place.BoundNumber sense (state_of self.old)) }
    {
        self.sense = sense;
        self.place = Place::BoundRight;
        Ok(())
    }

    /// A relation.
    pub(crate) fn relation(&mut self, sense: Sense) -> Result<(), Stop>
        ensures { Gives result (state_of self.new) (relation_step self.old.place sense (state_of self.old)) }
    {
        match self.place {
            Place::Numbered(Sum::Lead) => self.behind_value(sense),
            Place::After(Sum::Row) => self.side_at(Side::Row, sense),
            Place::After(Sum::Then) => self.side_at(Side::Then, sense),
            Place::After(Sum::Right) => self.second_side(Side::Range, sense),
            Place::RowName => self.behind_name(sense),
            Place::LeadName => self.behind_name(sense),
            Place::BoundName => self.side_at(Side::Bound, sense),
            Place::BoundNumber => self.behind_bound(sense),
            Place::BoundMiddle => self.second_side(Side::Bound, sense),
            _ => Err(Stop::Fault),
        }
    }

    /// The colon behind the name of a row.
    fn row_colon(&mut self) -> Result<(), Stop>
        ensures { Gives result (state_of self.new) (colon_step Place.RowName (state_of self.old)) }
    {
        match self.said.name_row(self.name) {
            Ok(true) => self.go(Place::Labelled),
            Ok(false) => Err(Stop::Fault),
            Err(_) => Err(Stop::Memory),
        }
    }

    /// The colon behind the name of a set.
    fn set_colon(&mut self) -> Result<(), Stop>
        ensures { Gives result (state_of self.new) (colon_step Place.SetName (state_of self.old)) }
    {
        if self.said.has_set(self.name) {
            return Err(Stop::Fault);
        }
        match self.said.name_set(self.name) {
            Ok(()) => self.go(Place::SetLabelled),
            Err(_) => Err(Stop::Memory),
        }
    }

    /// A colon.
    pub(crate) fn colon(&mut self) -> Result<(), Stop>
        ensures { Gives result (state_of self.new) (colon_step self.old.place (state_of self.old)) }
    {
        match self.place {
            Place::ObjectiveName => self.go(Place::CostOpen),
            Place::RowName => self.row_colon(),
            Place::SetName => self.set_colon(),
            Place::MemberName => self.go(Place::MemberColon),
            _ => Err(Stop::Fault),
        }
    }

    /// A double colon.
    pub(crate) fn double_colon(&mut self) -> Result<(), Stop>
        ensures { Gives result (state_of self.new) (double_colon_step self.old.place (state_of self.old)) }
    {
        match self.place {
            Place::SetName => self.open_set(set_kind_of(self.name)),
            Place::MemberName => self.open_set(set_kind_of(self.name)),
            Place::SetWord => self.open_set(Some(self.kind)),
            _ => Err(Stop::Fault),
        }
    }

    /// An arrow.
    pub(crate) fn arrow(&mut self) -> Result<(), Stop>
        ensures { Gives result (state_of self.new) (arrow_step self.old.place (state_of self.old)) }
    {
        match self.place {
            Place::Bit => match self.said.declare(self.name) {
                Ok(_) => self.sign_at(Place::Signed(Sum::Then), false),
                Err(_) => Err(Stop::Memory),
            },
            _ => Err(Stop::Fault),
        }
    }
}
