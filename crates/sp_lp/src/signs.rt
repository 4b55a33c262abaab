//! The steps at a sign.
ghost use Rattle.std.specs.Prelude.{true, ◌||◌, if◌then◌else◌, Some, None};
ghost use Rattle.sp_lp_grammar.specs.InnerMachine.{sign_step, minus_at, lead_term};
ghost use Rattle.sp_lp.specs.States.{state_of};
ghost use Rattle.sp_lp.specs.Stops.{Gives};

use crate::numbers::{later, turned};
use crate::reader::Reader;
use crate::stops::Stop;
use sp_draft::Sense;
use sp_lp_grammar::{Place, Side, Sum};

impl<'a> Reader<'a> {
    /// A sign that a row or a bound begins with, where one may begin.
    fn lead_sign(&mut self, may: bool, place: Place, minus: bool) -> Result<(), Stop>
        ensures { Gives result (state_of self.new) (if may then Some (minus_at place minus (state_of self.old)) else None) }
    {
        if may {
            self.sign_at(place, minus)
        } else {
            Err(Stop::Fault)
        }
    }

    /// A sign behind a name that begins a sum.
    fn sign_behind_name(&mut self, sum: Sum, minus: bool) -> Result<(), Stop>
        ensures { Gives result (state_of self.new) (Some (minus_at (Place.Signed sum) minus (lead_term (state_of self.old)))) }
    {
        match self.lead_term() {
            Ok(()) => self.sign_at(Place::Signed(sum), minus),
            Err(_) => Err(Stop::Memory),
        }
    }

    /// A sign behind a constant.
    fn sign_behind_constant(&mut self, minus: bool) -> Result<(), Stop>
        ensures { Gives result (state_of self.new) (sign_step (Place.Numbered Sum.Cost) true minus (state_of self.old)) }
    {
        match self.constant() {
            Ok(()) => self.sign_at(Place::Signed(Sum::Cost), minus),
            Err(stop) => Err(stop),
        }
    }

    /// A sign behind a name and an equals sign, with which a row began.
    fn sign_behind_equal(&mut self, minus: bool) -> Result<(), Stop>
        ensures { Gives result (state_of self.new) (sign_step Place.EqualSide true minus (state_of self.old)) }
    {
        match self.lead_term() {
            Ok(()) => {
                self.sense = Sense::Equal;
                self.sign_at(Place::Value(Side::Row), minus)
            }
            Err(_) => Err(Stop::Memory),
        }
    }

    /// A sign behind a row that says that a variable is 0 or 1.
    fn sign_behind_bit(&mut self, first: bool, minus: bool) -> Result<(), Stop>
        ensures { Gives result (state_of self.new) (sign_step Place.Bit first minus (state_of self.old)) }
    {
        match self.bit_row() {
            Ok(()) => self.lead_sign(first, Place::Signed(Sum::Lead), minus),
            Err(_) => Err(Stop::Memory),
        }
    }

    /// A sign.
    pub(crate) fn sign(&mut self, first: bool, minus: bool) -> Result<(), Stop>
        ensures { Gives result (state_of self.new) (sign_step self.old.place first minus (state_of self.old)) }
    {
        match self.place {
            Place::Objective => self.sign_at(Place::Signed(Sum::Cost), minus),
            Place::ObjectiveName => self.sign_behind_name(Sum::Cost, minus),
            Place::CostOpen => self.sign_at(Place::Signed(Sum::Cost), minus),
            Place::Signed(sum) => self.sign_at(Place::Signed(sum), turned(self.negative, minus)),
            Place::Numbered(Sum::Cost) => self.sign_behind_constant(minus),
            Place::After(sum) => self.sign_at(Place::Signed(later(sum)), minus),
            Place::Rows(fresh) => self.lead_sign(fresh || first, Place::Signed(Sum::Lead), minus),
            Place::RowName => self.sign_behind_name(Sum::Row, minus),
            Place::Labelled => self.sign_at(Place::Signed(Sum::Lead), minus),
            Place::LeadName => self.sign_behind_name(Sum::Row, minus),
            Place::EqualSide => self.sign_behind_equal(minus),
            Place::Bit => self.sign_behind_bit(first, minus),
            Place::Value(side) => self.sign_at(Place::Value(side), turned(self.negative, minus)),
            Place::Bounds(fresh) => self.lead_sign(fresh || first, Place::BoundSigned, minus),
            Place::BoundSigned => self.sign_at(Place::BoundSigned, turned(self.negative, minus)),
            Place::BoundMiddle => self.lead_sign(first, Place::BoundSigned, minus),
            Place::MemberColon => self.sign_at(Place::MemberSigned, minus),
            Place::MemberSigned => self.sign_at(Place::MemberSigned, turned(self.negative, minus)),
            _ => Err(Stop::Fault),
        }
    }
}
