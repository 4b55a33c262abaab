//! The steps at a number.
ghost use Rattle.std.specs.Prelude.{◌||◌, if◌then◌else◌, Some, None, true, false};
ghost use Rattle.sp_lp_grammar.specs.Meaning.{with_row, with_indicator, sides_of};
ghost use Rattle.sp_lp_grammar.specs.InnerMachine.{at, saying, numbered, bound_number, valued, equal_number, bit_of, weighed, number_step, right_row, bit_row};
ghost use Rattle.sp_lp.specs.States.{state_of};
ghost use Rattle.sp_lp.specs.Stops.{Gives};

use crate::numbers::{bit_of, sides_between, sides_of, signed, signed_numeral};
use crate::reader::Reader;
use crate::stops::Stop;
use sp_decimal::Numeral;
use sp_draft::{Sense, Sides};
use sp_lp_grammar::{Place, Side, Sum};

impl<'a> Reader<'a> {
    /// Goes behind the number of an item.
    fn number_at(&mut self, sum: Sum, negative: bool, number: &Numeral) -> Result<(), Stop>
        ensures { Gives result (state_of self.new) (Some (record (state_of self.old) { place = Place.Numbered sum; negative = negative; number = number.now })) }
    {
        self.number = *number;
        self.negative = negative;
        self.place = Place::Numbered(sum);
        Ok(())
    }

    /// The number of an item, which may be huge only where a value may stand.
    fn item(&mut self, sum: Sum, negative: bool, number: &Numeral) -> Result<(), Stop>
        ensures { Gives result (state_of self.new) (numbered sum negative number.now (state_of self.old)) }
    {
        match number {
            Numeral::Exact(_) => self.number_at(sum, negative, number),
            Numeral::Huge { .. } => match sum {
                Sum::Lead => self.number_at(Sum::Lead, negative, number),
                _ => Err(Stop::Fault),
            },
        }
    }

    /// The number that a row begins with, where one may begin.
    fn lead_number(&mut self, may: bool, number: &Numeral) -> Result<(), Stop>
        ensures { Gives result (state_of self.new) (if may then Some (record (state_of self.old) { place = Place.Numbered Sum.Lead; negative = false; number = number.now }) else None) }
    {
        if may {
            self.number_at(Sum::Lead, false, number)
        } else {
            Err(Stop::Fault)
        }
    }

    /// The value that a bound begins with, where one may begin.
    fn lead_bound(&mut self, may: bool, value: &Numeral) -> Result<(), Stop>
        ensures { Gives result (state_of self.new) (if may then Some (bound_number value.now (state_of self.old)) else None) }
    {
        if may {
            self.value = *value;
            self.place = Place::BoundNumber;
            Ok(())
        } else {
            Err(Stop::Fault)
        }
    }

    /// The row with these sides.
    fn row(&mut self, sides: Sides) -> Result<(), Stop>
        ensures { Gives result (state_of self.new) (Some (at (Place.Rows false) (saying (with_row sides (state_of self.old).said) (state_of self.old)))) }
    {
        match self.said.add_row(sides) {
            Ok(()) => self.go(Place::Rows(false)),
            Err(_) => Err(Stop::Memory),
        }
    }

    /// The indicator with these sides.
    fn indicator(&mut self, sides: Sides) -> Result<(), Stop>
        ensures { Gives result (state_of self.new) (Some (at (Place.Rows false) (saying (with_indicator self.old.name.now self.old.on sides (state_of self.old).said) (state_of self.old)))) }
    {
        match self.said.add_indicator(self.name, self.on, sides) {
            Ok(()) => self.go(Place::Rows(false)),
            Err(_) => Err(Stop::Memory),
        }
    }

    /// The bound with this value.
    fn bound(&mut self, value: &Numeral) -> Result<(), Stop>
        ensures { Gives result (state_of self.new) (Some (valued Side.Bound value.now (state_of self.old))) }
    {
        match self.said.bound(self.sense, value, self.name) {
            Ok(()) => self.go(Place::Bounds(false)),
            Err(_) => Err(Stop::Memory),
        }
    }

    /// A value.
    fn value(&mut self, side: Side, value: &Numeral) -> Result<(), Stop>
        ensures { Gives result (state_of self.new) (Some (valued side value.now (state_of self.old))) }
    {
        match side {
            Side::Row => self.row(sides_of(self.sense, value)),
            Side::Then => self.indicator(sides_of(self.sense, value)),
            Side::Range => {
                let left = self.value;
                self.row(sides_between(&left, self.sense, value))
            }
            Side::Bound => self.bound(value),
        }
    }

    /// The number behind a name and an equals sign, with which a row or an indicator began.
    fn equal_number(&mut self, number: &Numeral) -> Result<(), Stop>
        ensures { Gives result (state_of self.new) (Some (equal_number (bit_of number.now) number.now (state_of self.old))) }
    {
        match bit_of(number) {
            None => match self.lead_term() {
                Ok(()) => self.row(sides_of(Sense::Equal, number)),
                Err(_) => Err(Stop::Memory),
            },
            Some(on) => {
                self.number = *number;
                self.on = on;
                self.place = Place::Bit;
                Ok(())
            }
        }
    }

    /// The weight of a member of a set.
    fn weight(&mut self, negative: bool, number: &Numeral) -> Result<(), Stop>
        ensures { Gives result (state_of self.new) (weighed negative number.now (state_of self.old)) }
    {
        match number {
            Numeral::Exact(number) => {
                let weight = signed(negative, number);
                match self.said.add_term(self.name, &weight) {
                    Ok(()) => self.go(Place::Members),
                    Err(_) => Err(Stop::Memory),
                }
            }
            Numeral::Huge { .. } => Err(Stop::Fault),
        }
    }

    /// A number behind a sum that a value stands before.
    fn number_behind_right(&mut self, first: bool, number: &Numeral) -> Result<(), Stop>
        ensures { Gives result (state_of self.new) (number_step (Place.After Sum.Right) first number.now (state_of self.old)) }
    {
        match self.right_row() {
            Ok(()) => self.lead_number(first, number),
            Err(_) => Err(Stop::Memory),
        }
    }

    /// A number behind a row that says that a variable is 0 or 1.
    fn number_behind_bit(&mut self, first: bool, number: &Numeral) -> Result<(), Stop>
        ensures { Gives result (state_of self.new) (number_step Place.Bit first number.now (state_of self.old)) }
    {
        match self.bit_row() {
            Ok(()) => self.lead_number(first, number),
            Err(_) => Err(Stop::Memory),
        }
    }

    /// A number.
    pub(crate) fn number(&mut self, first: bool, number: &Numeral) -> Result<(), Stop>
        ensures { Gives result (state_of self.new) (number_step self.old.place first number.now (state_of self.old)) }
    {
        match self.place {
            Place::Objective => self.item(Sum::Cost, false, number),
            Place::CostOpen => self.item(Sum::Cost, false, number),
            Place::Signed(sum) => self.item(sum, self.negative, number),
            Place::After(Sum::Right) => self.number_behind_right(first, number),
            Place::Rows(fresh) => self.lead_number(fresh || first, number),
            Place::Labelled => self.lead_number(true, number),
            Place::EqualSide => self.equal_number(number),
            Place::Bit => self.number_behind_bit(first, number),
            Place::Value(side) => self.value(side, &signed_numeral(self.negative, number)),
            Place::Bounds(fresh) => self.lead_bound(fresh || first, number),
            Place::BoundSigned => self.lead_bound(true, &signed_numeral(self.negative, number)),
            Place::BoundMiddle => self.lead_bound(first, number),
            Place::MemberColon => self.weight(false, number),
            Place::MemberSigned => self.weight(self.negative, number),
            _ => Err(Stop::Fault),
        }
    }
}
