//! What a reader keeps of the tokens before, and the steps that several kinds of tokens share.
ghost use Rattle.std.specs.Prelude.{◌≡◌, [], None, Some, ◌||◌, not, OnOk, if◌then◌else◌};
ghost use Rattle.sp_draft.specs.declared.drafts.Sense.TheVariants.{Equal};
ghost use Rattle.sp_lp_grammar.specs.Meaning.{mirrored};
ghost use Rattle.sp_lp_grammar.specs.InnerMachine.{zero_value, start, at, named, saying, begun, termed, coefficient, right_row, lead_term, bit_row, constant, minus_at, new_set};
ghost use Rattle.sp_lp.specs.States.{state_of};
ghost use Rattle.sp_lp.specs.Stops.{Gives};

use crate::numbers::{later, mirrored, one, sides_of, signed};
use crate::saying::Saying;
use crate::stops::Stop;
use sp_decimal::{Decimal, Numeral};
use sp_draft::Sense;
use sp_lp_grammar::{Place, Sum};
use sp_model::{NoMemory, SosKind};
use std::alloc::Global;

/// What was read of a file so far. After a refusal it is of no use.
#[derive(Drop)]
pub struct Reader<'a> {
    /// Where the reader stands.
    pub place: Place,
    /// The sign of the number that is being read.
    pub negative: bool,
    /// The last number.
    pub number: Numeral,
    /// The last relation.
    pub sense: Sense,
    /// The value that a row or a bound began with.
    pub value: Numeral,
    /// The last name that waits for what follows it.
    pub name: &'a [u8],
    /// The value of an indicator's variable.
    pub on: bool,
    /// The kind of the next set.
    pub kind: SosKind,
    /// What the file said.
    pub said: Saying<'a>,
}

/// The number 0.
fn zero() -> Numeral
    ensures { result ≡ zero_value }
{
    Numeral::Exact(Decimal { p: 0, s: 0 })
}

impl<'a> Reader<'a> {
    /// The reader before the first token. It takes no memory.
    pub(crate) fn new(alloc: Global) -> Reader<'a>
        ensures { state_of result ≡ start }
    {
        Reader {
            place: Place::Start,
            negative: false,
            number: zero(),
            sense: Sense::Less,
            value: zero(),
            name: b"",
            on: false,
            kind: SosKind::One,
            said: Saying::new(alloc, false),
        }
    }

    /// Goes to the place.
    pub(crate) fn go(&mut self, place: Place) -> Result<(), Stop>
        ensures { Gives result (state_of self.new) (Some (at place (state_of self.old))) }
    {
        self.place = place;
        Ok(())
    }

    /// Goes to the place with the name.
    pub(crate) fn keep(&mut self, place: Place, name: &'a [u8]) -> Result<(), Stop>
        ensures { Gives result (state_of self.new) (Some (at place (named name.now (state_of self.old)))) }
    {
        self.name = name;
        self.place = place;
        Ok(())
    }

    /// Goes to the place with the name, where a row or a bound may begin.
    pub(crate) fn begin(&mut self, may: bool, place: Place, name: &'a [u8]) -> Result<(), Stop>
        ensures { Gives result (state_of self.new) (if may then Some (at place (named name.now (state_of self.old))) else None) }
    {
        if may {
            self.keep(place, name)
        } else {
            Err(Stop::Fault)
        }
    }

    /// Goes to the place behind a sign.
    pub(crate) fn sign_at(&mut self, place: Place, minus: bool) -> Result<(), Stop>
        ensures { Gives result (state_of self.new) (Some (minus_at place minus (state_of self.old))) }
    {
        self.negative = minus;
        self.place = place;
        Ok(())
    }

    /// A term of the sum.
    pub(crate) fn term(
        &mut self,
        sum: Sum,
        negative: bool,
        number: &Decimal,
        name: &[u8],
    ) -> Result<(), Stop>
        ensures { Gives result (state_of self.new) (termed sum negative number.now name.now (state_of self.old)) }
    {
        let number = signed(negative, number);
        match self.said.add_term(name, &number) {
            Ok(()) => {
                self.place = Place::After(later(sum));
                Ok(())
            }
            Err(_) => Err(Stop::Memory),
        }
    }

    /// The name behind a number.
    pub(crate) fn coefficient(&mut self, sum: Sum, name: &[u8]) -> Result<(), Stop>
        ensures { Gives result (state_of self.new) (coefficient sum self.old.number name.now (state_of self.old)) }
    {
        let number = self.number;
        match &number {
            Numeral::Exact(number) => self.term(sum, self.negative, number, name),
            Numeral::Huge { .. } => Err(Stop::Fault),
        }
    }

    /// The row between a value and the next row.
    pub(crate) fn right_row(&mut self) -> Result<(), NoMemory>
        ensures { OnOk result (state_of self.new ≡ right_row (state_of self.old)) }
    {
        let sides = sides_of(mirrored(self.sense), &self.value);
        self.said.add_row(sides)
    }

    /// The name that a row began with is a variable.
    pub(crate) fn lead_term(&mut self) -> Result<(), NoMemory>
        ensures { OnOk result (state_of self.new ≡ lead_term (state_of self.old)) }
    {
        self.said.add_term(self.name, &one())
    }

    /// The row that says that a variable is 0 or 1.
    pub(crate) fn bit_row(&mut self) -> Result<(), NoMemory>
        ensures { OnOk result (state_of self.new ≡ bit_row (state_of self.old)) }
    {
        self.lead_term()?;
        let sides = sides_of(Sense::Equal, &self.number);
        self.said.add_row(sides)
    }

    /// The number is a constant.
    pub(crate) fn constant(&mut self) -> Result<(), Stop>
        ensures { Gives result (state_of self.new) (constant self.old.number (state_of self.old)) }
    {
        let number = self.number;
        match &number {
            Numeral::Exact(number) => {
                let number = signed(self.negative, number);
                match self.said.add_constant(&number) {
                    Ok(()) => Ok(()),
                    Err(_) => Err(Stop::Memory),
                }
            }
            Numeral::Huge { .. } => Err(Stop::Fault),
        }
    }
}
