//! The steps at a name.
ghost use Rattle.std.specs.Prelude.{◌≡◌, ◌||◌, false, Some, None, Option};
ghost use Rattle.sp_lp_grammar.specs.Meaning.{with_set_name, with_set};
ghost use Rattle.sp_lp_grammar.specs.InnerMachine.{name_step, new_set, kinded, saying, set_word};
ghost use Rattle.sp_lp.specs.States.{state_of, said_of};
ghost use Rattle.sp_lp.specs.Stops.{Gives};

use crate::numbers::{mirrored, one};
use crate::reader::Reader;
use crate::stops::Stop;
use sp_lp_grammar::{Place, Sum};
use sp_lp_words::{Section, is_free, set_kind_of};
use sp_model::SosKind;

impl<'a> Reader<'a> {
    /// Whether no set before has the name.
    fn is_new_set(&self, name: &[u8]) -> bool
        ensures { result ≡ new_set name.now (state_of self.now) }
    {
        !self.said.has_set(name)
    }

    /// The kind of a set, if it is one.
    fn set_kind(&mut self, kind: Option<SosKind>) -> Result<(), Stop>
        ensures { Gives result (state_of self.new) (kinded kind (said_of self.old.said) (state_of self.old)) }
    {
        match kind {
            None => Err(Stop::Fault),
            Some(kind) => {
                self.place = Place::SetWord;
                self.kind = kind;
                Ok(())
            }
        }
    }

    /// A set begins, if this is a kind.
    pub(crate) fn open_set(&mut self, kind: Option<SosKind>) -> Result<(), Stop>
        ensures { Gives result (state_of self.new) (set_word kind (said_of self.old.said) (state_of self.old)) }
    {
        match kind {
            None => Err(Stop::Fault),
            Some(kind) => match self.said.open_set(kind) {
                Ok(()) => self.go(Place::Members),
                Err(_) => Err(Stop::Memory),
            },
        }
    }

    /// A name behind the word of a section of sets.
    fn first_set(&mut self, name: &'a [u8]) -> Result<(), Stop>
        ensures { Gives result (state_of self.new) (name_step Place.Sets false name.now (state_of self.old)) }
    {
        if set_kind_of(name).is_some() || self.is_new_set(name) {
            self.keep(Place::SetName, name)
        } else {
            Err(Stop::Fault)
        }
    }

    /// A name behind a name and a colon among sets.
    fn later_set(&mut self, name: &[u8]) -> Result<(), Stop>
        ensures { Gives result (state_of self.new) (name_step Place.MemberColon false name.now (state_of self.old)) }
    {
        if self.is_new_set(self.name) {
            match set_kind_of(name) {
                None => Err(Stop::Fault),
                Some(kind) => match self.said.name_set(self.name) {
                    Ok(()) => self.set_kind(Some(kind)),
                    Err(_) => Err(Stop::Memory),
                },
            }
        } else {
            Err(Stop::Fault)
        }
    }

    /// A name in a list of names.
    fn listed(&mut self, section: Section, name: &[u8]) -> Result<(), Stop>
        ensures { Gives result (state_of self.new) (name_step (Place.Names section) false name.now (state_of self.old)) }
    {
        match self.said.list(section, name) {
            Ok(()) => self.go(Place::Names(section)),
            Err(_) => Err(Stop::Memory),
        }
    }

    /// The word behind the name of a bound.
    fn bound_word(&mut self, word: &[u8]) -> Result<(), Stop>
        ensures { Gives result (state_of self.new) (name_step Place.BoundName false word.now (state_of self.old)) }
    {
        if is_free(word) {
            match self.said.free(self.name) {
                Ok(()) => self.go(Place::Bounds(false)),
                Err(_) => Err(Stop::Memory),
            }
        } else {
            Err(Stop::Fault)
        }
    }

    /// The name of a bound behind its value.
    fn bound_right(&mut self, name: &'a [u8]) -> Result<(), Stop>
        ensures { Gives result (state_of self.new) (name_step Place.BoundRight false name.now (state_of self.old)) }
    {
        let sense = mirrored(self.sense);
        let value = self.value;
        match self.said.bound(sense, &value, name) {
            Ok(()) => self.keep(Place::BoundMiddle, name),
            Err(_) => Err(Stop::Memory),
        }
    }

    /// A name behind a sum that a value stands before.
    fn behind_right(&mut self, first: bool, name: &'a [u8]) -> Result<(), Stop>
        ensures { Gives result (state_of self.new) (name_step (Place.After Sum.Right) first name.now (state_of self.old)) }
    {
        match self.right_row() {
            Ok(()) => self.begin(first, Place::RowName, name),
            Err(_) => Err(Stop::Memory),
        }
    }

    /// A name behind a row that says that a variable is 0 or 1.
    fn behind_bit(&mut self, first: bool, name: &'a [u8]) -> Result<(), Stop>
        ensures { Gives result (state_of self.new) (name_step Place.Bit first name.now (state_of self.old)) }
    {
        match self.bit_row() {
            Ok(()) => self.begin(first, Place::RowName, name),
            Err(_) => Err(Stop::Memory),
        }
    }

    /// A name.
    pub(crate) fn name(&mut self, first: bool, name: &'a [u8]) -> Result<(), Stop>
        ensures { Gives result (state_of self.new) (name_step self.old.place first name.now (state_of self.old)) }
    {
        match self.place {
            Place::Objective => self.keep(Place::ObjectiveName, name),
            Place::CostOpen => self.term(Sum::Cost, false, &one(), name),
            Place::Signed(sum) => self.term(sum, self.negative, &one(), name),
            Place::Numbered(sum) => self.coefficient(sum, name),
            Place::After(Sum::Right) => self.behind_right(first, name),
            Place::Rows(fresh) => self.begin(fresh || first, Place::RowName, name),
            Place::Labelled => self.keep(Place::LeadName, name),
            Place::Bit => self.behind_bit(first, name),
            Place::Bounds(fresh) => self.begin(fresh || first, Place::BoundName, name),
            Place::BoundName => self.bound_word(name),
            Place::BoundRight => self.bound_right(name),
            Place::BoundMiddle => self.begin(first, Place::BoundName, name),
            Place::Names(section) => self.listed(section, name),
            Place::Sets => self.first_set(name),
            Place::SetLabelled => self.set_kind(set_kind_of(name)),
            Place::Members => self.keep(Place::MemberName, name),
            Place::MemberColon => self.later_set(name),
            _ => Err(Stop::Fault),
        }
    }
}
