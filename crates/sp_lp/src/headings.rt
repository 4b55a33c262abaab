//! The steps at the word of a section.
ghost use Rattle.std.specs.Prelude.{◌≡◌, Some, None, OnOk, is_some};
ghost use Rattle.sp_lp_grammar.specs.InnerMachine.{finished, ended, place_behind, directed, heading_step, turned_to, moved};
ghost use Rattle.sp_lp_grammar.specs.InnerCursor.{draft_at};
ghost use Rattle.sp_lp.specs.States.{state_of};
ghost use Rattle.sp_lp.specs.Stops.{Gives, IsOutcome};

use crate::reader::Reader;
use crate::saying::Saying;
use crate::stops::Stop;
use sp_draft::Draft;
use sp_lp_grammar::{Place, Sum};
use sp_lp_words::Section;

/// Where the entries of a section stand.
pub(crate) fn place_behind(section: Section) -> Option<Place>
    ensures { result ≡ place_behind section }
{
    match section {
        Section::Rows => Some(Place::Rows(true)),
        Section::Bounds => Some(Place::Bounds(true)),
        Section::General => Some(Place::Names(Section::General)),
        Section::Binary => Some(Place::Names(Section::Binary)),
        Section::Semi => Some(Place::Names(Section::Semi)),
        Section::Sets => Some(Place::Sets),
        Section::End => Some(Place::Done),
        _ => None,
    }
}

impl<'a> Reader<'a> {
    /// The objective is complete.
    fn end_cost(&mut self) -> Result<(), Stop>
        ensures { Gives result (state_of self.new) (ended Place.Objective (state_of self.old)) }
    {
        self.said.end_cost();
        Ok(())
    }

    /// The objective is complete behind a name with which it began.
    fn end_lead(&mut self) -> Result<(), Stop>
        ensures { Gives result (state_of self.new) (ended Place.ObjectiveName (state_of self.old)) }
    {
        match self.lead_term() {
            Ok(()) => self.end_cost(),
            Err(_) => Err(Stop::Memory),
        }
    }

    /// The objective is complete behind a constant.
    fn end_constant(&mut self) -> Result<(), Stop>
        ensures { Gives result (state_of self.new) (ended (Place.Numbered Sum.Cost) (state_of self.old)) }
    {
        match self.constant() {
            Ok(()) => self.end_cost(),
            Err(stop) => Err(stop),
        }
    }

    /// A row behind a value is complete.
    fn end_right(&mut self) -> Result<(), Stop>
        ensures { Gives result (state_of self.new) (ended (Place.After Sum.Right) (state_of self.old)) }
    {
        match self.right_row() {
            Ok(()) => Ok(()),
            Err(_) => Err(Stop::Memory),
        }
    }

    /// A row that says that a variable is 0 or 1 is complete.
    fn end_bit(&mut self) -> Result<(), Stop>
        ensures { Gives result (state_of self.new) (ended Place.Bit (state_of self.old)) }
    {
        match self.bit_row() {
            Ok(()) => Ok(()),
            Err(_) => Err(Stop::Memory),
        }
    }

    /// Completes what stands before the word of a section.
    fn end(&mut self) -> Result<(), Stop>
        ensures { Gives result (state_of self.new) (ended self.old.place (state_of self.old)) }
    {
        match self.place {
            Place::Objective => self.end_cost(),
            Place::ObjectiveName => self.end_lead(),
            Place::CostOpen => self.end_cost(),
            Place::Numbered(Sum::Cost) => self.end_constant(),
            Place::After(Sum::Cost) => self.end_cost(),
            Place::After(Sum::Right) => self.end_right(),
            Place::Rows(_) => Ok(()),
            Place::Bit => self.end_bit(),
            Place::Bounds(_) => Ok(()),
            Place::BoundMiddle => Ok(()),
            Place::Names(_) => Ok(()),
            Place::Sets => Ok(()),
            Place::Members => Ok(()),
            _ => Err(Stop::Fault),
        }
    }

    /// The word of the objective.
    fn direct(&mut self, section: Section) -> Result<(), Stop>
        ensures { Gives result (state_of self.new) (directed section (state_of self.old)) }
    {
        match section {
            Section::Minimize => {
                self.said = Saying::new(self.said.alloc, false);
                self.go(Place::Objective)
            }
            Section::Maximize => {
                self.said = Saying::new(self.said.alloc, true);
                self.go(Place::Objective)
            }
            _ => Err(Stop::Fault),
        }
    }

    /// Goes behind the word of a section.
    fn enter(&mut self, section: Section) -> Result<(), Stop>
        ensures { Gives result (state_of self.new) (turned_to section (Some (state_of self.old))) }
    {
        match place_behind(section) {
            None => Err(Stop::Fault),
            Some(place) => match self.said.close_set() {
                Ok(()) => self.go(place),
                Err(_) => Err(Stop::Memory),
            },
        }
    }

    /// The word of a later section.
    fn turn(&mut self, section: Section) -> Result<(), Stop>
        ensures { Gives result (state_of self.new) (turned_to section (ended self.old.place (state_of self.old))) }
    {
        match self.end() {
            Ok(()) => self.enter(section),
            Err(stop) => Err(stop),
        }
    }

    /// The word of a section.
    pub(crate) fn heading(&mut self, section: Section) -> Result<(), Stop>
        ensures { Gives result (state_of self.new) (heading_step self.old.place section (state_of self.old)) }
    {
        match self.place {
            Place::Start => self.direct(section),
            _ => self.turn(section),
        }
    }

    /// The draft, where the file may end.
    pub(crate) fn close(&mut self) -> Result<Draft, Stop>
        ensures { IsOutcome result (finished self.old.place (state_of self.old).said) }
    {
        match self.place {
            Place::Done => match self.said.take_draft() {
                Ok(draft) => Ok(draft),
                Err(_) => Err(Stop::Memory),
            },
            _ => Err(Stop::Fault),
        }
    }

    /// The draft, where the file ends with the word of the section.
    pub(crate) fn close_at(&mut self, section: Section) -> Result<Draft, Stop>
        ensures { IsOutcome result (draft_at (heading_step self.old.place section (state_of self.old))) }
    {
        match self.heading(section) {
            Ok(()) => self.close(),
            Err(stop) => Err(stop),
        }
    }
}
