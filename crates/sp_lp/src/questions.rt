//! What may come next, asked of a reader without a step.
ghost use Rattle.std.specs.Prelude.{◌≡◌, ◌||◌, is_some, true};
ghost use Rattle.sp_lp_grammar.specs.InnerMachine.{ended, name_step};
ghost use Rattle.sp_lp_grammar.specs.InnerCursor.{can_head, can_name, can_label};
ghost use Rattle.sp_lp.specs.Numerals.{is_exact};
ghost use Rattle.sp_lp.specs.States.{state_of};

use crate::headings::place_behind;
use crate::reader::Reader;
use sp_decimal::Numeral;
use sp_lp_grammar::{Place, Sum};
use sp_lp_words::{Section, is_free, set_kind_of};

/// Whether the number isn't huge.
fn is_exact(number: &Numeral) -> bool
    ensures { result ≡ is_exact number.now }
{
    match number {
        Numeral::Exact(_) => true,
        Numeral::Huge { .. } => false,
    }
}

impl<'a> Reader<'a> {
    /// Whether a section may end here.
    fn may_end(&self) -> bool
        ensures { result ≡ is_some (ended self.now.place (state_of self.now)) }
    {
        match self.place {
            Place::Objective => true,
            Place::ObjectiveName => true,
            Place::CostOpen => true,
            Place::Numbered(Sum::Cost) => is_exact(&self.number),
            Place::After(Sum::Cost) => true,
            Place::After(Sum::Right) => true,
            Place::Rows(_) => true,
            Place::Bit => true,
            Place::Bounds(_) => true,
            Place::BoundMiddle => true,
            Place::Names(_) => true,
            Place::Sets => true,
            Place::Members => true,
            _ => false,
        }
    }

    /// Whether the word of the section may stand here.
    pub(crate) fn can_head(&self, section: Section) -> bool
        ensures { result ≡ can_head section (state_of self.now) }
    {
        match self.place {
            Place::Start => matches!(section, Section::Minimize | Section::Maximize),
            _ => self.may_end() && place_behind(section).is_some(),
        }
    }

    /// Whether the name may stand here, as the first token of a line.
    pub(crate) fn can_name(&self, name: &[u8]) -> bool
        ensures { result ≡ can_name name.now (state_of self.now) }
    {
        match self.place {
            Place::Objective => true,
            Place::CostOpen => true,
            Place::Signed(_) => true,
            Place::Numbered(_) => is_exact(&self.number),
            Place::After(Sum::Right) => true,
            Place::Rows(_) => true,
            Place::Labelled => true,
            Place::Bit => true,
            Place::Bounds(_) => true,
            Place::BoundName => is_free(name),
            Place::BoundRight => true,
            Place::BoundMiddle => true,
            Place::Names(_) => true,
            Place::Sets => set_kind_of(name).is_some() || !self.said.has_set(name),
            Place::SetLabelled => set_kind_of(name).is_some(),
            Place::Members => true,
            Place::MemberColon => !self.said.has_set(self.name) && set_kind_of(name).is_some(),
            _ => false,
        }
    }

    /// Whether the name and a colon or a double colon may stand here, the name as the first token of a line.
    pub(crate) fn can_label(&self, name: &[u8]) -> bool
        ensures { result ≡ can_label name.now (state_of self.now) }
    {
        match self.place {
            Place::Objective => true,
            Place::After(Sum::Right) => !self.said.has_row(name),
            Place::Rows(_) => !self.said.has_row(name),
            Place::Bit => !self.said.has_row(name),
            Place::Sets => set_kind_of(name).is_some() || !self.said.has_set(name),
            Place::SetLabelled => set_kind_of(name).is_some(),
            Place::Members => true,
            Place::MemberColon => !self.said.has_set(self.name) && set_kind_of(name).is_some(),
            _ => false,
        }
    }
}
