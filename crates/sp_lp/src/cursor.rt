//! The reader token by token: a token that may be a part of a section word waits for those behind it.
ghost use Rattle.std.specs.Prelude.{◌≡◌, true, ◌&&◌, not, if◌then◌else◌};
ghost use Rattle.sp_lp_words.specs.Sections.{pair_section};
ghost use Rattle.sp_lp_grammar.specs.Lexemes.{kind_of, is_colon, is_second, is_minus, is_continuous};
ghost use Rattle.sp_lp_grammar.specs.InnerMachine.{kind_step, heading_step, name_step};
ghost use Rattle.sp_lp_grammar.specs.InnerCursor.{origin, waiting, alone, line_begun, arrived, arrived_at, alone_at, behind_heading, behind_name, whole_taken, taken, take_mark};
ghost use Rattle.sp_lp.specs.States.{state_of};
ghost use Rattle.sp_lp.specs.Cursors.{cursor_of, mark_at};
ghost use Rattle.sp_lp.specs.Stops.{Gives, IsOutcome};
ghost use Rattle.sp_lp.specs.Walks.{outcome_at};

use crate::reader::Reader;
use crate::stops::Stop;
use sp_draft::Draft;
use sp_lp_grammar::Pending;
use sp_lp_words::{Class, Pair, Part, Section};
use std::alloc::Global;

/// Whether it is a colon or a double colon.
pub(crate) fn is_colon(class: &Class) -> bool
    ensures { result ≡ is_colon class.now }
{
    match class {
        Class::Colon => true,
        Class::DoubleColon => true,
        _ => false,
    }
}

/// Whether it is the second part of the section word.
pub(crate) fn is_second(pair: Pair, class: &Class) -> bool
    ensures { result ≡ is_second pair class.now }
{
    match pair {
        Pair::SubjectTo => matches!(class, Class::Name(Some(Part::Closes(Pair::SubjectTo)))),
        Pair::SuchThat => matches!(class, Class::Name(Some(Part::Closes(Pair::SuchThat)))),
        Pair::LazyConstraints => {
            matches!(
                class,
                Class::Name(Some(Part::Closes(Pair::LazyConstraints)))
            )
        }
        Pair::UserCuts => matches!(class, Class::Name(Some(Part::Closes(Pair::UserCuts)))),
    }
}

/// Whether it is a minus.
fn is_minus(class: &Class) -> bool
    ensures { result ≡ is_minus class.now }
{
    matches!(class, Class::Sign(true))
}

/// Whether it is the last part of `semi-continuous`.
fn is_continuous(class: &Class) -> bool
    ensures { result ≡ is_continuous class.now }
{
    matches!(class, Class::Name(Some(Part::Continuous)))
}

/// The reader of a file's tokens. After a refusal it is of no use.
#[derive(Drop)]
pub struct TokenReader<'a> {
    /// What the tokens that wait may be.
    pub pending: Pending,
    /// The first of them.
    pub word: &'a [u8],
    /// The reader before them.
    pub reader: Reader<'a>,
}

impl<'a> Reader<'a> {
    /// A token by itself.
    fn token(&mut self, first: bool, class: &Class, text: &'a [u8]) -> Result<(), Stop>
        ensures { Gives result (state_of self.new) (kind_step (kind_of class.now text.now) first (state_of self.old)) }
    {
        match class {
            Class::Name(_) => self.name(first, text),
            Class::Number(number) => self.number(first, number),
            Class::Sign(minus) => self.sign(first, *minus),
            Class::Relation(sense) => self.relation(*sense),
            Class::Colon => self.colon(),
            Class::DoubleColon => self.double_colon(),
            Class::Arrow => self.arrow(),
            Class::Other => Err(Stop::Fault),
        }
    }
}

impl<'a> TokenReader<'a> {
    /// The reader before the first token. It takes no memory.
    pub(crate) fn new(alloc: Global) -> TokenReader<'a>
        ensures { cursor_of result ≡ origin }
    {
        TokenReader {
            pending: Pending::Nothing,
            word: b"",
            reader: Reader::new(alloc),
        }
    }

    /// Waits with a first token.
    fn wait(&mut self, may: bool, pending: Pending, word: &'a [u8]) -> Result<(), Stop>
        ensures { Gives result (cursor_of self.new) (waiting may pending word.now (state_of self.old.reader)) }
    {
        if may {
            self.pending = pending;
            self.word = word;
            Ok(())
        } else {
            Err(Stop::Fault)
        }
    }

    /// Waits with a further token.
    fn wait_on(&mut self, may: bool, pending: Pending) -> Result<(), Stop>
        ensures { Gives result (cursor_of self.new) (waiting may pending self.old.word.now (state_of self.old.reader)) }
    {
        if may {
            self.pending = pending;
            Ok(())
        } else {
            Err(Stop::Fault)
        }
    }

    /// A token by itself.
    fn alone(&mut self, first: bool, class: &Class, text: &'a [u8]) -> Result<(), Stop>
        ensures { Gives result (cursor_of self.new) (alone (mark_at first class.now text.now) self.old.word.now (state_of self.old.reader)) }
    {
        match self.reader.token(first, class, text) {
            Ok(()) => {
                self.pending = Pending::Nothing;
                Ok(())
            }
            Err(stop) => Err(stop),
        }
    }

    /// The first token of a line.
    fn begin_line(&mut self, class: &Class, text: &'a [u8]) -> Result<(), Stop>
        ensures { Gives result (cursor_of self.new) (line_begun class.now (mark_at true class.now text.now) self.old.word.now (state_of self.old.reader)) }
    {
        match class {
            Class::Name(Some(Part::Whole(section))) => {
                let section = *section;
                let may = self.reader.can_head(section) || self.reader.can_label(text);
                self.wait(may, Pending::Whole(section), text)
            }
            Class::Name(Some(Part::Semi)) => {
                let may = self.reader.can_head(Section::Semi) || self.reader.can_label(text);
                self.wait(may, Pending::Semi, text)
            }
            Class::Name(Some(Part::Opens(pair))) => {
                let pair = *pair;
                let may = self.reader.can_head(pair.section()) || self.reader.can_name(text);
                self.wait(may, Pending::Opened(pair), text)
            }
            _ => self.alone(true, class, text),
        }
    }

    /// A token where nothing waits.
    fn arrive(&mut self, first: bool, class: &Class, text: &'a [u8]) -> Result<(), Stop>
        ensures { Gives result (cursor_of self.new) (arrived (mark_at first class.now text.now) self.old.word.now (state_of self.old.reader)) }
    {
        if first {
            self.begin_line(class, text)
        } else {
            self.alone(false, class, text)
        }
    }

    /// A token behind the word of a section.
    fn behind_heading(
        &mut self,
        section: Section,
        first: bool,
        class: &Class,
        text: &'a [u8],
    ) -> Result<(), Stop>
        ensures { Gives result (cursor_of self.new) (behind_heading section (mark_at first class.now text.now) self.old.word.now (state_of self.old.reader)) }
    {
        match self.reader.heading(section) {
            Ok(()) => self.arrive(first, class, text),
            Err(stop) => Err(stop),
        }
    }

    /// A token behind a name.
    fn behind_name(&mut self, first: bool, class: &Class, text: &'a [u8]) -> Result<(), Stop>
        ensures { Gives result (cursor_of self.new) (behind_name (mark_at first class.now text.now) self.old.word.now (state_of self.old.reader)) }
    {
        match self.reader.name(true, self.word) {
            Ok(()) => self.arrive(first, class, text),
            Err(stop) => Err(stop),
        }
    }

    /// A token behind a word of a section, or a colon behind a name.
    fn behind_whole(
        &mut self,
        section: Section,
        first: bool,
        class: &Class,
        text: &'a [u8],
    ) -> Result<(), Stop>
        ensures { Gives result (cursor_of self.new) (whole_taken section (mark_at first class.now text.now) self.old.word.now (state_of self.old.reader)) }
    {
        if is_colon(class) {
            match self.reader.name(true, self.word) {
                Ok(()) => self.alone(first, class, text),
                Err(stop) => Err(stop),
            }
        } else {
            self.behind_heading(section, first, class, text)
        }
    }

    /// A token behind `semi`.
    fn behind_semi(&mut self, first: bool, class: &Class, text: &'a [u8]) -> Result<(), Stop>
        ensures { Gives result (cursor_of self.new) (taken Pending.Semi (mark_at first class.now text.now) self.old.word.now (state_of self.old.reader)) }
    {
        if !first && is_minus(class) {
            let may = self.reader.can_head(Section::Semi);
            self.wait_on(may, Pending::SemiMinus)
        } else {
            self.behind_whole(Section::Semi, first, class, text)
        }
    }

    /// A token behind the first part of a section word.
    fn behind_opened(
        &mut self,
        pair: Pair,
        first: bool,
        class: &Class,
        text: &'a [u8],
    ) -> Result<(), Stop>
        ensures { Gives result (cursor_of self.new) (taken (Pending.Opened pair) (mark_at first class.now text.now) self.old.word.now (state_of self.old.reader)) }
    {
        if !first && is_second(pair, class) {
            let may = self.reader.can_head(pair.section());
            self.wait_on(may, Pending::Complete(pair.section()))
        } else {
            self.behind_name(first, class, text)
        }
    }

    /// A token behind all parts of a section word.
    fn behind_complete(
        &mut self,
        section: Section,
        first: bool,
        class: &Class,
        text: &'a [u8],
    ) -> Result<(), Stop>
        ensures { Gives result (cursor_of self.new) (taken (Pending.Complete section) (mark_at first class.now text.now) self.old.word.now (state_of self.old.reader)) }
    {
        if is_colon(class) {
            Err(Stop::Fault)
        } else {
            self.behind_heading(section, first, class, text)
        }
    }

    /// A token behind those that wait.
    fn take_behind(&mut self, first: bool, class: &Class, text: &'a [u8]) -> Result<(), Stop>
        ensures { Gives result (cursor_of self.new) (taken self.old.pending (mark_at first class.now text.now) self.old.word.now (state_of self.old.reader)) }
    {
        match self.pending {
            Pending::Nothing => self.arrive(first, class, text),
            Pending::Whole(section) => self.behind_whole(section, first, class, text),
            Pending::Semi => self.behind_semi(first, class, text),
            Pending::Opened(pair) => self.behind_opened(pair, first, class, text),
            Pending::SemiMinus => {
                self.wait_on(
                    !first && is_continuous(class),
                    Pending::Complete(Section::Semi),
                )
            }
            Pending::Complete(section) => self.behind_complete(section, first, class, text),
        }
    }

    /// The next token.
    #[tactic(auto, unfolding(sp_lp_grammar::specs::InnerCursor::take_mark))]
    pub(crate) fn take(&mut self, first: bool, class: &Class, text: &'a [u8]) -> Result<(), Stop>
        ensures { Gives result (cursor_of self.new) (take_mark (cursor_of self.old) (mark_at first class.now text.now)) }
    {
        self.take_behind(first, class, text)
    }

    /// The draft, where the file may end behind the last token.
    #[tactic(auto, unfolding(crate::specs::Walks::outcome_at))]
    pub(crate) fn finish(&mut self) -> Result<Draft, Stop>
        ensures { IsOutcome result (outcome_at (cursor_of self.old)) }
    {
        match self.pending {
            Pending::Nothing => self.reader.close(),
            Pending::Whole(section) => self.reader.close_at(section),
            Pending::Semi => self.reader.close_at(Section::Semi),
            Pending::Opened(_) => Err(Stop::Fault),
            Pending::SemiMinus => Err(Stop::Fault),
            Pending::Complete(section) => self.reader.close_at(section),
        }
    }
}
