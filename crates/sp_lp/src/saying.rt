//! What a file said so far.
ghost use Rattle.std.specs.Prelude.{◌≡◌, [], None, Some, not, length, slice_index_or, slice_set, OnOk, IfOk};
ghost use Rattle.sp_draft.specs.Names.{place_of, with_name, is_among};
ghost use Rattle.sp_lp_grammar.specs.Meaning.{nothing, plain_var, declared, with_term, with_constant, with_cost, with_row, with_indicator, with_row_name, with_set_name, bounded, unbounded, integer_kind, listed, with_var, closed, with_set, draft_of};
ghost use Rattle.sp_lp.specs.States.{said_of};

use crate::known_names::{KnownNames, add_name};
use crate::row_names::{has_name, put_name};
use indexmap::IndexSet;
use sp_decimal::{Decimal, Numeral};
use sp_draft::{Draft, DraftIndicator, DraftRow, DraftSos, DraftVar, Names, Sense, Sides, VarKind};
use sp_lp_words::Section;
use sp_model::{Items, NoMemory, SosKind, VarId};
use std::alloc::Global;
use std::mem;

/// What a file said so far.
#[derive(Drop)]
pub struct Saying<'a> {
    /// Where the lists take their memory from.
    pub alloc: Global,
    /// Whether the objective is to be as great as possible.
    pub maximize: bool,
    /// The names of the variables, in declared order.
    pub names: KnownNames,
    /// The variables, in the order of their names.
    pub vars: Vec<DraftVar>,
    /// The terms of the sum, or the members of the set, that is being read.
    pub terms: Items<(VarId, Decimal)>,
    /// The objective's terms.
    pub cost: Items<(VarId, Decimal)>,
    /// The objective's constants.
    pub constants: Items<Decimal>,
    /// The rows.
    pub rows: Items<DraftRow>,
    /// The indicators.
    pub indicators: Items<DraftIndicator>,
    /// The kind of the set that is being read, if one is.
    pub set_kind: Option<SosKind>,
    /// The sets.
    pub sets: Items<DraftSos>,
    /// The names of rows and indicators.
    pub row_names: IndexSet<&'a [u8]>,
    /// The names of sets.
    pub set_names: Names,
}

/// A variable of which nothing is stated.
fn plain_var() -> DraftVar
    ensures { result ≡ plain_var }
{
    DraftVar {
        kind: VarKind::Continuous,
        lower: None,
        upper: None,
        semi: false,
    }
}

/// The variable with what a bound states of it.
fn bounded(sense: Sense, value: &Numeral, mut var: DraftVar) -> DraftVar
    ensures { result ≡ bounded sense value.now var }
{
    match sense {
        Sense::Less => var.upper = Some(*value),
        Sense::Greater => var.lower = Some(*value),
        Sense::Equal => {
            var.lower = Some(*value);
            var.upper = Some(*value);
        }
    }
    var
}

/// The variable without bounds.
fn unbounded(mut var: DraftVar) -> DraftVar
    ensures { result ≡ unbounded var }
{
    var.lower = Some(Numeral::Huge { negative: true });
    var.upper = Some(Numeral::Huge { negative: false });
    var
}

/// The kind of a variable that is integer too.
fn integer_kind(kind: VarKind) -> VarKind
    ensures { result ≡ integer_kind kind }
{
    match kind {
        VarKind::Binary => VarKind::Binary,
        VarKind::Continuous => VarKind::Integer,
        VarKind::Integer => VarKind::Integer,
    }
}

/// The variable with what a list of names says of it.
fn listed(section: Section, mut var: DraftVar) -> DraftVar
    ensures { result ≡ listed section var }
{
    match section {
        Section::General => var.kind = integer_kind(var.kind),
        Section::Binary => var.kind = VarKind::Binary,
        Section::Semi => var.semi = true,
        _ => {}
    }
    var
}

/// The place of the name among the names, or how many there are.
#[tactic(auto, using(crate::proofs::FoundLemmas::place_past))]
fn place_of(names: &KnownNames, name: &[u8]) -> VarId
    ensures { result ≡ place_of names.now name.now }
{
    match names.find(name) {
        Some(id) => id,
        None => VarId::new(names.len() as u32),
    }
}

impl<'a> Saying<'a> {
    /// Nothing yet. It takes no memory.
    pub(crate) fn new(alloc: Global, maximize: bool) -> Saying<'a>
        ensures { said_of result ≡ nothing maximize }
    {
        Saying {
            alloc,
            maximize,
            names: KnownNames::new(alloc),
            vars: Vec::new(alloc),
            terms: Items::new(alloc),
            cost: Items::new(alloc),
            constants: Items::new(alloc),
            rows: Items::new(alloc),
            indicators: Items::new(alloc),
            set_kind: None,
            sets: Items::new(alloc),
            row_names: IndexSet::new(alloc),
            set_names: Names::new(alloc),
        }
    }

    /// Declares the name, unless it is declared, where it isn't known.
    fn look_up(&mut self, name: &[u8]) -> Result<VarId, NoMemory>
        ensures said { OnOk result (said_of self.new ≡ declared name.now (said_of self.old)) }
        ensures place { IfOk result (λ id. id ≡ place_of self.old.names name.now) }
    {
        // Without a mention of the enum within a variable, the prover makes no plan for a call that lends the variables.
        let _held: Option<Numeral> = None;
        match self.names.look_up(name) {
            Some(id) => Ok(id),
            None => {
                let id = self.names.add(name)?;
                match self.vars.push(plain_var()) {
                    Ok(()) => Ok(id),
                    Err(_) => Err(NoMemory),
                }
            }
        }
    }

    /// Declares the name, unless it is declared.
    pub(crate) fn declare(&mut self, name: &[u8]) -> Result<VarId, NoMemory>
        ensures said { OnOk result (said_of self.new ≡ declared name.now (said_of self.old)) }
        ensures place { IfOk result (λ id. id ≡ place_of self.old.names name.now) }
    {
        match self.names.guessed(name) {
            Some(id) => Ok(id),
            None => self.look_up(name),
        }
    }

    /// A further term of the sum, or a further member of the set.
    pub(crate) fn add_term(&mut self, name: &[u8], number: &Decimal) -> Result<(), NoMemory>
        ensures { OnOk result (said_of self.new ≡ with_term name.now number.now (said_of self.old)) }
    {
        let id = self.declare(name)?;
        match self.terms.push((id, *number)) {
            Ok(()) => Ok(()),
            Err(_) => Err(NoMemory),
        }
    }

    /// A constant of the objective.
    pub(crate) fn add_constant(&mut self, number: &Decimal) -> Result<(), NoMemory>
        ensures { OnOk result (said_of self.new ≡ with_constant number.now (said_of self.old)) }
    {
        match self.constants.push(*number) {
            Ok(()) => Ok(()),
            Err(_) => Err(NoMemory),
        }
    }

    /// The terms that were read since they were taken last.
    fn take_terms(&mut self) -> Items<(VarId, Decimal)>
        ensures terms { result ≡ self.old.terms }
        ensures rest { self.new ≡ record self.old { terms = [] } }
    {
        mem::replace(&mut self.terms, Items::new(self.alloc))
    }

    /// The objective is complete.
    pub(crate) fn end_cost(&mut self)
        ensures { said_of self.new ≡ with_cost (said_of self.old) }
    {
        self.cost = self.take_terms();
    }

    /// The sum is a row's.
    pub(crate) fn add_row(&mut self, sides: Sides) -> Result<(), NoMemory>
        ensures { OnOk result (said_of self.new ≡ with_row sides (said_of self.old)) }
    {
        let terms = self.take_terms();
        match self.rows.push(DraftRow { terms, sides }) {
            Ok(()) => Ok(()),
            Err(_) => Err(NoMemory),
        }
    }

    /// The sum is that of a row which has to hold where the variable has the value.
    pub(crate) fn add_indicator(
        &mut self,
        name: &[u8],
        on: bool,
        sides: Sides,
    ) -> Result<(), NoMemory>
        ensures { OnOk result (said_of self.new ≡ with_indicator name.now on sides (said_of self.old)) }
    {
        let var = place_of(&self.names, name);
        let terms = self.take_terms();
        let indicator = DraftIndicator {
            var,
            on,
            row: DraftRow { terms, sides },
        };
        match self.indicators.push(indicator) {
            Ok(()) => Ok(()),
            Err(_) => Err(NoMemory),
        }
    }

    /// The variable at the place; one of which nothing is stated where there is none.
    fn var_at(&self, place: usize) -> DraftVar
        ensures { result ≡ slice_index_or self.now.vars.items place plain_var }
    {
        match self.vars.get(place) {
            None => plain_var(),
            Some(var) => *var,
        }
    }

    /// Puts the variable at the place, if there is one.
    fn set_var(&mut self, place: usize, var: DraftVar)
        ensures { said_of self.new ≡ record (said_of self.old) { vars = slice_set self.old.vars.items place var } }
    {
        if place < self.vars.len() {
            self.vars[place] = var;
        }
    }

    /// What a bound states of the variable.
    pub(crate) fn bound(
        &mut self,
        sense: Sense,
        value: &Numeral,
        name: &[u8],
    ) -> Result<(), NoMemory>
        ensures { OnOk result (said_of self.new ≡ with_var (bounded sense value.now) name.now (said_of self.old)) }
    {
        let place = self.declare(name)?.index();
        let var = self.var_at(place);
        self.set_var(place, bounded(sense, value, var));
        Ok(())
    }

    /// The variable has no bounds.
    pub(crate) fn free(&mut self, name: &[u8]) -> Result<(), NoMemory>
        ensures { OnOk result (said_of self.new ≡ with_var unbounded name.now (said_of self.old)) }
    {
        let place = self.declare(name)?.index();
        let var = self.var_at(place);
        self.set_var(place, unbounded(var));
        Ok(())
    }

    /// What a list of names says of the variable.
    pub(crate) fn list(&mut self, section: Section, name: &[u8]) -> Result<(), NoMemory>
        ensures { OnOk result (said_of self.new ≡ with_var (listed section) name.now (said_of self.old)) }
    {
        let place = self.declare(name)?.index();
        let var = self.var_at(place);
        self.set_var(place, listed(section, var));
        Ok(())
    }

    /// A row or an indicator has the name. Tells whether none before has it.
    pub(crate) fn name_row(&mut self, name: &'a [u8]) -> Result<bool, NoMemory>
        ensures said { OnOk result (said_of self.new ≡ with_row_name (Some name.now) (said_of self.old)) }
        ensures new { IfOk result (λ new. new ≡ not (is_among (said_of self.old).row_names name.now)) }
    {
        put_name(&mut self.row_names, name)
    }

    /// A set has the name.
    pub(crate) fn name_set(&mut self, name: &[u8]) -> Result<(), NoMemory>
        ensures { OnOk result (said_of self.new ≡ with_set_name (Some name.now) (said_of self.old)) }
    {
        add_name(&mut self.set_names, name)?;
        Ok(())
    }

    /// Whether a row or an indicator has the name.
    pub(crate) fn has_row(&self, name: &[u8]) -> bool
        ensures { result ≡ is_among (said_of self.now).row_names name.now }
    {
        has_name(&self.row_names, name)
    }

    /// Whether a set has the name.
    #[tactic(auto, using(crate::proofs::FoundLemmas::is_some_found))]
    pub(crate) fn has_set(&self, name: &[u8]) -> bool
        ensures { result ≡ is_among self.now.set_names name.now }
    {
        self.set_names.find(name).is_some()
    }

    /// The set that is being read is complete, if there is one.
    pub(crate) fn close_set(&mut self) -> Result<(), NoMemory>
        ensures { OnOk result (said_of self.new ≡ closed (said_of self.old)) }
    {
        match self.set_kind {
            None => Ok(()),
            Some(kind) => {
                let members = self.take_terms();
                self.set_kind = None;
                match self.sets.push(DraftSos { kind, members }) {
                    Ok(()) => Ok(()),
                    Err(_) => Err(NoMemory),
                }
            }
        }
    }

    /// A set begins.
    pub(crate) fn open_set(&mut self, kind: SosKind) -> Result<(), NoMemory>
        ensures { OnOk result (said_of self.new ≡ with_set kind (said_of self.old)) }
    {
        self.close_set()?;
        self.set_kind = Some(kind);
        Ok(())
    }

    /// The draft. Nothing is left of what was said.
    #[tactic(auto, using(crate::proofs::FoundLemmas::closed_draft))]
    pub(crate) fn take_draft(&mut self) -> Result<Draft, NoMemory>
        ensures { IfOk result (λ draft. draft ≡ draft_of (said_of self.old)) }
    {
        match self.close_set() {
            Err(error) => Err(error),
            Ok(()) => {
                let alloc = self.alloc;
                let names = mem::replace(&mut self.names, KnownNames::new(alloc));
                let vars = mem::replace(&mut self.vars, Vec::new(alloc));
                Ok(Draft {
                    maximize: self.maximize,
                    names: names.into_names(),
                    vars: Items::from_vec(vars),
                    cost: mem::replace(&mut self.cost, Items::new(alloc)),
                    constants: mem::replace(&mut self.constants, Items::new(alloc)),
                    rows: mem::replace(&mut self.rows, Items::new(alloc)),
                    indicators: mem::replace(&mut self.indicators, Items::new(alloc)),
                    sos: mem::replace(&mut self.sets, Items::new(alloc)),
                })
            }
        }
    }
}
