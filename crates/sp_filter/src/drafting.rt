//! Filters as a user states them.

ghost use Rattle.std.specs.Prelude.{◌↔◌, ◌<◌, All, IsTrue};
ghost use Rattle.sp_filter.specs.Lowering.{AreDraftKnown};

use sp_decimal::Decimal;
use sp_model::{Items, VarId};

/// A filter as a user states it, before it is scaled. A bound that is `None` is none.
#[derive(Debug, Drop)]
pub enum FilterDraft {
    /// The sum of `coefficient * x`.
    Range {
        /// A variable and its coefficient, as written; a variable may stand there more than once.
        terms: Items<(VarId, Decimal)>,
        /// The least value that the sum may have.
        lo: Option<Decimal>,
        /// The greatest value that the sum may have.
        hi: Option<Decimal>,
    },
    /// The sum of `weight * |x - reference|`.
    Diversity {
        /// A variable, its weight and its reference, as written; a variable may stand there more than once.
        terms: Items<(VarId, Decimal, i64)>,
        /// The least value that the sum may have.
        lo: Option<Decimal>,
        /// The greatest value that the sum may have.
        hi: Option<Decimal>,
    },
}

/// Whether each variable is one of so many.
fn are_known(terms: &[(VarId, Decimal)], count: usize) -> bool
    ensures { IsTrue result ↔ All (λ t. t.0 < count) terms.now }
{
    terms.iter().all(|term| term.0.index() < count)
}

/// Whether each variable is one of so many.
fn are_weighted_known(terms: &[(VarId, Decimal, i64)], count: usize) -> bool
    ensures { IsTrue result ↔ All (λ t. t.0 < count) terms.now }
{
    terms.iter().all(|term| term.0.index() < count)
}

impl FilterDraft {
    /// Whether each of its variables is one of so many.
    pub fn is_known(&self, count: usize) -> bool
        ensures { IsTrue result ↔ AreDraftKnown self.now count }
    {
        match self {
            FilterDraft::Range { terms, .. } => are_known(terms.as_slice(), count),
            FilterDraft::Diversity { terms, .. } => are_weighted_known(terms.as_slice(), count),
        }
    }
}
