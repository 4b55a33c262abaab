//! Filters in whole numbers.

ghost use Rattle.std.specs.Prelude.{◌≡◌, ◌↔◌, ◌-◌, ◌^◌, ◌≤◌, List, length, ℤ, false, not, IsTrue, SomeIff};
ghost use Rattle.sp_model.specs.Boxes.{IsWithin};
ghost use Rattle.sp_model.specs.Models.{root_of};
ghost use Rattle.sp_filter.specs.Filters.{filter_sum, least_allowed, most_allowed, is_passed, least_sum, most_sum, is_closed, AreKnown, AreWeightsLawful, IsNarrow, Fits, box_at, terms_width, filter_width};

use crate::sums::{
    least_distances, least_multiples, most_distances, most_multiples, multiples, weighted_distances,
};
use crate::widths::{
    GREATEST_WIDTH, are_known, are_weighted_known, are_weights_lawful, is_roomy, room_beside_bound,
    room_beside_distances, room_beside_multiples,
};
use sp_model::{BoxOf, Items, Model, Point, VarId, is_at_least, is_at_most};

/// A filter: a sum that has to lie between two bounds. A bound that is `None` is none. Coefficients, weights and bounds are
/// multiplied by `10^scale`.
#[derive(Debug, Drop)]
pub enum Filter {
    /// The sum of `coefficient * x`.
    Range {
        /// A variable and its coefficient.
        terms: Items<(VarId, i128)>,
        /// The least value that the sum may have.
        lo: Option<i128>,
        /// The greatest value that the sum may have.
        hi: Option<i128>,
        /// The power of ten by which all is multiplied, at most 30.
        scale: u8,
    },
    /// The sum of `weight * |x - reference|`.
    Diversity {
        /// A variable, its weight and its reference; a variable may stand there more than once.
        terms: Items<(VarId, i128, i64)>,
        /// The least value that the sum may have.
        lo: Option<i128>,
        /// The greatest value that the sum may have.
        hi: Option<i128>,
        /// The power of ten by which the weights and the bounds are multiplied, at most 30.
        scale: u8,
    },
}

impl Filter {
    /// The least value that the sum may have.
    pub(crate) fn least_allowed(&self) -> &Option<i128>
        ensures { result.now ≡ least_allowed self.now }
    {
        match self {
            Filter::Range { lo, .. } => lo,
            Filter::Diversity { lo, .. } => lo,
        }
    }

    /// The greatest value that the sum may have.
    pub(crate) fn most_allowed(&self) -> &Option<i128>
        ensures { result.now ≡ most_allowed self.now }
    {
        match self {
            Filter::Range { hi, .. } => hi,
            Filter::Diversity { hi, .. } => hi,
        }
    }

    /// The sum at a point.
    fn sum(&self, x: &[i64]) -> i128
        requires { IsNarrow self.now (box_at x.now) }
        ensures { result ≡ filter_sum self.now x.now }
    {
        match self {
            Filter::Range { terms, .. } => multiples(terms.as_slice(), x),
            Filter::Diversity { terms, .. } => weighted_distances(terms.as_slice(), x),
        }
    }

    /// The least values of the terms over a box, added up.
    fn least_sum(&self, bounds: &BoxOf) -> i128
        requires { IsNarrow self.now bounds.now }
        ensures { result ≡ least_sum self.now bounds.now }
    {
        match self {
            Filter::Range { terms, .. } => least_multiples(terms.as_slice(), bounds),
            Filter::Diversity { terms, .. } => least_distances(terms.as_slice(), bounds),
        }
    }

    /// The greatest values of the terms over a box, added up.
    fn most_sum(&self, bounds: &BoxOf) -> i128
        requires { IsNarrow self.now bounds.now }
        ensures { result ≡ most_sum self.now bounds.now }
    {
        match self {
            Filter::Range { terms, .. } => most_multiples(terms.as_slice(), bounds),
            Filter::Diversity { terms, .. } => most_distances(terms.as_slice(), bounds),
        }
    }

    fn is_known(&self, count: usize) -> bool
        ensures { IsTrue result ↔ AreKnown self.now count }
    {
        match self {
            Filter::Range { terms, .. } => are_known(terms.as_slice(), count),
            Filter::Diversity { terms, .. } => are_weighted_known(terms.as_slice(), count),
        }
    }

    fn has_lawful_weights(&self) -> bool
        ensures { IsTrue result ↔ AreWeightsLawful self.now }
    {
        match self {
            Filter::Range { .. } => true,
            Filter::Diversity { terms, .. } => are_weights_lawful(terms.as_slice()),
        }
    }

    /// What is left of the room beside the width of the terms, or `None` where they are wider.
    fn room_beside_terms(&self, model: &Model, room: u128) -> Option<u128>
        requires { AreKnown self.now (length model.now.lower) }
        ensures { let width = terms_width self.now (root_of model.now) in SomeIff result (width ≤ room) (room - width) }
    {
        match self {
            Filter::Range { terms, .. } => room_beside_multiples(model, terms.as_slice(), room),
            Filter::Diversity { terms, .. } => room_beside_distances(model, terms.as_slice(), room),
        }
    }

    fn is_narrow(&self, model: &Model) -> bool
        requires { AreKnown self.now (length model.now.lower) }
        ensures { IsTrue result ↔ (filter_width self.now (root_of model.now) ≤ 10 ^ 36) }
    {
        match self.room_beside_terms(model, GREATEST_WIDTH) {
            None => false,
            Some(room) => match room_beside_bound(self.least_allowed(), room) {
                None => false,
                Some(room) => is_roomy(self.most_allowed(), room),
            },
        }
    }

    /// Whether the filter's variables are the model's, no diversity weight is negative, and its width is at most 10^36.
    pub fn fits(&self, model: &Model) -> bool
        ensures { IsTrue result ↔ Fits model.now self.now }
    {
        self.is_known(model.parts().lower.len())
            && self.has_lawful_weights()
            && self.is_narrow(model)
    }

    /// Whether the filter's sum at the point lies between the bounds that it has.
    pub fn passes(&self, x: &Point) -> bool
        requires { IsNarrow self.now (box_at x.now) }
        ensures { result ≡ is_passed self.now x.now }
    {
        let sum = self.sum(x.as_slice());
        is_at_least(self.least_allowed(), &sum) && is_at_most(self.most_allowed(), &sum)
    }

    /// Whether the greatest values that the terms have over the box add up to less than the least allowed sum, or the least
    /// ones to more than the greatest allowed sum.
    pub fn closed(&self, b: &BoxOf) -> bool
        requires { IsNarrow self.now b.now }

        // Exactly then; so no point of a closed box passes, and a box of one point is closed exactly where it fails.
        ensures exact { result ≡ is_closed self.now b.now }
        ensures sound { IsTrue result → (x : List ℤ) → IsWithin b.now x → is_passed self.now x ≡ false }
        ensures point { (x : List ℤ) → b.now ≡ box_at x → result ≡ not (is_passed self.now x) }
    {
        self.is_missed(b)
    }

    fn is_missed(&self, b: &BoxOf) -> bool
        requires { IsNarrow self.now b.now }
        ensures { result ≡ is_closed self.now b.now }
    {
        !is_at_least(self.least_allowed(), &self.most_sum(b))
            || !is_at_most(self.most_allowed(), &self.least_sum(b))
    }
}
