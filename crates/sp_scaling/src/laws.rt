//! Laws of collected terms: each is the contract of a function that does nothing.
ghost use Rattle.std.specs.Prelude.{◌≡◌, ◌<◌, ◌≤◌, ℕ, List, Bool, All};
ghost use Rattle.sp_model.specs.Boxes.{Bounds};
ghost use Rattle.sp_model.specs.Rules.{AreTermsLawful};
ghost use Rattle.sp_model.specs.Sums.{Term, width_over};
ghost use Rattle.sp_scaling.specs.Scaling.{collected, turned_terms};

/// Collected terms over known variables are a model's: they rise strictly, and none is 0. They are no wider than the terms
/// that were put together.
pub fn collected_terms_are_lawful()
    ensures lawful { (count : ℕ) (ts : List Term) → All (λ t. t.0 < count) ts → AreTermsLawful count (collected ts) }
    ensures narrow { (b : Bounds) (ts : List Term) → width_over b (collected ts) ≤ width_over b ts }
{}

/// Negated, lawful terms stay lawful and as wide as they are.
pub fn turned_terms_are_lawful()
    ensures lawful { (count : ℕ) (negate : Bool) (ts : List Term) → AreTermsLawful count ts → AreTermsLawful count (turned_terms negate ts) }
    ensures wide { (b : Bounds) (negate : Bool) (ts : List Term) → width_over b (turned_terms negate ts) ≡ width_over b ts }
{}
