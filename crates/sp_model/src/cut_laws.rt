//! Laws of the cut: each is the contract of a function that does nothing.

ghost use Rattle.std.specs.Prelude.{◌↔◌, ℤ, ◌≤ℤ◌, ℕ};
ghost use Rattle.sp_model.specs.declared.gaps.Gaps.{Gaps};
ghost use Rattle.sp_model.specs.Cuts.{cut_of, ceiling, IsWithinGaps};

/// The cut is the greatest whole number within the gaps.
pub fn cut_is_greatest()
    ensures { (best : ℤ) (gaps : Gaps) (scale : ℕ) (z : ℤ)
        → (z ≤ℤ cut_of best gaps scale) ↔ IsWithinGaps best gaps scale z }
{}

/// The cut isn't below the optimum, nor above the ceiling.
pub fn cut_is_between()
    ensures optimum { (best : ℤ) (gaps : Gaps) (scale : ℕ) → best ≤ℤ ceiling → best ≤ℤ cut_of best gaps scale }
    ensures ceiling { (best : ℤ) (gaps : Gaps) (scale : ℕ) → cut_of best gaps scale ≤ℤ ceiling }
{}
