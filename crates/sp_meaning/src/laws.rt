//! Laws of what files mean: each is the contract of a function that does nothing.
ghost use Rattle.std.specs.Prelude.{◌≡◌, ℕ, List, Some};
ghost use Rattle.sp_meaning.specs.declared.formats.FileFormat.{FileFormat as Format};
ghost use Rattle.sp_meaning.specs.declared.models.Meaning.{Meaning as Said};
ghost use Rattle.sp_meaning.specs.Formats.{format_of};
ghost use Rattle.sp_meaning.specs.Models.{Means};

/// A law: the file of a name with some bytes means one thing, and each file whose name has a model's ending means
/// something.
pub fn files_mean_one_thing()
    ensures one { (name bytes : List ℕ) (m n : Said) → Means name bytes m → Means name bytes n → m ≡ n }
    ensures some { (name bytes : List ℕ) (format : Format) → format_of name ≡ Some format → (m : Said) × Means name bytes m }
{
    sp_lp::files_have_one_answer();
    sp_lp::files_have_some_answer();
    sp_mps::files_have_one_answer();
    sp_mps::files_have_some_answer();
}
