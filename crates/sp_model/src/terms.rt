//! The rule of a sum's terms.

ghost use Rattle.std.specs.Prelude.{◌≡◌, ◌↔◌, pos, IsTrue};
ghost use Rattle.sp_model.specs.Rounds.{terms_rise};
ghost use Rattle.sp_model.specs.Rules.{AreTermsLawful};

use crate::ids::VarId;

fn is_zero(value: &i128) -> bool
    ensures { IsTrue result ↔ (value.now ≡ pos 0) }
{
    *value == 0
}

/// Whether the terms are lawful for so many variables.
pub fn are_terms_lawful(count: usize, terms: &[(VarId, i128)]) -> bool
    ensures lawful { IsTrue result ↔ AreTermsLawful count terms.now }
    ensures test { result ≡ terms_rise count 0 terms.now }
{
    let mut next = 0;
    for term in terms {
        let var = term.0.index();
        if var < next {
            return false;
        }
        if count <= var {
            return false;
        }
        if is_zero(&term.1) {
            return false;
        }
        next = var + 1;
    }
    true
}
