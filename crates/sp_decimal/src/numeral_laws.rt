//! Laws of numerals and their texts: each is the contract of a function that does nothing.

ghost use Rattle.std.specs.Prelude.{◌≡◌, ◌↔◌, ℕ, ℤ, List, Result, Ok};
ghost use Rattle.sp_decimal.specs.DecimalFraction.{DecimalFraction, IsDecimal};
ghost use Rattle.sp_decimal.specs.Grammar.{unsigned, top, bottom};
ghost use Rattle.sp_decimal.specs.Numerals.{numeral};
ghost use Rattle.sp_decimal.specs.Printing.{printed};
ghost use Rattle.sp_decimal.specs.Readings.{IsOrdinary, IsReading, IsWritten};
ghost use Rattle.sp_decimal.specs.declared.numerals.Numeral.{Numeral};
ghost use Rattle.sp_decimal.specs.declared.numerals.Numeral.TheVariants.{Exact};
ghost use Rattle.sp_decimal.specs.declared.numerals.NumeralFault.{NumeralFault};

/// A text is read as an answer exactly where the answer says of it what is so, and one answer alone does.
pub fn numerals_have_one_reading()
    ensures says { (text : List ℕ) (answer : Result Numeral NumeralFault) → (numeral text ≡ answer) ↔ IsReading text answer }
    ensures one { (text : List ℕ) (answer other : Result Numeral NumeralFault)
        → IsReading text answer → IsReading text other → answer ≡ other }
{}

/// A numeral below 10^30 in magnitude that thirty digits and thirty places can write in some way is read as a decimal.
pub fn written_is_exact()
    ensures { (text : List ℕ) (digits places : ℕ) → IsOrdinary text
        → IsWritten (top (unsigned text)) (bottom (unsigned text)) digits places
        → (d : DecimalFraction) × (numeral text ≡ Ok (Exact d)) }
{}

/// The printed text of a decimal is read as that decimal.
pub fn decimals_are_read_back()
    ensures { (p : ℤ) (s : ℕ) → IsDecimal p s → numeral (printed p s) ≡ Ok (Exact (record { p = p; s = s })) }
{}
