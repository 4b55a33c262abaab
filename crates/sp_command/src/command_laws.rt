//! Laws of command lines: each is the contract of a function that does nothing.

ghost use Rattle.std.specs.Prelude.{◌≡◌, ◌↔◌, List, Some};
ghost use Rattle.sp_command.specs.declared.places.Place.TheVariants as Place;
ghost use Rattle.sp_command_words.specs.Keywords.{Word};
ghost use Rattle.sp_command.specs.Filters.{SumTerm, sum_from};
ghost use Rattle.sp_command.specs.Sums.{BeginsWithSum};

/// The sum that words of a range filter are read as is the one that the grammar of sums has for them.
pub fn sums_are_read_by_their_grammar()
    ensures { (words : List Word) (terms : List SumTerm) (rest : List Word)
        → (sum_from Place.First words ≡ Some (terms, rest)) ↔ BeginsWithSum words terms rest }
{}
