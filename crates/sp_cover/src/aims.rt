//! What a step of a search is for.

ghost use Rattle.std.specs.Prelude.{◌↔◌, IsTrue};
ghost use Rattle.sp_cover.specs.Moves.{IsPast};

/// What a step of a search is for.
#[derive(Clone, Copy, PartialEq, Eq, Debug)]
pub enum Aim {
    /// A better point than all found before.
    Improve,
    /// Each point that isn't above the cut.
    Collect {
        /// The cut, in the scaled units of the objective.
        cut: i128,
    },
}

/// Whether a bound closes a box under the aim, where `best` is the least value found so far.
pub fn is_past(aim: &Aim, best: &Option<i128>, least: &i128) -> bool
    ensures { IsTrue result ↔ IsPast aim.now best.now least.now }
{
    match aim {
        Aim::Improve => match best {
            Some(value) => *value <= *least,
            None => false,
        },
        Aim::Collect { cut } => *cut < *least,
    }
}
