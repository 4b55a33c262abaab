//! The fixed parts of what is printed.
ghost use Rattle.std.specs.Prelude.{◌≡◌};
ghost use Rattle.sp_printing.specs.Wording.{refusal_wording, spelling, too_many_wording};

use sp_lower::What;
use sp_meaning::Refusal;

/// A fixed part of the printed text. The parts that are whole lines end with their line feed.
#[derive(Clone, Copy, PartialEq, Eq, Debug)]
pub enum Wording {
    /// The one line for words that have no meaning.
    Usage,
    /// The line for a file whose name has another ending.
    BadArgument,
    /// The first line of a complete list.
    StatusDone,
    /// The first line of a run that the node limit stopped.
    StatusNodeLimit,
    /// What stands before the optimum.
    Optimum,
    /// The line of a model without a feasible point.
    Infeasible,
    /// What stands before the number of listed points.
    Solutions,
    /// What stands before the number of nodes.
    Nodes,
    /// What stands before the number of variables of a model that was read.
    ReadVariables,
    /// What stands before its number of rows.
    Rows,
    /// What ends a line.
    LineEnd,
    /// The refusal of a file that isn't of its format, before its argument.
    Syntax,
    /// The refusal of a number with too many digits, before its argument.
    WideNumeral,
    /// The refusal of a variable that isn't whole, before its argument.
    Continuous,
    /// The refusal of a variable without a bound, before its argument.
    OpenVariable,
    /// The refusal of a variable with a far bound, before its argument.
    WideBound,
    /// The refusal of a row that is too wide, before its argument.
    WideRow,
    /// The refusal of an objective that is too wide.
    WideObjective,
    /// The refusal of a name that is declared twice, before its argument.
    DuplicateName,
    /// The refusal of a row or a column that isn't declared, before its argument.
    UnknownName,
    /// The refusal of what isn't supported, before its argument.
    Unsupported,
    /// The refusal of a variable with a negative upper bound alone, before its argument.
    NegativeUpper,
    /// The refusal of too many variables.
    TooManyVariables,
    /// The refusal of too many rows.
    TooManyRows,
    /// The refusal of too many terms.
    TooManyTerms,
    /// The refusal of too many indicators.
    TooManyIndicators,
    /// The refusal of too many sets.
    TooManySos,
    /// The refusal of a bad indicator, before its argument.
    BadIndicator,
    /// The refusal of a bad set, before its argument.
    BadSos,
    /// The refusal of a file that isn't there.
    FileAbsent,
    /// The refusal of a file that can't be read.
    FileFault,
    /// The refusal of a file that is too long.
    FileTooLong,
}

/// What stands in the refusal of too much of this.
fn too_many_wording(what: What) -> Wording
    ensures { result ≡ too_many_wording what }
{
    match what {
        What::Variables => Wording::TooManyVariables,
        What::Rows => Wording::TooManyRows,
        What::Terms => Wording::TooManyTerms,
        What::Indicators => Wording::TooManyIndicators,
        What::Sos => Wording::TooManySos,
    }
}

/// What stands before the argument of a refusal.
pub fn wording_of(why: &Refusal) -> Wording
    ensures { result ≡ refusal_wording why.now }
{
    match why {
        Refusal::Syntax { .. } => Wording::Syntax,
        Refusal::WideNumeral { .. } => Wording::WideNumeral,
        Refusal::Continuous(_) => Wording::Continuous,
        Refusal::OpenVariable(_) => Wording::OpenVariable,
        Refusal::WideBound(_) => Wording::WideBound,
        Refusal::WideRow(_) => Wording::WideRow,
        Refusal::WideObjective => Wording::WideObjective,
        Refusal::DuplicateName { .. } => Wording::DuplicateName,
        Refusal::UnknownName { .. } => Wording::UnknownName,
        Refusal::Unsupported { .. } => Wording::Unsupported,
        Refusal::NegativeUpper(_) => Wording::NegativeUpper,
        Refusal::TooMany(what) => too_many_wording(*what),
        Refusal::BadIndicator(_) => Wording::BadIndicator,
        Refusal::BadSos(_) => Wording::BadSos,
        Refusal::FileAbsent => Wording::FileAbsent,
        Refusal::FileFault => Wording::FileFault,
        Refusal::FileTooLong => Wording::FileTooLong,
    }
}

/// The bytes of a fixed part. They last as long as is asked for, so that they stand beside other pieces in one list.
#[tactic(auto, unfolding(crate::specs::Wording::spelling))]
pub fn bytes_of<'a>(wording: Wording) -> &'a [u8]
    ensures { result.now ≡ spelling wording }
{
    match wording {
        Wording::Usage =>
            b"usage: solpool [--absgap D] [--relgap D] [--nodes N] [--demo N] [FILE]\n",
        Wording::BadArgument => b"refused 41 bad argument\n",
        Wording::StatusDone => b"status done\n",
        Wording::StatusNodeLimit => b"status nodelimit\n",
        Wording::Optimum => b"optimum ",
        Wording::Infeasible => b"infeasible\n",
        Wording::Solutions => b"solutions ",
        Wording::Nodes => b"nodes ",
        Wording::ReadVariables => b"read variables ",
        Wording::Rows => b" rows ",
        Wording::LineEnd => b"\n",
        Wording::Syntax => b"refused 1 syntax line ",
        Wording::WideNumeral => b"refused 2 wide numeral line ",
        Wording::Continuous => b"refused 3 continuous ",
        Wording::OpenVariable => b"refused 4 open variable ",
        Wording::WideBound => b"refused 5 wide bound ",
        Wording::WideRow => b"refused 6 wide row ",
        Wording::WideObjective => b"refused 7 wide objective",
        Wording::DuplicateName => b"refused 8 duplicate name line ",
        Wording::UnknownName => b"refused 9 unknown name line ",
        Wording::Unsupported => b"refused 10 unsupported line ",
        Wording::NegativeUpper => b"refused 11 negative upper ",
        Wording::TooManyVariables => b"refused 12 too many variables",
        Wording::TooManyRows => b"refused 12 too many rows",
        Wording::TooManyTerms => b"refused 12 too many terms",
        Wording::TooManyIndicators => b"refused 12 too many indicators",
        Wording::TooManySos => b"refused 12 too many sos",
        Wording::BadIndicator => b"refused 13 bad indicator ",
        Wording::BadSos => b"refused 14 bad sos ",
        Wording::FileAbsent => b"refused 51 file absent",
        Wording::FileFault => b"refused 52 file fault",
        Wording::FileTooLong => b"refused 53 file too long",
    }
}
