//! The heads of sections.
ghost use Rattle.std.specs.Prelude.{◌≡◌};
ghost use Rattle.sp_mps_words.specs.Heads.{head_for};

/// A section of an MPS file.
#[derive(Clone, Copy, PartialEq, Eq, Debug)]
pub enum Head {
    /// The name of the model.
    Name,
    /// The direction of the objective.
    Objsense,
    /// The rows with their kinds; the first one of kind N is the objective.
    Rows,
    /// The columns with their coefficients, and the markers of integer columns.
    Columns,
    /// The right-hand sides.
    Rhs,
    /// The ranges, which give a row a second side.
    Ranges,
    /// The bounds of columns.
    Bounds,
    /// The rows that hold where a column has a value.
    Indicators,
    /// The end of the file.
    Endata,
}

/// The head with the code in the table.
pub(crate) fn head_for(code: u16) -> Option<Head>
    ensures { result ≡ head_for code }
{
    match code {
        1 => Some(Head::Name),
        2 => Some(Head::Objsense),
        3 => Some(Head::Rows),
        4 => Some(Head::Columns),
        5 => Some(Head::Rhs),
        6 => Some(Head::Ranges),
        7 => Some(Head::Bounds),
        8 => Some(Head::Indicators),
        9 => Some(Head::Endata),
        _ => None,
    }
}
