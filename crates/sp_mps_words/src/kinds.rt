//! The kinds of rows and of bounds.
ghost use Rattle.std.specs.Prelude.{◌≡◌};
ghost use Rattle.sp_mps_words.specs.Kinds.{row_kind_for, bound_kind_for, direction_for, has_value};

/// What a row is held to (the row types of the MPS file format).
#[derive(Clone, Copy, PartialEq, Eq, Debug)]
pub enum RowKind {
    /// `N`: nothing. The first one is the objective.
    Free,
    /// `L`: at most its right-hand side.
    Less,
    /// `G`: at least its right-hand side.
    Greater,
    /// `E`: its right-hand side.
    Equal,
}

/// What a bound line does to its column (the bound types of the MPS file format).
#[derive(Clone, Copy, PartialEq, Eq, Debug)]
pub enum BoundKind {
    /// `UP`: the greatest value.
    Upper,
    /// `LO`: the least value.
    Lower,
    /// `FX`: the only value.
    Fixed,
    /// `FR`: neither a least nor a greatest value.
    Unbounded,
    /// `MI`: no least value.
    NoLower,
    /// `PL`: no greatest value.
    NoUpper,
    /// `BV`: 0 or 1.
    Binary,
    /// `LI`: the least value, and the column is integer.
    WholeLower,
    /// `UI`: the greatest value, and the column is integer.
    WholeUpper,
    /// `SC`: the greatest value, and the column may be 0 besides.
    SemiUpper,
}

impl BoundKind {
    /// Whether a line with a bound of this kind has a value.
    pub fn has_value(self) -> bool
        ensures { result ≡ has_value self }
    {
        match self {
            BoundKind::Upper => true,
            BoundKind::Lower => true,
            BoundKind::Fixed => true,
            BoundKind::Unbounded => false,
            BoundKind::NoLower => false,
            BoundKind::NoUpper => false,
            BoundKind::Binary => false,
            BoundKind::WholeLower => true,
            BoundKind::WholeUpper => true,
            BoundKind::SemiUpper => true,
        }
    }
}

/// The kind of row with the code in the table.
pub(crate) fn row_kind_for(code: u16) -> Option<RowKind>
    ensures { result ≡ row_kind_for code }
{
    match code {
        1 => Some(RowKind::Free),
        2 => Some(RowKind::Less),
        3 => Some(RowKind::Greater),
        4 => Some(RowKind::Equal),
        _ => None,
    }
}

/// The kind of bound with the code in the table.
pub(crate) fn bound_kind_for(code: u16) -> Option<BoundKind>
    ensures { result ≡ bound_kind_for code }
{
    match code {
        1 => Some(BoundKind::Upper),
        2 => Some(BoundKind::Lower),
        3 => Some(BoundKind::Fixed),
        4 => Some(BoundKind::Unbounded),
        5 => Some(BoundKind::NoLower),
        6 => Some(BoundKind::NoUpper),
        7 => Some(BoundKind::Binary),
        8 => Some(BoundKind::WholeLower),
        9 => Some(BoundKind::WholeUpper),
        10 => Some(BoundKind::SemiUpper),
        _ => None,
    }
}

/// Whether the direction with the code in the table asks to maximise.
pub(crate) fn direction_for(code: u16) -> Option<bool>
    ensures { result ≡ direction_for code }
{
    match code {
        1 => Some(true),
        2 => Some(false),
        _ => None,
    }
}
