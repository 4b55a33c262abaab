//! What the words of commands stand for.

ghost use Rattle.std.specs.Prelude.{◌≡◌};
ghost use Rattle.sp_command_words.specs.Keywords.{verb_for, group_for, pool_key_for, limit_key_for, filter_kind_for, shown_for, symbol_for};

/// The first word of a command.
#[derive(Clone, Copy, PartialEq, Eq, Debug)]
pub enum Verb {
    /// Reads a model file.
    Read,
    /// Finds the optimum.
    Optimize,
    /// Lists the points within the gaps.
    Populate,
    /// Lists the best points.
    NBest,
    /// Changes a setting.
    Set,
    /// Adds or removes a filter.
    Filter,
    /// Shows something.
    Display,
    /// Writes the tree.
    Write,
    /// Ends the session.
    Quit,
}

/// The settings that stand together.
#[derive(Clone, Copy, PartialEq, Eq, Debug)]
pub enum Group {
    /// Those of the pool.
    Pool,
    /// The limits.
    Limits,
}

/// A setting of the pool.
#[derive(Clone, Copy, PartialEq, Eq, Debug)]
pub enum PoolKey {
    /// The absolute gap.
    AbsGap,
    /// The relative gap.
    RelGap,
    /// The greatest number of members.
    Capacity,
    /// The intensity.
    Intensity,
    /// What a full pool drops.
    Replace,
}

/// A limit.
#[derive(Clone, Copy, PartialEq, Eq, Debug)]
pub enum LimitKey {
    /// The most points that one populate finds.
    Populate,
    /// The most nodes of a tree.
    Nodes,
}

/// A command on filters.
#[derive(Clone, Copy, PartialEq, Eq, Debug)]
pub enum FilterKind {
    /// A filter on a sum is added.
    Range,
    /// A filter on distances is added.
    Diversity,
    /// A filter is removed.
    Delete,
}

/// A word of an expression that is no name.
#[derive(Clone, Copy, PartialEq, Eq, Debug)]
pub enum Symbol {
    /// `+`
    Plus,
    /// `-`
    Minus,
    /// `<=`
    AtMost,
}

/// What a display command shows.
#[derive(Clone, Copy, PartialEq, Eq, Debug)]
pub enum Shown {
    /// The found points.
    Found,
    /// The members of the pool.
    Pool,
    /// The settings.
    Settings,
    /// The size of the model and of its tree.
    Model,
    /// The filters.
    Filters,
}

pub(crate) fn verb_for(code: u16) -> Option<Verb>
    ensures { result ≡ verb_for code }
{
    match code {
        1 => Some(Verb::Read),
        2 => Some(Verb::Optimize),
        3 => Some(Verb::Populate),
        4 => Some(Verb::NBest),
        5 => Some(Verb::Set),
        6 => Some(Verb::Filter),
        7 => Some(Verb::Display),
        8 => Some(Verb::Write),
        9 => Some(Verb::Quit),
        _ => None,
    }
}

pub(crate) fn group_for(code: u16) -> Option<Group>
    ensures { result ≡ group_for code }
{
    match code {
        1 => Some(Group::Pool),
        2 => Some(Group::Limits),
        _ => None,
    }
}

pub(crate) fn pool_key_for(code: u16) -> Option<PoolKey>
    ensures { result ≡ pool_key_for code }
{
    match code {
        1 => Some(PoolKey::AbsGap),
        2 => Some(PoolKey::RelGap),
        3 => Some(PoolKey::Capacity),
        4 => Some(PoolKey::Intensity),
        5 => Some(PoolKey::Replace),
        _ => None,
    }
}

pub(crate) fn limit_key_for(code: u16) -> Option<LimitKey>
    ensures { result ≡ limit_key_for code }
{
    match code {
        1 => Some(LimitKey::Populate),
        2 => Some(LimitKey::Nodes),
        _ => None,
    }
}

pub(crate) fn filter_kind_for(code: u16) -> Option<FilterKind>
    ensures { result ≡ filter_kind_for code }
{
    match code {
        1 => Some(FilterKind::Range),
        2 => Some(FilterKind::Diversity),
        3 => Some(FilterKind::Delete),
        _ => None,
    }
}

pub(crate) fn shown_for(code: u16) -> Option<Shown>
    ensures { result ≡ shown_for code }
{
    match code {
        1 => Some(Shown::Found),
        2 => Some(Shown::Pool),
        3 => Some(Shown::Settings),
        4 => Some(Shown::Model),
        5 => Some(Shown::Filters),
        _ => None,
    }
}

pub(crate) fn symbol_for(code: u16) -> Option<Symbol>
    ensures { result ≡ symbol_for code }
{
    match code {
        1 => Some(Symbol::Plus),
        2 => Some(Symbol::Minus),
        3 => Some(Symbol::AtMost),
        _ => None,
    }
}
