//! The words and numbers of a text, and the task that its first ones say. A number that is missing is read as 0.

use std::str::SplitWhitespace;

/// In which order open leaves are taken, and where their boxes come from.
#[derive(Clone, Copy)]
pub enum Order {
    /// That of a run to the optimum.
    Usual,
    /// A random one, with one cursor for all steps.
    ByCursor,
    /// A random one, with each box from the tree.
    FromTree,
    /// That of a run to the optimum, whose whole tree is told.
    Told,
}

/// How a model is searched.
#[derive(Clone, Copy)]
pub struct Task {
    /// The order of the open leaves.
    pub order: Order,
    /// The most nodes.
    pub limit: u32,
    /// Where the random numbers begin.
    pub seed: u32,
}

/// What a line is about.
#[derive(Clone, Copy)]
pub enum Kind {
    /// A variable's bounds.
    Var,
    /// The constant of the objective.
    Constant,
    /// The costs.
    Cost,
    /// A row.
    Row,
    /// An indicator.
    Gate,
    /// A special ordered set.
    Set,
    /// What a semi-integer variable may be beside 0.
    Core,
    /// Nothing that is known.
    Other,
}

/// What the next word names.
pub fn next_kind(words: &mut SplitWhitespace<'_>) -> Kind {
    match words.next() {
        None => Kind::Other,
        Some(word) => kind_of(word),
    }
}

fn kind_of(word: &str) -> Kind {
    match word {
        "var" => Kind::Var,
        "constant" => Kind::Constant,
        "cost" => Kind::Cost,
        "row" => Kind::Row,
        "gate" => Kind::Gate,
        "set" => Kind::Set,
        "core" => Kind::Core,
        _ => Kind::Other,
    }
}

/// The next number.
pub fn number(words: &mut SplitWhitespace<'_>) -> i64 {
    match words.next() {
        None => 0,
        Some(word) => word.parse::<i64>().unwrap_or(0),
    }
}

/// The next number, the greatest one of 32 bits where it isn't one of these.
pub fn small(words: &mut SplitWhitespace<'_>) -> u32 {
    u32::try_from(number(words)).unwrap_or(u32::MAX)
}

/// The usual order for 0 and, with its tree, for 3; a random one with a cursor for 1, and one without for all other
/// numbers.
fn order_of(number: i64) -> Order {
    match number {
        0 => Order::Usual,
        1 => Order::ByCursor,
        3 => Order::Told,
        _ => Order::FromTree,
    }
}

/// The task of the first three numbers of a text: the order, the most nodes, and where the random numbers begin.
pub fn task_of(text: &str) -> Task {
    let mut words = text.split_whitespace();
    Task {
        order: order_of(number(&mut words)),
        limit: small(&mut words),
        seed: small(&mut words),
    }
}
