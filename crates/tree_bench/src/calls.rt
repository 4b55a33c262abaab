//! Calls on a tree and on the filters that are held. Each is made where its conditions are met, and refused elsewhere.

ghost use Rattle.std.specs.Prelude.{◌≡◌, ◌<◌, length, IsTrue};
ghost use Rattle.sp_model.specs.Boxes.{point_count, CanSplit};
ghost use Rattle.sp_tree.specs.Splits.{box_at};
ghost use Rattle.sp_tree.specs.Trees.{IsClosing, node_at};
ghost use Rattle.sp_tree.specs.declared.nodes.Kind.TheVariants as Kind;

use crate::numbers::{number, small, value};
use smallvec::SmallVec;
use sp_activity::Reason;
use sp_base::Text;
use sp_dual::Multipliers;
use sp_filter::{FilterDraft, FilterId, Filters};
use sp_model::{BoxOf, Items, Model, ModelParts, NoMemory, RowId, VarId};
use sp_tree::{Bound, Keep, Kind, NodeId, SplitRefusal, Tree};
use std::alloc::{AllocError, Global};
use std::str::SplitWhitespace;

/// What is printed of a call.
#[derive(Clone, Copy, Debug)]
pub enum Answer {
    /// So many nodes, splits or boxes.
    Grown(u32),
    /// The two nodes of a split.
    Split(u32, u32),
    /// The limit leaves no room for a split.
    Limit,
    /// The leaf is closed.
    Closed,
    /// So many leaves were opened.
    Opened(u32),
    /// The list stands at this place.
    At(u32),
    /// The table is full.
    Full,
    /// The filter of this number is held.
    Held(u32),
    /// The filter of this number isn't held any more.
    Dropped(u32),
    /// The call may not be made.
    Refused,
    /// There was no memory.
    NoMemory,
}

/// A tree of one leaf over the box of the next numbers: how many variables, and the least and the greatest value of
/// each.
pub fn tree_over(alloc: Global, words: &mut SplitWhitespace<'_>) -> Result<Tree, NoMemory> {
    let mut lower = Items::new(alloc);
    let mut upper = Items::new(alloc);
    for at in 0..small(words) {
        lower.push(value(words))?;
        upper.push(value(words))?;
    }
    Tree::new(alloc, BoxOf { lower, upper })
}

/// Whether the node is an open leaf.
pub fn is_open(tree: &Tree, id: NodeId) -> bool
    ensures known { IsTrue result → id < length tree.now.nodes }
    ensures is_open { IsTrue result → (node_at tree.now.nodes id).kind ≡ Kind.Open }
{
    id.place() < tree.size() && tree.node(id).is_open()
}

/// Whether the box has a point and can be split there.
pub fn is_divided(bounds: &BoxOf, var: VarId, at: i64) -> bool
    ensures filled { IsTrue result → 0 < point_count bounds.now }
    ensures lawful { IsTrue result → CanSplit bounds.now var at }
{
    if !bounds.has_points() {
        return false;
    }
    bounds.can_split(var, at)
}

/// Whether the node's box can be split there. Where there is no memory to tell, it isn't.
pub fn is_node_divided(tree: &Tree, id: NodeId, var: VarId, at: i64) -> bool
    requires { id < length tree.now.nodes }
    ensures filled { IsTrue result → 0 < point_count (box_at tree.now.boxes id) }
    ensures lawful { IsTrue result → CanSplit (box_at tree.now.boxes id) var at }
{
    match tree.box_of(id) {
        Ok(bounds) => is_divided(&bounds, var, at),
        Err(_) => false,
    }
}

/// `split ID VAR AT LIMIT`
pub fn split(tree: &mut Tree, words: &mut SplitWhitespace<'_>) -> Answer {
    let id = NodeId::new(small(words));
    let var = VarId::new(small(words));
    let at = value(words);
    let limit = small(words);
    if !is_open(tree, id) {
        return Answer::Refused;
    }
    if !is_node_divided(tree, id, var, at) {
        return Answer::Refused;
    }
    match tree.split(id, var, at, limit) {
        Ok((left, right)) => Answer::Split(left.place(), right.place()),
        Err(SplitRefusal::NodeLimit) => Answer::Limit,
        Err(SplitRefusal::NoMemory) => Answer::NoMemory,
    }
}

/// The kind of the next numbers: `dead VAR`, `bounded BY LEAST`, `screened FILTER` or `point SERIAL`.
fn kind_of(word: &str, words: &mut SplitWhitespace<'_>) -> Kind {
    match word {
        "dead" => Kind::Dead(Reason::Empty(VarId::new(small(words)))),
        "bounded" => Kind::Bounded(Bound {
            by: small(words),
            least: number(words),
        }),
        "screened" => Kind::Screened(FilterId::new(small(words))),
        "point" => Kind::Point(small(words)),
        _ => Kind::Open,
    }
}

/// Whether the box has one point.
fn is_point(bounds: &BoxOf) -> bool
    ensures { IsTrue result → point_count bounds.now ≡ 1 }
{
    match bounds.count() {
        Some(count) => count == 1,
        None => false,
    }
}

/// Whether the node's box has one point. Where there is no memory to tell, it hasn't.
fn has_one_point(tree: &Tree, id: NodeId) -> bool
    requires { id < length tree.now.nodes }
    ensures { IsTrue result → point_count (box_at tree.now.boxes id) ≡ 1 }
{
    match tree.box_of(id) {
        Ok(bounds) => is_point(&bounds),
        Err(_) => false,
    }
}

/// Whether an open leaf may get the kind.
fn may_close(tree: &Tree, id: NodeId, kind: &Kind) -> bool
    requires { id < length tree.now.nodes }
    ensures { IsTrue result → IsClosing tree.now.lists (box_at tree.now.boxes id) kind.now }
{
    match kind {
        Kind::Dead(_) => true,
        Kind::Screened(_) => true,
        Kind::Bounded(bound) => (bound.by as usize) < tree.multipliers().len(),
        Kind::Point(_) => has_one_point(tree, id),
        Kind::Split { .. } => false,
        Kind::Open => false,
    }
}

/// Closes a leaf: a word, the leaf, and the numbers of the kind.
pub fn close(tree: &mut Tree, word: &str, words: &mut SplitWhitespace<'_>) -> Answer {
    let id = NodeId::new(small(words));
    let kind = kind_of(word, words);
    if !is_open(tree, id) {
        return Answer::Refused;
    }
    if !may_close(tree, id, &kind) {
        return Answer::Refused;
    }
    tree.close(id, kind);
    Answer::Closed
}

/// The list of a divisor and so many rows from the first on, each with the multiplier.
fn list_of(alloc: Global, words: &mut SplitWhitespace<'_>) -> Option<Multipliers> {
    let divisor = number(words);
    let count = small(words);
    let first = small(words);
    let multiplier = number(words);
    let mut entries = SmallVec::new(alloc);
    for place in 0..count {
        let row = RowId::new(first.saturating_add(place));
        if entries.push((row, multiplier)).is_err() {
            return None;
        }
    }
    Multipliers::from_entries(divisor, entries)
}

/// `keep DIVISOR COUNT FIRST MULTIPLIER`
pub fn keep(alloc: Global, tree: &mut Tree, words: &mut SplitWhitespace<'_>) -> Answer {
    let Some(list) = list_of(alloc, words) else {
        return Answer::Refused;
    };
    match tree.keep(list) {
        Ok(Keep::At(place)) => Answer::At(place),
        Ok(Keep::Full) => Answer::Full,
        Err(_) => Answer::NoMemory,
    }
}

/// A name of one byte.
fn name_of(alloc: Global, words: &mut SplitWhitespace<'_>) -> Result<Text, AllocError> {
    let mut name = Vec::new(alloc);
    name.push((small(words) % 256) as u8)?;
    Ok(Text::from_vec(name))
}

/// The model without variables.
fn empty_model(alloc: Global) -> Option<Model> {
    let parts = ModelParts {
        maximize: false,
        scale: 0,
        constant: 0,
        cost: Items::new(alloc),
        lower: Items::new(alloc),
        upper: Items::new(alloc),
        semi: Items::new(alloc),
        rows: Items::new(alloc),
        indicators: Items::new(alloc),
        sos: Items::new(alloc),
    };
    Model::build(alloc, parts).ok()
}

/// Holds a filter without terms.
fn hold_as(alloc: Global, filters: &mut Filters, model: &Model, name: Text) -> Answer {
    let draft = FilterDraft::Range {
        terms: Items::new(alloc),
        lo: None,
        hi: None,
    };
    match filters.add(model, name, draft) {
        Ok(id) => Answer::Held(id.number()),
        Err(_) => Answer::Refused,
    }
}

/// `hold NAME`
pub fn hold(alloc: Global, filters: &mut Filters, words: &mut SplitWhitespace<'_>) -> Answer {
    match name_of(alloc, words) {
        Ok(name) => match empty_model(alloc) {
            Some(model) => hold_as(alloc, filters, &model, name),
            None => Answer::NoMemory,
        },
        Err(_) => Answer::NoMemory,
    }
}

/// `drop NAME`
pub fn drop_filter(
    alloc: Global,
    filters: &mut Filters,
    words: &mut SplitWhitespace<'_>,
) -> Answer {
    let Ok(name) = name_of(alloc, words) else {
        return Answer::NoMemory;
    };
    match filters.remove(&name) {
        Ok(id) => Answer::Dropped(id.number()),
        Err(_) => Answer::Refused,
    }
}
