//! The search that a state begins with.

ghost use Rattle.std.specs.Prelude.{◌≡◌, ◌++◌, ◌∷◌, [], ◌<◌, length, IfOk, OnOk};
ghost use Rattle.sp_model.specs.declared.parts.ModelParts.{ModelParts};
ghost use Rattle.sp_filter.specs.Held.{FilterList};
ghost use Rattle.sp_bound.specs.StatedLists.{stated_lists};
ghost use Rattle.sp_dual.specs.Lists.{zero_list};
ghost use Rattle.sp_tree.specs.Tables.{list_at};
ghost use Rattle.sp_cover.specs.Cover.{AreScreened, IsSearch};
ghost use Rattle.sp_cover.specs.Moves.{moved_to};
ghost use Rattle.sp_search.specs.States.{first_search};

use sp_bound::{stated_lists, stated_lists_are_lists};
use sp_cover::{Search, screens_last, searches_last};
use sp_dual::Multipliers;
use sp_model::{Model, NoMemory};
use sp_tree::Keep;
use std::alloc::Global;

/// Keeps one more list, last in the table. One that is there already, or would make the table too heavy, is refused as
/// if there were no memory: the stated lists all differ, and weigh 129 at most.
fn keep_one(search: &mut Search, list: Multipliers) -> Result<(), NoMemory>
    ensures lists { OnOk result (search.new.tree.lists ≡ search.old.tree.lists ++ list ∷ []) }
    ensures boxes { search.new.tree.boxes ≡ search.old.tree.boxes }
    ensures nodes { search.new.tree.nodes ≡ search.old.tree.nodes }
    ensures rest { search.new ≡ moved_to search.old search.new.tree }
    ensures search { (m : ModelParts) → IsSearch m search.old → IsSearch m search.new }
    ensures screened { (fs : FilterList) → AreScreened fs search.old.tree → AreScreened fs search.new.tree }
{
    let before = search.tree().multipliers().len();
    match search.keep(list)? {
        Keep::Full => Err(NoMemory),
        Keep::At(_) => {
            if before < search.tree().multipliers().len() {
                Ok(())
            } else {
                Err(NoMemory)
            }
        }
    }
}

/// Keeps the lists after the first, in their order, in a table that has the first alone.
fn keep_all(search: &mut Search, lists: &mut Vec<Multipliers>) -> Result<(), NoMemory>
    requires begun { search.old.tree.lists ≡ zero_list ∷ [] }
    requires some { 0 < length lists.old.items }
    requires first { list_at lists.old.items 0 ≡ zero_list }
    ensures lists { OnOk result (search.new.tree.lists ≡ lists.old.items) }
    ensures boxes { search.new.tree.boxes ≡ search.old.tree.boxes }
    ensures nodes { search.new.tree.nodes ≡ search.old.tree.nodes }
    ensures rest { search.new ≡ moved_to search.old search.new.tree }
    ensures search { (m : ModelParts) → IsSearch m search.old → IsSearch m search.new }
    ensures screened { (fs : FilterList) → AreScreened fs search.old.tree → AreScreened fs search.new.tree }
{
    if lists.len() <= 1 {
        return Ok(());
    }
    match lists.pop() {
        None => Ok(()),
        Some(list) => {
            keep_all(search, lists)?;
            keep_one(search, list)
        }
    }
}

/// A search of the model that has not begun, with the stated lists in its table.
pub fn begun(alloc: Global, model: &Model) -> Result<Search, NoMemory>
    ensures made { IfOk result (λ s. s ≡ first_search model.now) }
    ensures search { IfOk result (IsSearch model.now) }
    ensures screened { (fs : FilterList) → IfOk result (λ s. AreScreened fs s.tree) }
{
    searches_last();
    screens_last();
    let root = model.root(alloc)?;
    let mut search = Search::new(alloc, root)?;
    let mut lists = stated_lists(alloc, model)?;
    keep_all(&mut search, &mut lists)?;
    Ok(search)
}

/// How many stated lists there are.
pub fn stated_count(model: &Model, search: &Search) -> u32
    requires { search.now.tree.lists ≡ stated_lists model.now }
    ensures { result ≡ length (stated_lists model.now) }
{
    let _model = model;
    stated_lists_are_lists();
    search.tree().multipliers().len() as u32
}
