//! The tables of the words of commands.

ghost use Rattle.std.specs.Prelude.{◌≡◌, IsTrue};
ghost use Rattle.sp_command_words.specs.Keywords.{HasVerbs, HasMip, HasGroups, HasPoolKeys, HasLimitKeys, HasFilterKinds, HasShown, HasTree, HasSymbols, verb_of, is_mip, group_of, pool_key_of, limit_key_of, filter_kind_of, shown_of, is_tree, symbol_of};

use crate::keywords::{
    FilterKind, Group, LimitKey, PoolKey, Shown, Symbol, Verb, filter_kind_for, group_for,
    limit_key_for, pool_key_for, shown_for, symbol_for, verb_for,
};
use sp_words::Words;

/// The tables of the words of commands. The case of letters is of no account. They take no memory.
#[derive(Clone, Copy, Debug)]
pub struct Tables {
    verbs: Words<9>,
    mip: Words<1>,
    groups: Words<2>,
    pool_keys: Words<5>,
    limit_keys: Words<2>,
    filter_kinds: Words<3>,
    shown: Words<5>,
    tree: Words<1>,
    symbols: Words<3>,
    ghost verbs_kept: { HasVerbs verbs },
    ghost mip_kept: { HasMip mip },
    ghost groups_kept: { HasGroups groups },
    ghost pool_keys_kept: { HasPoolKeys pool_keys },
    ghost limit_keys_kept: { HasLimitKeys limit_keys },
    ghost filter_kinds_kept: { HasFilterKinds filter_kinds },
    ghost shown_kept: { HasShown shown },
    ghost tree_kept: { HasTree tree },
    ghost symbols_kept: { HasSymbols symbols },
}

fn verb_table() -> Words<9>
    ensures { HasVerbs result }
{
    Words::new(
        "read optimize populate nbest set filter display write quit",
        [1, 2, 3, 4, 5, 6, 7, 8, 9],
    )
    .unwrap()
}

fn mip_table() -> Words<1>
    ensures { HasMip result }
{
    Words::new("mip", [1]).unwrap()
}

fn group_table() -> Words<2>
    ensures { HasGroups result }
{
    Words::new("pool limits", [1, 2]).unwrap()
}

fn pool_key_table() -> Words<5>
    ensures { HasPoolKeys result }
{
    Words::new("absgap relgap capacity intensity replace", [1, 2, 3, 4, 5]).unwrap()
}

fn limit_key_table() -> Words<2>
    ensures { HasLimitKeys result }
{
    Words::new("populate nodes", [1, 2]).unwrap()
}

fn filter_kind_table() -> Words<3>
    ensures { HasFilterKinds result }
{
    Words::new("range diversity delete", [1, 2, 3]).unwrap()
}

fn shown_table() -> Words<5>
    ensures { HasShown result }
{
    Words::new("found pool settings model filters", [1, 2, 3, 4, 5]).unwrap()
}

fn tree_table() -> Words<1>
    ensures { HasTree result }
{
    Words::new("tree", [1]).unwrap()
}

fn symbol_table() -> Words<3>
    ensures { HasSymbols result }
{
    Words::new("+ - <=", [1, 2, 3]).unwrap()
}

impl Tables {
    /// The tables, which are made with no test as the program runs.
    pub fn new() -> Tables {
        Tables {
            verbs: verb_table(),
            mip: mip_table(),
            groups: group_table(),
            pool_keys: pool_key_table(),
            limit_keys: limit_key_table(),
            filter_kinds: filter_kind_table(),
            shown: shown_table(),
            tree: tree_table(),
            symbols: symbol_table(),
        }
    }

    /// The command that the word begins, whatever the case of its letters.
    #[tactic(auto, unfolding(crate::specs::Keywords::verb_of))]
    pub fn verb_of(&self, word: &[u8]) -> Option<Verb>
        ensures { result ≡ verb_of word.now }
    {
        match self.verbs.find(word) {
            None => None,
            Some(code) => verb_for(code),
        }
    }

    /// Whether the word is `mip`, whatever the case.
    #[tactic(auto, unfolding(crate::specs::Keywords::is_mip))]
    pub fn is_mip(&self, word: &[u8]) -> bool
        ensures { result ≡ is_mip word.now }
    {
        self.mip.find(word).is_some()
    }

    /// The group of settings that the word names, whatever the case.
    #[tactic(auto, unfolding(crate::specs::Keywords::group_of))]
    pub fn group_of(&self, word: &[u8]) -> Option<Group>
        ensures { result ≡ group_of word.now }
    {
        match self.groups.find(word) {
            None => None,
            Some(code) => group_for(code),
        }
    }

    /// The setting of the pool that the word names, whatever the case.
    #[tactic(auto, unfolding(crate::specs::Keywords::pool_key_of))]
    pub fn pool_key_of(&self, word: &[u8]) -> Option<PoolKey>
        ensures { result ≡ pool_key_of word.now }
    {
        match self.pool_keys.find(word) {
            None => None,
            Some(code) => pool_key_for(code),
        }
    }

    /// The limit that the word names, whatever the case.
    #[tactic(auto, unfolding(crate::specs::Keywords::limit_key_of))]
    pub fn limit_key_of(&self, word: &[u8]) -> Option<LimitKey>
        ensures { result ≡ limit_key_of word.now }
    {
        match self.limit_keys.find(word) {
            None => None,
            Some(code) => limit_key_for(code),
        }
    }

    /// What the word does with filters, whatever the case.
    #[tactic(auto, unfolding(crate::specs::Keywords::filter_kind_of))]
    pub fn filter_kind_of(&self, word: &[u8]) -> Option<FilterKind>
        ensures { result ≡ filter_kind_of word.now }
    {
        match self.filter_kinds.find(word) {
            None => None,
            Some(code) => filter_kind_for(code),
        }
    }

    /// What the word shows, whatever the case.
    #[tactic(auto, unfolding(crate::specs::Keywords::shown_of))]
    pub fn shown_of(&self, word: &[u8]) -> Option<Shown>
        ensures { result ≡ shown_of word.now }
    {
        match self.shown.find(word) {
            None => None,
            Some(code) => shown_for(code),
        }
    }

    /// Whether the word is `tree`, whatever the case.
    #[tactic(auto, unfolding(crate::specs::Keywords::is_tree))]
    pub fn is_tree(&self, word: &[u8]) -> bool
        ensures { result ≡ is_tree word.now }
    {
        self.tree.find(word).is_some()
    }

    /// The sign or comparison that the word is.
    #[tactic(auto, unfolding(crate::specs::Keywords::symbol_of))]
    pub fn symbol_of(&self, word: &[u8]) -> Option<Symbol>
        ensures { result ≡ symbol_of word.now }
    {
        match self.symbols.find(word) {
            None => None,
            Some(code) => symbol_for(code),
        }
    }
}
