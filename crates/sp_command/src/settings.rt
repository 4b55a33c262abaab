//! The commands on settings, and other commands without names.

ghost use Rattle.std.specs.Prelude.{◌≡◌, ◌≢◌, [], MatchBool, option_copied, ◌<◌, ◌≤◌, ◌^◌, drop, length, IfSome};
ghost use Rattle.sp_command.specs.Lawful.{IsFromTo, IsLawfulSetting};
ghost use Rattle.sp_command.specs.Values.{whole};
ghost use Rattle.sp_base.specs.Fields.{fields};
ghost use Rattle.sp_command.specs.Commands.{only, most, is_model_file, count_of, rule_for, pool_value, limit_value, pool_setting, limit_setting, mip_setting, ends_with, tree_file, setting_of, display_of};

use crate::commands::Setting;
use crate::numbers::{gap, whole_number};
use sp_base::next_field;
use sp_command_words::{Group, LimitKey, PoolKey, Shown, Tables};
use sp_pool::Rule;

/// The greatest value of most limits.
const MOST: u64 = 2_100_000_000;

/// The most nodes of a tree.
const MOST_NODES: u64 = 200_000;

/// Whether there is no further word.
pub(crate) fn is_end(rest: &[u8]) -> bool
    ensures { MatchBool result (fields rest.now ≡ []) (fields rest.now ≢ []) }
{
    next_field(rest).is_none()
}

/// The only word that is left, if there is exactly one.
pub(crate) fn only_field(rest: &[u8]) -> Option<&[u8]>
    ensures { option_copied result ≡ only (fields rest.now) }
{
    match next_field(rest) {
        None => None,
        Some((word, rest)) => match next_field(rest) {
            None => Some(word),
            Some(_) => None,
        },
    }
}

/// Whether the name ends in `.lp` or `.mps`, whatever the case.
pub(crate) fn is_model_name(word: &[u8]) -> bool
    ensures { result ≡ is_model_file word.now }
{
    has_ending(b".lp", word) || has_ending(b".mps", word)
}

fn has_ending(ending: &[u8], word: &[u8]) -> bool
    ensures { result ≡ ends_with ending.now word.now }
{
    if word.len() < ending.len() {
        return false;
    }
    tail(word, word.len() - ending.len()).eq_ignore_ascii_case(ending)
}

/// The text from this place on.
pub(crate) fn tail(text: &[u8], place: usize) -> &[u8]
    requires { place ≤ length text.now }
    ensures { result.now ≡ drop place text.now }
{
    &text[place..]
}

/// The number of an nbest command.
pub(crate) fn count(rest: &[u8]) -> Option<u32>
    ensures value { result ≡ count_of (fields rest.now) }
    ensures lawful { IfSome result (IsFromTo 1 most) }
{
    match only_field(rest) {
        None => None,
        Some(word) => small(1, MOST, word),
    }
}

/// A whole number of 32 bits.
fn small(least: u64, greatest: u64, word: &[u8]) -> Option<u32>
    requires { greatest < 2 ^ 32 }
    ensures value { result ≡ whole least greatest word.now }
    ensures inside { IfSome result (IsFromTo least greatest) }
{
    match whole_number(least, greatest, word) {
        None => None,
        Some(n) => Some(n as u32),
    }
}

/// What a display command shows.
pub(crate) fn shown(tables: &Tables, rest: &[u8]) -> Option<Shown>
    ensures { result ≡ display_of (fields rest.now) }
{
    match only_field(rest) {
        None => None,
        Some(word) => tables.shown_of(word),
    }
}

/// The rule that a number names.
fn rule(n: u32) -> Rule
    ensures { result ≡ rule_for n }
{
    if n == 0 { Rule::Fifo } else { Rule::Worst }
}

/// A setting of the pool.
fn pool_setting_at(key: PoolKey, word: &[u8]) -> Option<Setting>
    ensures value { result ≡ pool_value key word.now }
    ensures lawful { IfSome result IsLawfulSetting }
{
    match key {
        PoolKey::AbsGap => match gap(word) {
            None => None,
            Some(gap) => Some(Setting::AbsGap(gap)),
        },
        PoolKey::RelGap => match gap(word) {
            None => None,
            Some(gap) => Some(Setting::RelGap(gap)),
        },
        PoolKey::Capacity => match small(0, MOST, word) {
            None => None,
            Some(n) => Some(Setting::Capacity(n)),
        },
        PoolKey::Intensity => match whole_number(0, 4, word) {
            None => None,
            Some(n) => Some(Setting::Intensity(n as u8)),
        },
        PoolKey::Replace => match small(0, 1, word) {
            None => None,
            Some(n) => Some(Setting::Replace(rule(n))),
        },
    }
}

/// A limit.
fn limit_setting_at(key: LimitKey, word: &[u8]) -> Option<Setting>
    ensures value { result ≡ limit_value key word.now }
    ensures lawful { IfSome result IsLawfulSetting }
{
    match key {
        LimitKey::Populate => match small(1, MOST, word) {
            None => None,
            Some(n) => Some(Setting::Populate(n)),
        },
        LimitKey::Nodes => match small(1, MOST_NODES, word) {
            None => None,
            Some(n) => Some(Setting::Nodes(n)),
        },
    }
}

fn pool_words(tables: &Tables, rest: &[u8]) -> Option<Setting>
    ensures value { result ≡ pool_setting (fields rest.now) }
    ensures lawful { IfSome result IsLawfulSetting }
{
    match next_field(rest) {
        None => None,
        Some((word, rest)) => match tables.pool_key_of(word) {
            None => None,
            Some(key) => match only_field(rest) {
                None => None,
                Some(value) => pool_setting_at(key, value),
            },
        },
    }
}

fn limit_words(tables: &Tables, rest: &[u8]) -> Option<Setting>
    ensures value { result ≡ limit_setting (fields rest.now) }
    ensures lawful { IfSome result IsLawfulSetting }
{
    match next_field(rest) {
        None => None,
        Some((word, rest)) => match tables.limit_key_of(word) {
            None => None,
            Some(key) => match only_field(rest) {
                None => None,
                Some(value) => limit_setting_at(key, value),
            },
        },
    }
}

fn mip_words(tables: &Tables, rest: &[u8]) -> Option<Setting>
    ensures value { result ≡ mip_setting (fields rest.now) }
    ensures lawful { IfSome result IsLawfulSetting }
{
    match next_field(rest) {
        None => None,
        Some((word, rest)) => match tables.group_of(word) {
            None => None,
            Some(Group::Pool) => pool_words(tables, rest),
            Some(Group::Limits) => limit_words(tables, rest),
        },
    }
}

/// The setting of a set command.
pub(crate) fn setting(tables: &Tables, rest: &[u8]) -> Option<Setting>
    ensures value { result ≡ setting_of (fields rest.now) }
    ensures lawful { IfSome result IsLawfulSetting }
{
    match next_field(rest) {
        None => None,
        Some((word, rest)) => {
            if tables.is_mip(word) {
                mip_words(tables, rest)
            } else {
                None
            }
        }
    }
}

/// The file of a write command.
pub(crate) fn tree_name<'a>(tables: &Tables, rest: &'a [u8]) -> Option<&'a [u8]>
    ensures { option_copied result ≡ tree_file (fields rest.now) }
{
    match next_field(rest) {
        None => None,
        Some((word, rest)) => {
            if tables.is_tree(word) {
                only_field(rest)
            } else {
                None
            }
        }
    }
}
