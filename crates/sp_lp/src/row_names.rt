//! The names of rows, as parts of the file.
ghost use Rattle.std.specs.Prelude.{◌≡◌, OnOk, IfOk, not};
ghost use Rattle.sp_draft.specs.Names.{with_name, is_among};
ghost use Rattle.sp_lp.specs.RowNames.{names_of};

use indexmap::IndexSet;
use sp_model::NoMemory;

/// Puts the name among the names, and tells whether it is new.
pub(crate) fn put_name<'a>(names: &mut IndexSet<&'a [u8]>, name: &'a [u8]) -> Result<bool, NoMemory>
    ensures names { OnOk result (names_of names.new.keys ≡ with_name (names_of names.old.keys) name.now) }
    ensures new { IfOk result (λ new. new ≡ not (is_among (names_of names.old.keys) name.now)) }
{
    match names.insert(name) {
        Ok(new) => Ok(new),
        Err(_) => Err(NoMemory),
    }
}

/// Whether the name is there.
pub(crate) fn has_name(names: &IndexSet<&[u8]>, name: &[u8]) -> bool
    ensures { result ≡ is_among (names_of names.now.keys) name.now }
{
    names.contains(name)
}
