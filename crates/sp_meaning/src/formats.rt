//! Which format a model file has, by the ending of its name.
ghost use Rattle.std.specs.Prelude.{◌≡◌};
ghost use Rattle.sp_meaning.specs.Formats.{ends_with, format_of};

/// The format of a model file.
#[derive(Clone, Copy, PartialEq, Eq, Debug)]
pub enum FileFormat {
    /// The CPLEX LP file format.
    Lp,
    /// The MPS file format, fixed or free.
    Mps,
}

/// Whether the name has this ending, in any case.
fn has_ending(name: &[u8], ending: &[u8]) -> bool
    ensures { result ≡ ends_with ending.now name.now }
{
    if name.len() < ending.len() {
        return false;
    }
    let (_, tail) = name.split_at(name.len() - ending.len());
    tail.eq_ignore_ascii_case(ending)
}

/// The format of a file of this name, which ends in `.lp` or `.mps` in any case; `None` where it has another ending.
#[tactic(auto, unfolding(crate::specs::Formats::format_of))]
pub fn format_of(name: &[u8]) -> Option<FileFormat>
    ensures { result ≡ format_of name.now }
{
    if has_ending(name, b".lp") {
        return Some(FileFormat::Lp);
    }
    if has_ending(name, b".mps") {
        return Some(FileFormat::Mps);
    }
    None
}
