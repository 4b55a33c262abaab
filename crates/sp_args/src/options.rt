//! The options and FILE, as `clap` takes them.
ghost use Rattle.std.specs.Prelude.{◌≡◌, ◌⊎◌, drop, map, IfOk, MatchResult, None, Some};
ghost use Rattle.std.specs.List.{All};
ghost use Rattle.std.specs.Str.{IsUtf8};
ghost use Rattle.clap.specs.Words.{app_of};
ghost use Rattle.sp_args.specs.InnerCommand.{solpool};
ghost use Rattle.sp_args.specs.InnerReading.{texts_of, wide_texts};

use crate::requests::WordsRefusal;
use clap::error::ErrorKind;
use clap::{Arg, Command};
use std::alloc::{AllocError, Global};

/// The texts that the words give, as they were written.
#[derive(Debug, Drop)]
pub(crate) struct Given<'a> {
    /// The value of `--absgap`.
    pub(crate) absgap: Option<&'a str>,
    /// The value of `--relgap`.
    pub(crate) relgap: Option<&'a str>,
    /// The value of `--nodes`.
    pub(crate) nodes: Option<&'a str>,
    /// FILE.
    pub(crate) file: Option<&'a str>,
}

/// The options and FILE, with no help and no version.
fn command<'a>(alloc: Global) -> Result<Command<'a>, AllocError>
    ensures { IfOk result (λ c. app_of c ≡ solpool) }
{
    let absgap = Arg::new(alloc, "absgap").long("absgap");
    let relgap = Arg::new(alloc, "relgap").long("relgap");
    let nodes = Arg::new(alloc, "nodes").long("nodes");
    let file = Arg::new(alloc, "file");
    Command::new(alloc, "solpool")
        .disable_help_flag(true)
        .disable_version_flag(true)
        .arg(absgap)?
        .arg(relgap)?
        .arg(nodes)?
        .arg(file)
}

/// The texts that the words behind the first one give, which is the program's name. As `clap` has it, the value of an
/// option may be `-` too.
pub(crate) fn take_texts<'a>(alloc: Global, words: &'a [&'a str]) -> Result<Given<'a>, WordsRefusal>
    requires { All IsUtf8 (map (λ s. s.now) words.now) }
    ensures { let rest = drop 1 (map (λ s. s.now) words.entry.now) in MatchResult result
        (λ given. wide_texts rest ≡ Some (texts_of given))
        (λ why. (why ≡ WordsRefusal.NoMemory) ⊎ (wide_texts rest ≡ None)) }
{
    let Ok(whole) = command(alloc) else {
        return Err(WordsRefusal::NoMemory);
    };
    match whole.try_get_matches_from(words) {
        Ok(matches) => Ok(Given {
            absgap: matches.get_str("absgap"),
            relgap: matches.get_str("relgap"),
            nodes: matches.get_str("nodes"),
            file: matches.get_str("file"),
        }),
        Err(error) => match error.kind() {
            ErrorKind::OutOfMemory => Err(WordsRefusal::NoMemory),
            _ => Err(WordsRefusal::Usage),
        },
    }
}
