//! From a line to its command.

ghost use Rattle.std.specs.Prelude.{◌≡◌, true, IfOk, IsErrOf};
ghost use Rattle.sp_command.specs.Lawful.{IsLawfulCommand};
ghost use Rattle.sp_base.specs.Fields.{fields};
ghost use Rattle.sp_command.specs.Commands.{alone};
ghost use Rattle.sp_command.specs.Lines.{said_by, filter_of, command_for, Answers, TakesMemory, takes_memory};
ghost use Rattle.sp_command.specs.InnerResults.{Gives};

use crate::commands::Command;
use crate::filters::{deletion, diversity, range};
use crate::ranges::copied;
use crate::refusals::CommandRefusal;
use crate::settings::{count, is_end, is_model_name, only_field, setting, shown, tree_name};
use sp_base::next_field;
use sp_command_words::{FilterKind, Tables, Verb};
use std::alloc::Global;

/// The most bytes of a line.
const LONGEST_LINE: usize = 4096;

fn read(alloc: Global, rest: &[u8]) -> Result<Command, CommandRefusal>
    ensures gives { Gives result (command_for Verb.Read (fields rest.now)) }
    ensures lawful { IfOk result IsLawfulCommand }
{
    match only_field(rest) {
        None => Err(CommandRefusal::BadArgument),
        Some(file) => {
            if !is_model_name(file) {
                return Err(CommandRefusal::BadArgument);
            }
            match copied(alloc, file) {
                Err(_) => Err(CommandRefusal::NoMemory),
                Ok(name) => Ok(Command::Read(name)),
            }
        }
    }
}

fn write_tree(alloc: Global, tables: &Tables, rest: &[u8]) -> Result<Command, CommandRefusal>
    ensures gives { Gives result (command_for Verb.Write (fields rest.now)) }
    ensures lawful { IfOk result IsLawfulCommand }
{
    match tree_name(tables, rest) {
        None => Err(CommandRefusal::BadArgument),
        Some(file) => match copied(alloc, file) {
            Err(_) => Err(CommandRefusal::NoMemory),
            Ok(name) => Ok(Command::WriteTree(name)),
        },
    }
}

fn filter(alloc: Global, tables: &Tables, rest: &[u8]) -> Result<Command, CommandRefusal>
    ensures gives { Gives result (filter_of (fields rest.now)) }
    ensures lawful { IfOk result IsLawfulCommand }
{
    match next_field(rest) {
        None => Err(CommandRefusal::BadArgument),
        Some((word, rest)) => match tables.filter_kind_of(word) {
            None => Err(CommandRefusal::BadArgument),
            Some(FilterKind::Range) => range(alloc, tables, rest),
            Some(FilterKind::Diversity) => diversity(alloc, rest),
            Some(FilterKind::Delete) => deletion(alloc, rest),
        },
    }
}

/// The command without further words.
fn lone(rest: &[u8], command: Command) -> Result<Command, CommandRefusal>
    requires { IsLawfulCommand command }
    ensures gives { Gives result (alone (fields rest.now) command) }
    ensures lawful { IfOk result IsLawfulCommand }
    ensures memory { IsErrOf result CommandRefusal.NoMemory → ⊥ }
{
    if is_end(rest) {
        Ok(command)
    } else {
        Err(CommandRefusal::BadArgument)
    }
}

fn command(
    alloc: Global,
    tables: &Tables,
    verb: Verb,
    rest: &[u8],
) -> Result<Command, CommandRefusal>
    ensures gives { Gives result (command_for verb (fields rest.now)) }
    ensures lawful { IfOk result IsLawfulCommand }
    ensures memory { IsErrOf result CommandRefusal.NoMemory → takes_memory verb ≡ true }
{
    match verb {
        Verb::Read => read(alloc, rest),
        Verb::Optimize => lone(rest, Command::Optimize),
        Verb::Populate => lone(rest, Command::Populate),
        Verb::NBest => match count(rest) {
            None => Err(CommandRefusal::BadArgument),
            Some(count) => Ok(Command::NBest(count)),
        },
        Verb::Set => match setting(tables, rest) {
            None => Err(CommandRefusal::BadArgument),
            Some(setting) => Ok(Command::Set(setting)),
        },
        Verb::Filter => filter(alloc, tables, rest),
        Verb::Display => match shown(tables, rest) {
            None => Err(CommandRefusal::BadArgument),
            Some(what) => Ok(Command::Display(what)),
        },
        Verb::Write => write_tree(alloc, tables, rest),
        Verb::Quit => lone(rest, Command::Quit),
    }
}

/// The command that a line of a session says, where the line has neither its line feed nor a carriage return before it.
/// Words are parted by blanks and tabs, and the case of a command's own words is of no account.
///
/// # Errors
///
/// [`CommandRefusal::LongLine`] for a line of more than 4,096 bytes, else [`CommandRefusal::UnknownCommand`] where its first
/// word is no command, else [`CommandRefusal::BadArgument`] where its other words aren't what that command takes.
#[tactic(auto, unfolding(crate::specs::Lines::said_by))]
pub fn parse(alloc: Global, line: &[u8]) -> Result<Command, CommandRefusal>
    ensures says { Answers (said_by line.now) result }
    ensures lawful { IfOk result IsLawfulCommand }
    ensures memory { IsErrOf result CommandRefusal.NoMemory → TakesMemory line.now }
{
    if line.len() > LONGEST_LINE {
        return Err(CommandRefusal::LongLine);
    }
    let tables = Tables::new();
    match next_field(line) {
        None => Ok(Command::Blank),
        Some((word, rest)) => match tables.verb_of(word) {
            None => Err(CommandRefusal::UnknownCommand),
            Some(verb) => command(alloc, &tables, verb, rest),
        },
    }
}
