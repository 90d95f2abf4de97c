ghost use Rattle.std.specs.Prelude.{◌≡◌, Some, None, if◌then◌else◌, codes, IfOk, MatchOption, option_map};
ghost use Rattle.std.specs.Str.{bytes_eq};
ghost use Rattle.clap.specs.Matches.{first_value, found_of};
ghost use Rattle.ppd_top_requests.specs.Commands.{command_gives, command_of as command_named, longs_of, names_of};
ghost use Rattle.ppd_top_requests.specs.Spelling.{HaveNoEquals, words_give};
ghost use Rattle.ppd_top_requests.specs.declared.commands.CommandName.TheVariants as named;
ghost use Rattle.ppd_top_requests.specs.Reads.{Reads, ReadsCommand};
ghost use Rattle.ppd_top_requests.specs.GivenWords.{texts};

use crate::read::read_words;
use clap::ArgMatches;
use ppd_ast::Memory;
use std::alloc::Global;

/// What the first word asks for.
#[derive(Clone, Copy)]
pub enum CommandName {
    /// A source is run, its summary written, and the lines of the input are answered.
    Flow,
    /// A source is run, its recording stored, and its summary written.
    Run,
    /// The lines of the input are answered on a recording.
    Debug,
    /// The static tables of a source are written.
    Show,
    /// A source made from a number is run.
    Drill,
    /// What an item of a recording came from is written.
    Slice,
    /// A recording is run again under its own synchronization.
    Rerun,
    /// An item of a recording is answered whose past touches no race.
    Clean,
    /// The whole trace of a recording is written.
    Whole,
}

/// What the words give: the command, and the words of its options and its names.
#[derive(Drop)]
pub struct CommandWords<'a> {
    /// What the first word asks for.
    pub command: CommandName,
    /// The words of the options that were used, by their long names, and of the names, by their ids.
    pub matches: ArgMatches<'a>,
}

impl<'a> CommandWords<'a> {
    /// The word of an option of the command, by its long name, or of a name, by its id; `None` where the option
    /// was not used or the command has none such.
    pub fn value(&self, id: &str) -> Option<&'a str>
        ensures { option_map (λ s. s.now) result ≡ first_value (found_of self.now.matches) id.now }
    {
        self.matches.get_str(id)
    }
}

// The query that a word names.
fn query_command_of(word: &str) -> Option<CommandName>
    ensures { result ≡ (if bytes_eq word.now (codes "slice") then Some named.Slice
        else if bytes_eq word.now (codes "rerun") then Some named.Rerun
        else if bytes_eq word.now (codes "clean") then Some named.Clean
        else if bytes_eq word.now (codes "whole") then Some named.Whole
        else None) }
{
    if word == "slice" {
        Some(CommandName::Slice)
    } else if word == "rerun" {
        Some(CommandName::Rerun)
    } else if word == "clean" {
        Some(CommandName::Clean)
    } else if word == "whole" {
        Some(CommandName::Whole)
    } else {
        None
    }
}

/// The command that a word names: `flow`, `run`, `debug`, `show`, `drill`, `slice`, `rerun`, `clean` or `whole`; `None`
/// for any other word.
pub fn command_of(word: &str) -> Option<CommandName>
    ensures { result ≡ command_named word.now }
{
    if word == "flow" {
        Some(CommandName::Flow)
    } else if word == "run" {
        Some(CommandName::Run)
    } else if word == "debug" {
        Some(CommandName::Debug)
    } else if word == "show" {
        Some(CommandName::Show)
    } else if word == "drill" {
        Some(CommandName::Drill)
    } else {
        query_command_of(word)
    }
}

// The options of a command, by their long names.
fn command_longs(command: CommandName) -> &'static [&'static str]
    ensures are { texts result.now ≡ longs_of command }
    ensures plain { HaveNoEquals (texts result.now) }
{
    match command {
        CommandName::Flow | CommandName::Run => &["budget", "leaf", "loops"],
        CommandName::Show => &["leaf", "loops"],
        CommandName::Whole => &["workers"],
        _ => &[],
    }
}

// The names of a command.
fn command_names(command: CommandName) -> &'static [&'static str]
    ensures { texts result.now ≡ names_of command }
{
    match command {
        CommandName::Flow | CommandName::Show => &["source"],
        CommandName::Run => &["source", "recording"],
        CommandName::Drill => &["number"],
        CommandName::Slice | CommandName::Clean => &["recording", "process", "interval", "item"],
        _ => &["recording"],
    }
}

/// The words after the command's own, which is the title.
fn read_rest<'a>(
    alloc: Global,
    title: &'a str,
    command: CommandName,
    words: &'a [&'a str],
) -> Result<Option<ArgMatches<'a>>, Memory>
    ensures { IfOk result
        (λ r. MatchOption r (words_give (longs_of command) (names_of command) (texts words.entry.now) ≡ None)
        (Reads (longs_of command) (names_of command) (texts words.entry.now))) }
{
    read_words(
        alloc,
        title,
        command_longs(command),
        command_names(command),
        words,
    )
}

/// Reads the words after the program's name by clap: the first names a command, and the others are its options
/// and its names, as `read_words` says.
///
/// | Command | Options | Names |
/// |---|---|---|
/// | `flow` | `budget`, `leaf`, `loops` | `source` |
/// | `run` | `budget`, `leaf`, `loops` | `source`, `recording` |
/// | `debug` | | `recording` |
/// | `show` | `leaf`, `loops` | `source` |
/// | `drill` | | `number` |
/// | `slice`, `clean` | | `recording`, `process`, `interval`, `item` |
/// | `rerun` | | `recording` |
/// | `whole` | `workers` | `recording` |
///
/// `None` exactly where the words give none of them. Numbers, limits and empty names are not tested. The error is
/// want of memory, and may come whatever the words after the first are.
pub fn read_command<'a>(
    alloc: Global,
    words: &'a [&'a str],
) -> Result<Option<CommandWords<'a>>, Memory>
    ensures { IfOk result (λ r. MatchOption r (command_gives (texts words.entry.now) ≡ None)
        (ReadsCommand (texts words.entry.now))) }
{
    let [word, rest @ ..] = words else {
        return Ok(None);
    };
    let Some(command) = command_of(word) else {
        return Ok(None);
    };
    match read_rest(alloc, word, command, rest)? {
        Some(matches) => Ok(Some(CommandWords { command, matches })),
        None => Ok(None),
    }
}
