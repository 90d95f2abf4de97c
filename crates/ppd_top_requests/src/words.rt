// What the words of the command line ask for.
ghost use Rattle.clap.specs.Matches.{first_value, found_of};
ghost use Rattle.ppd_top_requests.specs.Words.{IsInRange, asked as asked_for, asked_by, asked_by_word, command_of, item_in, name_in, number_in as number_for, options_in as options_for, query_by, request_of};
ghost use Rattle.ppd_top_requests.specs.Words.Command.{Run as run_asked};
ghost use Rattle.ppd_top_requests.specs.Questions.{asked_of, query_of};
ghost use Rattle.ppd_top_requests.specs.Questions.Query.{Clean as clean_asked, Slice as slice_asked, Whole as whole_asked};
ghost use Rattle.ppd_top_requests.specs.Words.{AreInRange};
ghost use Rattle.ppd_top_requests.specs.declared.commands.CommandName.TheVariants as word;
ghost use Rattle.std.specs.Prelude.{IfOk, IfSome, None, Some, codes, option_map, ◌≡◌, ◌≤◌};

use crate::commands::{CommandName, CommandWords, read_command};
use crate::options::Options;
use crate::query::{AskedItem, Query};
use ppd_ast::limits::{DEFAULT_BUDGET, MOST_BUDGET, MOST_DRILL, MOST_POLICY};
use ppd_ast::{Memory, Policy};
use ppd_text::number_in;
use std::alloc::Global;

/// The greatest number of 9 digits.
const MOST_ITEM_NUMBER: u32 = 999_999_999;

/// How many workers `whole` has where its option was not given, and at most.
const DEFAULT_WORKERS: u32 = 8;

const MOST_WORKERS: u32 = 64;

/// What a source is loaded for.
#[derive(Clone, Copy)]
pub enum Command<'a> {
    /// The source is run, its summary written, and the lines of the input are answered.
    Flow,
    /// The source is run, its recording stored under this name, and its summary written.
    Run(&'a str),
    /// The static tables of the source are written.
    Show,
}

/// A command on a source, its name, and the options, of which each that was not given or is none of the command's
/// has its default.
#[derive(Clone, Copy)]
pub struct SourceRequest<'a> {
    pub command: Command<'a>,
    pub name: &'a str,
    pub options: Options,
}

/// What the words ask for.
#[derive(Clone, Copy)]
pub enum Request<'a> {
    /// A command on a source.
    Source(SourceRequest<'a>),
    /// The lines of the input are answered on the recording of this name.
    Recording(&'a str),
    /// The source that this number makes is run, and its summary and last values are written.
    Drill(u32),
    /// This is asked of the recording of this name.
    Query(&'a str, Query<'a>),
}

/// An option's number, from `least` to `most`: that of its word, or the usual one where it has none.
fn number_of(word: Option<&str>, usual: u32, least: u32, most: u32) -> Option<u32>
    requires least { least ≤ usual }
    requires most { usual ≤ most }
    ensures number { result ≡ number_for (Some usual) least most (option_map (λ s. s.now) word.entry) }
    ensures least { IfSome result (λ n. least ≤ n) }
    ensures most { IfSome result (λ n. n ≤ most) }
{
    let Some(word) = word else {
        return Some(usual);
    };
    let number = number_in(word.as_bytes())?;
    if u64::from(least) <= number && number <= u64::from(most) {
        return Some(number as u32);
    }
    None
}

/// The number of an interval or of an item, in 1 to 9 digits.
fn item_number_of(given: &CommandWords<'_>, id: &str) -> Option<u32>
    ensures { result ≡ number_for None 0 999999999 (first_value (found_of given.now.matches) id.now) }
{
    let word = given.value(id)?;
    number_of(Some(word), 0, 0, MOST_ITEM_NUMBER)
}

/// The options, each with its default where it was not given.
fn options_of(given: &CommandWords<'_>) -> Option<Options>
    ensures options { result ≡ options_for (first_value (found_of given.now.matches)) }
    ensures range { IfSome result AreInRange }
{
    let budget = number_of(given.value("budget"), DEFAULT_BUDGET, 1, MOST_BUDGET)?;
    let leaf = number_of(given.value("leaf"), 0, 0, u32::from(MOST_POLICY))?;
    let loops = number_of(given.value("loops"), 0, 0, u32::from(MOST_POLICY))?;
    Some(Options {
        budget,
        policy: Policy {
            leaf: leaf as u16,
            loops: loops as u16,
        },
    })
}

/// The word of a name, which is not empty.
fn name_of<'a>(given: &CommandWords<'a>, id: &str) -> Option<&'a str>
    ensures { option_map (λ s. s.now) result ≡ name_in (first_value (found_of given.now.matches) id.now) }
{
    let name = given.value(id)?;
    if name.is_empty() {
        return None;
    }
    Some(name)
}

/// The command `run`, with the name of its recording.
fn run_of<'a>(given: &CommandWords<'a>) -> Option<Command<'a>>
    ensures { option_map command_of result
        ≡ option_map run_asked (name_in (first_value (found_of given.now.matches) (codes "recording"))) }
{
    let recording = name_of(given, "recording")?;
    Some(Command::Run(recording))
}

/// A command on a source, if there is one.
fn on_source<'a>(command: Option<Command<'a>>, given: &CommandWords<'a>) -> Option<Request<'a>>
    ensures request { option_map request_of result ≡ asked_by (option_map command_of command.entry)
        (first_value (found_of given.now.matches)) }
    ensures range { IfSome result IsInRange }
{
    let command = command?;
    let name = name_of(given, "source")?;
    let options = options_of(given)?;
    Some(Request::Source(SourceRequest {
        command,
        name,
        options,
    }))
}

/// The command `debug`, with the name of its recording.
fn on_recording<'a>(given: &CommandWords<'a>) -> Option<Request<'a>>
    ensures request { option_map request_of result ≡ asked_by_word word.Debug
        (first_value (found_of given.now.matches)) }
    ensures range { IfSome result IsInRange }
{
    let name = name_of(given, "recording")?;
    Some(Request::Recording(name))
}

/// The command `drill`, with its number.
fn on_number<'a>(given: &CommandWords<'a>) -> Option<Request<'a>>
    ensures request { option_map request_of result ≡ asked_by_word word.Drill
        (first_value (found_of given.now.matches)) }
    ensures range { IfSome result IsInRange }
{
    let word = given.value("number")?;
    let number = number_of(Some(word), 0, 0, MOST_DRILL)?;
    Some(Request::Drill(number))
}

/// An item of a recording, by the words of its process, interval and number.
fn item_of<'a>(given: &CommandWords<'a>) -> Option<AskedItem<'a>>
    ensures { option_map asked_of result ≡ item_in (first_value (found_of given.now.matches)) }
{
    let process = name_of(given, "process")?;
    let interval = item_number_of(given, "interval")?;
    let item = item_number_of(given, "item")?;
    Some(AskedItem {
        process,
        interval,
        item,
    })
}

/// What is asked of a recording, with its name, if both are there.
fn on_query<'a>(given: &CommandWords<'a>, query: Option<Query<'a>>) -> Option<Request<'a>>
    ensures request { option_map request_of result
        ≡ query_by (first_value (found_of given.now.matches)) (option_map query_of query.entry) }
    ensures range { IfSome result IsInRange }
{
    let query = query?;
    let name = name_of(given, "recording")?;
    Some(Request::Query(name, query))
}

/// The query of `slice`, if its item is there.
fn slice_of<'a>(given: &CommandWords<'a>) -> Option<Query<'a>>
    ensures { option_map query_of result
        ≡ option_map slice_asked (item_in (first_value (found_of given.now.matches))) }
{
    let item = item_of(given)?;
    Some(Query::Slice(item))
}

/// The query of `clean`, if its item is there.
fn clean_of<'a>(given: &CommandWords<'a>) -> Option<Query<'a>>
    ensures { option_map query_of result
        ≡ option_map clean_asked (item_in (first_value (found_of given.now.matches))) }
{
    let item = item_of(given)?;
    Some(Query::Clean(item))
}

/// The query of `whole`, with the number of its workers.
fn whole_of<'a>(given: &CommandWords<'a>) -> Option<Query<'a>>
    ensures { option_map query_of result
        ≡ option_map whole_asked
        (number_for (Some 8) 1 64 (first_value (found_of given.now.matches) (codes "workers"))) }
{
    let workers = number_of(given.value("workers"), DEFAULT_WORKERS, 1, MOST_WORKERS)?;
    Some(Query::Whole(workers))
}

/// The request of a command with its words, if its numbers and names are right.
fn request_in<'a>(given: &CommandWords<'a>) -> Option<Request<'a>>
    ensures request { option_map request_of result ≡ asked_by_word given.now.command
        (first_value (found_of given.now.matches)) }
    ensures range { IfSome result IsInRange }
{
    match given.command {
        CommandName::Flow => on_source(Some(Command::Flow), given),
        CommandName::Run => on_source(run_of(given), given),
        CommandName::Debug => on_recording(given),
        CommandName::Show => on_source(Some(Command::Show), given),
        CommandName::Drill => on_number(given),
        CommandName::Slice => on_query(given, slice_of(given)),
        CommandName::Rerun => on_query(given, Some(Query::Rerun)),
        CommandName::Clean => on_query(given, clean_of(given)),
        CommandName::Whole => on_query(given, whole_of(given)),
    }
}

/// What the words ask for: `flow`, `run` or `show`, its options in any order, each at most once, and its names; or
/// `debug` and its name, or `drill` and its number; or what is asked of a recording, with its name: `slice` or
/// `clean` and an item, `rerun`, or `whole` with its option. None where they ask for nothing. The error is want of
/// memory, and may come whatever the words are.
pub fn asked<'a>(alloc: Global, words: &'a [&'a str]) -> Result<Option<Request<'a>>, Memory>
    ensures is { IfOk result (λ o. option_map request_of o ≡ asked_for words.entry.now) }
    ensures range { IfOk result (λ o. IfSome o IsInRange) }
{
    match read_command(alloc, words)? {
        None => Ok(None),
        Some(given) => Ok(request_in(&given)),
    }
}
