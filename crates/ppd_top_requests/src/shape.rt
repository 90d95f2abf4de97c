ghost use Rattle.std.specs.Prelude.{◌≡◌, IfOk};
ghost use Rattle.clap.specs.Simple.{app_of, with_rule};
ghost use Rattle.ppd_top_requests.specs.Shape.{app_with, name_rule, option_rule};
ghost use Rattle.ppd_top_requests.specs.GivenWords.{texts};

use clap::{Arg, ArgAction, Command};
use std::alloc::{AllocError, Global};

/// The command with one option more, which takes a value.
fn with_option<'a>(
    alloc: Global,
    command: Command<'a>,
    long: &'a str,
) -> Result<Command<'a>, AllocError>
    ensures { IfOk result (λ c. app_of c ≡ with_rule (app_of command.entry) (option_rule long.entry.now)) }
{
    command.arg(Arg::new(alloc, long).long(long).action(ArgAction::Set))
}

/// The command with one name more, which must be there.
fn with_name<'a>(
    alloc: Global,
    command: Command<'a>,
    name: &'a str,
) -> Result<Command<'a>, AllocError>
    ensures { IfOk result (λ c. app_of c ≡ with_rule (app_of command.entry) (name_rule name.entry.now)) }
{
    command.arg(Arg::new(alloc, name).action(ArgAction::Set).required(true))
}

/// The command with these options, each of which takes a value, and these names. Its words have no program's
/// name, and it knows neither `--help` nor `--version`. The error is want of memory.
pub(crate) fn command_with<'a>(
    alloc: Global,
    title: &'a str,
    longs: &[&'a str],
    names: &[&'a str],
) -> Result<Command<'a>, AllocError>
    ensures { IfOk result (λ c. app_of c ≡ app_with title.entry.now (texts longs.now) (texts names.now)) }
{
    let mut command = Command::new(alloc, title)
        .no_binary_name(true)
        .disable_help_flag(true)
        .disable_version_flag(true);
    for long in longs {
        command = with_option(alloc, command, *long)?;
    }
    for name in names {
        command = with_name(alloc, command, *name)?;
    }
    Ok(command)
}
