ghost use Rattle.std.specs.Prelude.{◌≡◌, ℕ, List, Some, None, IfOk, MatchOption};
ghost use Rattle.std.specs.Borrow.{Bor};
ghost use Rattle.std.specs.List.{All};
ghost use Rattle.std.specs.Str.{IsUtf8};
ghost use Rattle.ppd_top_requests.specs.Spelling.{HaveNoEquals, words_give};
ghost use Rattle.ppd_top_requests.specs.Reads.{Reads};
ghost use Rattle.ppd_top_requests.specs.GivenWords.{texts};

use crate::shape::command_with;
use clap::ArgMatches;
use clap::error::ErrorKind;
use ppd_ast::Memory;
use std::alloc::Global;

// A law: a word is text, as its type says.
fn text_law(word: &str)
    ensures { IsUtf8 word.now }
{
    let _word = word;
}

// A law: so is each word of a list.
fn texts_law(words: &[&str])
    ensures { All (λ (s : Bor (List ℕ)). IsUtf8 s.now) words.now }
{
    for word in words {
        text_law(*word);
    }
}

/// Reads the words after a command's own by clap. The command has the options of these long names, each with a
/// value, as `--name VALUE` or `--name=VALUE`, in any order and at most once, and exactly these names; a word
/// that begins with `-`, other than `-` alone, is no name, except after a word `--`, which ends the options.
///
/// `None` exactly where the words give nothing by that rule. Else the matches hold, under its long name and
/// under its id, the word of each option and each name that was used, and no other. Values are not tested: they
/// may be empty or no number. The title is clap's name for the command and changes nothing.
///
/// The error is want of memory, and may come whatever the words are.
pub fn read_words<'a>(
    alloc: Global,
    title: &'a str,
    longs: &[&'a str],
    names: &[&'a str],
    words: &'a [&'a str],
) -> Result<Option<ArgMatches<'a>>, Memory>
    requires { HaveNoEquals (texts longs.now) }
    ensures { IfOk result
        (λ r. MatchOption r (words_give (texts longs.now) (texts names.now) (texts words.entry.now) ≡ None)
        (Reads (texts longs.now) (texts names.now) (texts words.entry.now))) }
{
    texts_law(words);
    let command = command_with(alloc, title, longs, names)?;
    match command.try_get_matches_from(words) {
        Ok(matches) => Ok(Some(matches)),
        Err(error) => {
            if error.kind() == ErrorKind::OutOfMemory {
                return Err(Memory);
            }
            Ok(None)
        }
    }
}
