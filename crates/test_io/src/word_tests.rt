use ppd_top_requests::commands::CommandName;
use ppd_top_requests::{read_command, read_words};
use std::alloc::Global;

/// Words, and which command they are read as, with the value of an option or a name.
type Row = (
    &'static [&'static str],
    CommandName,
    &'static str,
    Option<&'static str>,
);

const ROWS: [Row; 8] = [
    (
        &["flow", "--budget", "5", "maße.c"],
        CommandName::Flow,
        "source",
        Some("maße.c"),
    ),
    (
        &["flow", "x.c", "--loops=3"],
        CommandName::Flow,
        "loops",
        Some("3"),
    ),
    (
        &["run", "x.c", "--leaf", "1", "x.log"],
        CommandName::Run,
        "recording",
        Some("x.log"),
    ),
    (&["run", "x.c", "x.log"], CommandName::Run, "budget", None),
    (
        &["debug", "--", "--x"],
        CommandName::Debug,
        "recording",
        Some("--x"),
    ),
    (
        &["show", "--loops", "2", "-"],
        CommandName::Show,
        "source",
        Some("-"),
    ),
    (
        &["show", "--leaf=", ""],
        CommandName::Show,
        "leaf",
        Some(""),
    ),
    (&["drill", "7"], CommandName::Drill, "number", Some("7")),
];

fn is_read_as(alloc: Global, (words, command, id, value): &Row) -> bool {
    match read_command(alloc, words) {
        Ok(Some(given)) => given.command == *command && given.value(id) == *value,
        _ => false,
    }
}

/// Whether the option and the names of these words are read.
fn are_read(alloc: Global, words: &[&str]) -> bool {
    match read_words(alloc, "any", &["größe"], &["first", "second"], words) {
        Ok(Some(matches)) => {
            matches.get_str("größe") == Some("1=2")
                && matches.get_str("first") == Some("a")
                && matches.get_str("second") == Some("b")
        }
        _ => false,
    }
}

// With memory enough each command is read; a name is any text, and options and names may be any.
#[test]
fn words_are_read(rt: HostRuntime) {
    for row in &ROWS {
        assert!(rt; is_read_as(rt.alloc(), row), "{}", row.2);
    }
    assert!(rt; are_read(rt.alloc(), &["a", "--größe=1=2", "b"]));
}
