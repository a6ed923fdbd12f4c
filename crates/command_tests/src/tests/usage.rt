//! How the program is used, and which command was meant.
use dsc_usage::{USAGE, nearest_command};
use std::test::Fail;

/// A word, and the command that it nearly is.
const MEANT: [(&str, Option<&str>); 12] = [
    ("jion", Some("join")),
    ("joins", Some("join")),
    ("wtach", Some("watch")),
    ("captr", Some("capture")),
    ("sentance", Some("sentences")),
    ("Book", Some("book")),
    ("evidnce", Some("evidence")),
    ("join", None),
    ("jo", None),
    ("listen", None),
    ("--help", None),
    ("", None),
];

#[test]
fn words_that_are_nearly_a_command(rt: HostRuntime) -> Result<(), Fail> {
    for (word, meant) in MEANT {
        assert_eq!(rt; nearest_command(rt.alloc(), word)?, meant, "{word}");
    }
    Ok(())
}

/// The commands as the manual has them: how the program is used names each of them, in ten lines at most.
#[test]
fn usage_names_each_command(rt: HostRuntime) -> Result<(), Fail> {
    let names = "join evidence watch capture encode sentences book replay exchange make";
    for name in names.split_whitespace() {
        assert!(rt; USAGE.split_whitespace().any(|word| word == name), "{name}");
    }
    assert!(rt; USAGE.lines().count() <= 10);
    Ok(())
}
