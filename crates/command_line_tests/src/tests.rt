//! Words that are taken, and words that are not.
use command_line::{Command, read_words};
use std::alloc::Global;

/// The words, if there is memory for them.
fn owned(alloc: Global, words: &[&str]) -> Option<Vec<String>> {
    let mut owned = Vec::new(alloc);
    for word in words {
        let word = String::from_str(alloc, *word).ok()?;
        owned.push(word).ok()?;
    }
    Some(owned)
}

/// Which further feeds were given, by the numbers of their options.
fn fed_by(feeds: &[Option<&str>; 3]) -> &'static str {
    match feeds {
        [None, None, None] => "none",
        [Some("p"), None, None] => "2",
        [None, Some("q"), None] => "3",
        [None, None, Some("r")] => "4",
        [Some("p"), None, Some("r")] => "2 and 4",
        [Some("p"), Some("q"), Some("r")] => "2 to 4",
        _ => "others",
    }
}

/// What a command is called here.
fn kind(command: &Command<&str>) -> &'static str {
    match command {
        Command::Check { .. } => "check",
        Command::Answer { .. } => "answer",
        Command::Map { .. } => "map",
        Command::Repair { .. } => "repair",
        Command::Serve { tcp: Some(_), .. } => "serve over",
        Command::Serve { workers: None, .. } => "serve",
        Command::Serve { .. } => "serve by",
        Command::Large { .. } => "large",
        Command::Places { .. } => "places",
    }
}

/// What words are read as.
fn read_as(alloc: Global, words: &[String]) -> &'static str {
    match read_words(alloc, words) {
        Err(_) => "memory",
        Ok(None) => "usage",
        Ok(Some(command)) => kind(&command),
    }
}

/// Words, and what they are read as.
type Row = (&'static [&'static str], &'static str);

const ROWS: &[Row] = &[
    (&["glb", "check", "t", "m"], "check"),
    (&["glb", "answer", "t", "m", "a", "h"], "answer"),
    (&["glb", "map", "t"], "map"),
    (&["other", "map", "t"], "map"),
    (&["glb", "places", "t"], "places"),
    (&["glb"], "usage"),
    (&[], "usage"),
    (&["glb", "--help"], "usage"),
    (&["glb", "-h"], "usage"),
    (&["glb", "-V"], "usage"),
    (&["glb", "--version"], "usage"),
    (&["glb", "help"], "usage"),
    (&["glb", "check", "--help"], "usage"),
    (&["glb", "check", "t"], "usage"),
    (&["glb", "check", "t", "m", "x"], "usage"),
    (&["glb", "check", "-t", "m"], "usage"),
    (&["glb", "check", "--", "-t", "-m"], "check"),
    (&["glb", "check", "t", "m", "--"], "check"),
    (&["glb", "--", "check", "t", "m"], "usage"),
    (&["glb", "check", "-", "m"], "check"),
    (&["glb", "check", "", "m"], "check"),
    (&["glb", "check", "-5", "m"], "usage"),
    (&["glb", "answer", "t", "m", "a"], "usage"),
    (&["glb", "map", "t", "--listen", "x"], "usage"),
    (&["glb", "chec", "t", "m"], "usage"),
    (&["glb", "serve", "t"], "usage"),
    (&["glb", "repair", "t", "m", "c"], "repair"),
    (&["glb", "repair", "t", "m"], "usage"),
    (&["glb", "serve", "t", "--listen", "x"], "serve"),
    (
        &["glb", "serve", "--workers", "2", "--listen=x", "t"],
        "serve by",
    ),
    (
        &["glb", "serve", "t", "--tcp", "y", "--listen", "x"],
        "serve over",
    ),
    (
        &[
            "glb",
            "serve",
            "t",
            "--listen",
            "x",
            "--tcp=y",
            "--workers",
            "2",
        ],
        "serve over",
    ),
    (&["glb", "serve", "t", "--workers", "2"], "usage"),
    (&["glb", "serve", "t", "--tcp", "y"], "usage"),
    (&["glb", "serve", "t", "--listen", "x", "--tcp"], "usage"),
    (
        &[
            "glb", "serve", "t", "--listen", "x", "--tcp", "y", "--tcp", "z",
        ],
        "usage",
    ),
    (&["glb", "map", "t", "--tcp", "y"], "usage"),
    (
        &["glb", "serve", "t", "--listen", "x", "--feed2", "p"],
        "serve",
    ),
    (&["glb", "serve", "t", "--feed2", "p"], "usage"),
    (&["glb", "serve", "t", "--listen", "x", "--feed2"], "usage"),
    (
        &["glb", "serve", "t", "--listen", "x", "--feed1", "p"],
        "usage",
    ),
    (
        &["glb", "serve", "t", "--listen", "x", "--feed5", "p"],
        "usage",
    ),
    (
        &["glb", "serve", "t", "--listen", "x", "--feed", "p"],
        "usage",
    ),
    (
        &[
            "glb", "serve", "t", "--listen", "x", "--feed3", "p", "--feed3", "q",
        ],
        "usage",
    ),
    (
        &[
            "glb", "serve", "t", "--listen", "x", "--feed4", "--feed2", "p",
        ],
        "usage",
    ),
    (&["glb", "map", "t", "--feed2", "p"], "usage"),
    (&["glb", "serve", "t", "--listen"], "usage"),
    (
        &["glb", "serve", "t", "--listen", "x", "--listen", "y"],
        "usage",
    ),
    (&["glb", "serve", "t", "-l", "x"], "usage"),
    (&["glb", "large", "64"], "large"),
    (&["glb", "large"], "usage"),
];

fn is_read_so(alloc: Global, row: &Row) -> bool {
    let (words, wanted) = row;
    match owned(alloc, *words) {
        Some(words) => read_as(alloc, words.as_slice()) == *wanted,
        None => false,
    }
}

/// The number of the first row that is read otherwise, from 0.
fn first_wrong(alloc: Global, rows: &[Row]) -> Option<usize> {
    for (i, row) in rows.iter().enumerate() {
        if !is_read_so(alloc, row) {
            return Some(i);
        }
    }
    None
}

/// What a server's words say of its further feeds.
fn feeds_of(alloc: Global, words: &[String]) -> &'static str {
    match read_words(alloc, words) {
        Ok(
            Some(
                Command::Serve {
                    feed2,
                    feed3,
                    feed4,
                    ..
                },
            ),
        ) => fed_by(&[feed2, feed3, feed4]),
        _ => "no server",
    }
}

/// Words of servers, and their further feeds.
const FEEDS: &[Row] = &[
    (&["glb", "serve", "t", "--listen", "x"], "none"),
    (&["glb", "serve", "t", "--listen", "x", "--feed2", "p"], "2"),
    (&["glb", "serve", "--feed3=q", "t", "--listen", "x"], "3"),
    (&["glb", "serve", "t", "--feed4", "r", "--listen", "x"], "4"),
    (
        &[
            "glb", "serve", "t", "--feed4", "r", "--listen", "x", "--feed2", "p",
        ],
        "2 and 4",
    ),
    (
        &[
            "glb",
            "serve",
            "t",
            "--listen",
            "x",
            "--tcp",
            "y",
            "--feed3",
            "q",
            "--workers",
            "2",
            "--feed2",
            "p",
            "--feed4",
            "r",
        ],
        "2 to 4",
    ),
];

/// The number of the first row whose feeds are others, from 0.
fn first_other(alloc: Global, rows: &[Row]) -> Option<usize> {
    for (i, (words, wanted)) in rows.iter().enumerate() {
        match owned(alloc, *words) {
            Some(words) if feeds_of(alloc, words.as_slice()) == *wanted => {}
            _ => return Some(i),
        }
    }
    None
}

#[test]
fn feeds_are_taken(rt: HostRuntime) {
    assert_eq!(rt; first_other(rt.alloc(), FEEDS), None);
}

#[test]
fn words_are_taken(rt: HostRuntime) {
    assert_eq!(rt; first_wrong(rt.alloc(), ROWS), None);
}
