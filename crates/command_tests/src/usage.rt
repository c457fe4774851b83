//! Words that the declaration does not take.
use glb::Status;
use std::process::Abort;
use std::sync::Wait;
use std::test::Fail;
use std::thread::Threads;
use trial_runs::Held::{Bytes, Topology};
use trial_runs::{FLAT, GOOD_FLAT, comes_so};

const USAGE: &[u8] = b"usage: glb check, answer, map, repair, serve or large\n";

const WORDS: &[&[&str]] = &[
    &[],
    &["glb"],
    &["glb", "check"],
    &["glb", "check", "t"],
    &["glb", "check", "t", "m", "m"],
    &["glb", "check", "-t", "m"],
    &["glb", "check", "t", "-m"],
    &["glb", "--", "check", "t", "m"],
    &["glb", "check", "t", "m", "--version"],
    &["glb", "chec", "t", "m"],
    &["glb", "t", "m", "check"],
    &["glb", "map"],
    &["glb", "map", "-t"],
    &["glb", "map", "t", "m"],
    &["glb", "answer", "t", "m"],
    &["glb", "answer", "t", "m", "198.51.100", "00"],
    &["glb", "answer", "t", "m", "198.51.100.7", "123"],
    &["glb", "serve", "t"],
    &["glb", "serve", "t", "--listen", "x"],
    &["glb", "serve", "t", "--listen", "127.0.0.1"],
    &["glb", "serve", "t", "--listen", "127.0.0.1:65536"],
    &["glb", "serve", "t", "--listen", "::1:53"],
    &["glb", "serve", "--listen", "127.0.0.1:53"],
    &[
        "glb",
        "serve",
        "t",
        "--listen",
        "127.0.0.1:53",
        "--workers",
        "0",
    ],
    &[
        "glb",
        "serve",
        "t",
        "--listen",
        "127.0.0.1:53",
        "--workers",
        "17",
    ],
    &[
        "glb",
        "serve",
        "t",
        "--listen",
        "127.0.0.1:53",
        "--workers",
        "01",
    ],
    &["glb", "large", "0"],
    &["glb", "repair", "t", "m"],
    &["glb", "--help"],
    &["check", "t", "m"],
];

/// These words are not taken: the usage is said, and no file is asked for.
fn assert_usage<R: Abort + Threads + Wait + Sync + AllocGlobal>(
    rt: &R,
    words: &[&str],
) -> Result<(), Fail> {
    let held = &[("t", Topology(FLAT)), ("m", Bytes(GOOD_FLAT))];
    let is = comes_so(rt, words, held, Status::Usage, USAGE, 0)?;
    assert!(rt; is, "for {words:?}");
    Ok(())
}

fn assert_usages<R: Abort + Threads + Wait + Sync + AllocGlobal>(
    rt: &R,
    rows: &[&[&str]],
) -> Result<(), Fail> {
    for words in rows {
        assert_usage(rt, words)?;
    }
    Ok(())
}

#[test]
fn usage(rt: HostRuntime) -> Result<(), Fail> {
    assert_usages(&rt, WORDS)
}
