use super::{BAD_CALL, FIRST, REPLACE, SOUND_MODEL, written};
use std::alloc::{AllocError, Global};
use std::test::Fail;

/// The test without events, of which the question is answered by every crash.
const EMPTY: &str = "litmus empty\nbody:\nexists: true\n";

const PROMISE: &str = "litmus promise\nbody:\ncreate /f\nalways: exists(/f)\n";

const REPLAY: &[&str] = &["replay", "a.lit", "@ext4like", "c"];

const REPLAY_LOOSE: &[&str] = &["replay", "a.lit", "@loose", "c"];

const REPLAY_FILE: &[&str] = &["replay", "a.lit", "m", "c"];

/// Words, the files that are held, the fetch that fails, what is written, and the status.
const REPLAYS: &[(&[&str], &[(&str, &str)], u64, &str)] = &[
    // The events are 1 link /g, 2 extend, 3 link /f, 4 unlink /g, the last two one transaction, and of these 1 3, 1 4 and
    // 3 4 are kept.
    (
        REPLAY,
        &[("a.lit", REPLACE), ("c", "order 1 3 4 | 2\n")],
        0,
        "crash accepted\n0",
    ),
    (
        REPLAY,
        &[("a.lit", REPLACE), ("c", "allowed\norder 1 3 4 | 2")],
        0,
        "crash accepted\n0",
    ),
    (
        REPLAY,
        &[("a.lit", REPLACE), ("c", "order 1 3 4 | 1\n")],
        0,
        "crash refused: kind 1\n1",
    ),
    (
        REPLAY,
        &[("a.lit", REPLACE), ("c", "order 3 1 4 | 2\n")],
        0,
        "crash refused: kind 2 pair 1 3\n1",
    ),
    (
        REPLAY,
        &[("a.lit", REPLACE), ("c", "order 1 | 4 2 3\n")],
        0,
        "crash refused: kind 2 pair 3 4\n1",
    ),
    (
        REPLAY,
        &[("a.lit", REPLACE), ("c", "order 1 3 | 4 2\n")],
        0,
        "crash refused: kind 3 transaction 3\n1",
    ),
    (
        REPLAY,
        &[("a.lit", REPLACE), ("c", "order | 1 2 3 4\n")],
        0,
        "crash refused: kind 4\n1",
    ),
    (
        REPLAY,
        &[("a.lit", REPLACE), ("c", "order 1 3 4 2\n")],
        0,
        "crash refused: kind 5\n1",
    ),
    // The same test and crash under models that keep less, and more.
    (
        REPLAY_LOOSE,
        &[("a.lit", REPLACE), ("c", "order 3 4 | 1 2\n")],
        0,
        "crash accepted\n0",
    ),
    (
        REPLAY_FILE,
        &[
            ("a.lit", REPLACE),
            ("m", SOUND_MODEL),
            ("c", "order 1 3 4 | 2\n"),
        ],
        0,
        "crash refused: kind 2 pair 2 3\n1",
    ),
    (
        REPLAY,
        &[("a.lit", PROMISE), ("c", "order | 1\n")],
        0,
        "crash accepted\n0",
    ),
    (
        REPLAY,
        &[("a.lit", PROMISE), ("c", "order 1 |\n")],
        0,
        "crash refused: kind 4\n1",
    ),
    (
        REPLAY,
        &[("a.lit", EMPTY), ("c", "order |\n")],
        0,
        "crash accepted\n0",
    ),
    (
        REPLAY,
        &[("a.lit", EMPTY), ("c", "order | 1\n")],
        0,
        "crash refused: kind 1\n1",
    ),
    // The first step that fails is answered: the crash file is fetched behind all others, and read last.
    (REPLAY, &[], 0, "not found: litmus\n6"),
    (
        REPLAY_FILE,
        &[("a.lit", BAD_CALL)],
        0,
        "not found: model\n6",
    ),
    (
        REPLAY_FILE,
        &[("a.lit", BAD_CALL), ("m", SOUND_MODEL)],
        0,
        "litmus refused: line 3 kind 10\n4",
    ),
    (
        REPLAY_FILE,
        &[("a.lit", BAD_CALL), ("m", SOUND_MODEL), ("c", "order")],
        3,
        "litmus refused: line 3 kind 10\n4",
    ),
    (
        REPLAY_FILE,
        &[("a.lit", FIRST), ("m", SOUND_MODEL)],
        0,
        "not found: crash\n6",
    ),
    (
        REPLAY_FILE,
        &[("a.lit", FIRST), ("m", SOUND_MODEL), ("c", "order")],
        3,
        "read fault: crash\n7",
    ),
    (
        REPLAY,
        &[("a.lit", FIRST), ("c", "order")],
        2,
        "read fault: crash\n7",
    ),
];

/// The one crash of a test without events, with so many spaces before its bar.
fn spaced(alloc: Global, spaces: usize) -> Result<Vec<u8>, AllocError> {
    let mut text = Vec::from_slice(alloc, b"order")?;
    for _ in 0..spaces {
        text.push(b' ')?;
    }
    text.push(b'|')?;
    Ok(text)
}

#[test]
fn replays(rt: HostRuntime) -> Result<(), Fail> {
    let alloc = rt.alloc();
    for (words, texts, failing, want) in REPLAYS {
        let mut files = Vec::new(alloc);
        for (name, text) in *texts {
            files.push((*name, text.as_bytes()))?;
        }
        let answer = written(alloc, words, files.as_slice(), *failing)?;
        assert_eq!(rt; answer.as_slice(), want.as_bytes());
    }
    // Files of 4,096 bytes, and of 4,097.
    for (spaces, want) in [
        (4090, "crash accepted\n0"),
        (4091, "crash refused: kind 5\n1"),
    ] {
        let crash = spaced(alloc, spaces)?;
        let files = [("a.lit", EMPTY.as_bytes()), ("c", crash.as_slice())];
        let answer = written(alloc, REPLAY, files.as_slice(), 0)?;
        assert_eq!(rt; answer.as_slice(), want.as_bytes());
    }
    Ok(())
}
