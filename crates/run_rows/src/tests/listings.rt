use super::{FIRST, REPLACE, written};
use std::test::Fail;

/// The model's word, the model file `m`, the litmus file, what `events` writes about them and the status.
const TABLES: &[(&str, &str, &str, &str)] = &[
    (
        "@ext4like",
        "",
        REPLACE,
        "event 1 link path /g file 1 call 1 txn 1\nevent 2 extend file 1 block 0 at 0 len 3 size 3 call 2 txn 2\nevent 3 link path /f file 1 call 3 txn 3\nevent 4 unlink path /g file 1 call 3 txn 3\nkeep 1 3\nkeep 1 4\nkeep 3 4\n0",
    ),
    (
        "@loose",
        "",
        REPLACE,
        "event 1 link path /g file 1 call 1 txn 1\nevent 2 extend file 1 block 0 at 0 len 3 size 3 call 2 txn 2\nevent 3 link path /f file 1 call 3 txn 3\nevent 4 unlink path /g file 1 call 3 txn 3\n0",
    ),
    (
        "m",
        "model m\nlet a = po & file\nkeep a ; [link] ; a\nend\n",
        REPLACE,
        "event 1 link path /g file 1 call 1 txn 1\nevent 2 extend file 1 block 0 at 0 len 3 size 3 call 2 txn 2\nevent 3 link path /f file 1 call 3 txn 3\nevent 4 unlink path /g file 1 call 3 txn 3\nkeep 1 4\nkeep 2 4\n0",
    ),
    (
        "@ext4like",
        "",
        "litmus x\nsetup:\ncreate /f\nwrite /f 0 \"ab\"\nbody:\nwrite /f 1 \"XY\"\nwrite /f 6 \"Z\"\nexists: true\n",
        "event 1 extend file 0 block 0 at 1 len 2 size 3 call 1 txn 1\nevent 2 extend file 0 block 0 at 6 len 1 size 7 call 2 txn 2\nkeep 1 2\n0",
    ),
    (
        "@loose",
        "",
        "litmus x\nbody:\ncreate /a\nsync\ncreate /b\nexists: true\n",
        "event 1 link path /a file 0 call 1 txn 1\nevent 2 sync call 2 txn 2\nevent 3 link path /b file 1 call 3 txn 3\nkeep 1 2\nkeep 2 3\n0",
    ),
    (
        "m",
        "model m\nkeep early\nlet early = po\nend\n",
        FIRST,
        "model refused: line 2 kind 4\n5",
    ),
    ("m", "model m\n", FIRST, "model refused: line 2 kind 8\n5"),
];

#[test]
fn tables(rt: HostRuntime) -> Result<(), Fail> {
    for (model, text, litmus, want) in TABLES {
        let files = [("a.lit", litmus.as_bytes()), ("m", text.as_bytes())];
        let answer = written(rt.alloc(), &["events", "a.lit", model], files.as_slice(), 0)?;
        assert_eq!(rt; answer.as_slice(), want.as_bytes(), "at {model} {text}");
    }
    Ok(())
}
