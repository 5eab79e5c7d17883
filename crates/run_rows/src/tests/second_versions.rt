//! Rows of the second versions of both grammars: transactions and sectors under each model that comes with Ferrite, and
//! models with recursive names.

use super::{REPLACE, crash_line, written};
use std::test::Fail;

/// The events are 1 link /a, 2 link /b, one transaction.
const ATOMIC: &str =
    "litmus atomic 2\nbody:\nbegin\ncreate /a\ncreate /b\ncommit\nexists: exists(/a) and not exists(/b)\n";

const ATOMIC_TURNED: &str =
    "litmus atomic 2\nbody:\nbegin\ncreate /a\ncreate /b\ncommit\nexists: exists(/b) and not exists(/a)\n";

/// The same without the transaction.
const PLAIN: &str =
    "litmus plain 2\nbody:\ncreate /a\ncreate /b\nexists: exists(/a) and not exists(/b)\n";

const PLAIN_TURNED: &str =
    "litmus plain 2\nbody:\ncreate /a\ncreate /b\nexists: exists(/b) and not exists(/a)\n";

/// The events are two writes, of the first sector and of the second one of block 0.
const TORN: &str =
    "litmus torn 2\nblock 4\nsector 2\nsetup:\ncreate /f\nwrite /f 0 \"aaaabbbb\"\nbody:\nwrite /f 0 \"AAAA\"\nexists: content(/f) = \"AAaabbbb\"\n";

const TORN_TURNED: &str =
    "litmus torn 2\nblock 4\nsector 2\nsetup:\ncreate /f\nwrite /f 0 \"aaaabbbb\"\nbody:\nwrite /f 0 \"AAAA\"\nexists: content(/f) = \"aaAAbbbb\"\n";

/// The least solution of `x = x | x` is no pair.
const LEAST: &str = "model least 2\nlet rec x = x | x\nkeep x\nend\n";

/// What `(po & dir)+` is too.
const CHAIN: &str = "model chain 2\nlet rec c = (po & dir) | (c ; c)\nkeep c\nend\n";

/// In the first version `rec` is a name.
const NAMED_REC: &str = "model named\nlet rec = po\nkeep rec\nend\n";

/// The model's word, the model file `m`, the litmus file, and what `check` writes, with the status: the whole of it where
/// at most one crash answers the question, and else no more than that it is allowed.
const ANSWERS: &[(&str, &str, &str, &str)] = &[
    // Both links or none.
    ("@sequential", "", ATOMIC, "forbidden\n0"),
    ("@ext4like", "", ATOMIC, "forbidden\n0"),
    ("@loose", "", ATOMIC, "forbidden\n0"),
    ("@sequential", "", ATOMIC_TURNED, "forbidden\n0"),
    ("@ext4like", "", ATOMIC_TURNED, "forbidden\n0"),
    ("@loose", "", ATOMIC_TURNED, "forbidden\n0"),
    // The first two keep 1 2: `keep po`, and the names of one directory in order. The third keeps nothing without a sync.
    ("@sequential", "", PLAIN, "allowed\norder 1 | 2\n0"),
    ("@ext4like", "", PLAIN, "allowed\norder 1 | 2\n0"),
    ("@loose", "", PLAIN, "allowed\norder 1 | 2\n0"),
    ("@sequential", "", PLAIN_TURNED, "forbidden\n0"),
    ("@ext4like", "", PLAIN_TURNED, "forbidden\n0"),
    ("@loose", "", PLAIN_TURNED, "allowed\norder 2 | 1\n0"),
    // The first two keep 1 2: `keep po`, and what is of one block in order.
    ("@sequential", "", TORN, "allowed\norder 1 | 2\n0"),
    ("@ext4like", "", TORN, "allowed\norder 1 | 2\n0"),
    ("@loose", "", TORN, "allowed\norder 1 | 2\n0"),
    ("@sequential", "", TORN_TURNED, "forbidden\n0"),
    ("@ext4like", "", TORN_TURNED, "forbidden\n0"),
    ("@loose", "", TORN_TURNED, "allowed\norder 2 | 1\n0"),
    // The name holds the new file, event 3, without its bytes, event 2. Event 4 goes with 3. Without a kept pair event 1
    // may be lost or not; with 1 3 it isn't, and the order is given; with all pairs event 2 isn't lost either.
    ("m", LEAST, REPLACE, "allowed\n"),
    ("m", CHAIN, REPLACE, "allowed\norder 1 3 4 | 2\n0"),
    ("m", NAMED_REC, REPLACE, "forbidden\n0"),
];

/// Each is answered so, and a crash that is printed is accepted by `replay`.
#[test]
fn answers(rt: HostRuntime) -> Result<(), Fail> {
    let alloc = rt.alloc();
    for (model, text, litmus, want) in ANSWERS {
        let files = [("a.lit", litmus.as_bytes()), ("m", text.as_bytes())];
        let answer = written(alloc, &["check", "a.lit", model], files.as_slice(), 0)?;
        let answer = answer.as_slice();
        assert!(rt; answer.starts_with(want.as_bytes()), "at {model} {litmus}");
        let line = crash_line(answer);
        if line.is_empty() {
            continue;
        }
        let files = [
            ("a.lit", litmus.as_bytes()),
            ("m", text.as_bytes()),
            ("c", line),
        ];
        let judged = written(alloc, &["replay", "a.lit", model, "c"], files.as_slice(), 0)?;
        let accepted = b"crash accepted\n0".as_slice();
        assert_eq!(rt; judged.as_slice(), accepted, "at {model} {litmus}");
    }
    Ok(())
}

/// The model's word, the model file `m`, the litmus file, and what `events` writes, with the status.
const TABLES: &[(&str, &str, &str, &str)] = &[
    (
        "@loose",
        "",
        ATOMIC,
        "event 1 link path /a file 0 call 2 txn 1\nevent 2 link path /b file 1 call 3 txn 1\n0",
    ),
    (
        "@ext4like",
        "",
        ATOMIC,
        "event 1 link path /a file 0 call 2 txn 1\nevent 2 link path /b file 1 call 3 txn 1\nkeep 1 2\n0",
    ),
    (
        "@loose",
        "",
        PLAIN,
        "event 1 link path /a file 0 call 1 txn 1\nevent 2 link path /b file 1 call 2 txn 2\n0",
    ),
    (
        "@sequential",
        "",
        TORN,
        "event 1 write file 0 block 0 at 0 len 2 call 1 txn 1\nevent 2 write file 0 block 0 at 2 len 2 call 1 txn 2\nkeep 1 2\n0",
    ),
    (
        "@loose",
        "",
        TORN,
        "event 1 write file 0 block 0 at 0 len 2 call 1 txn 1\nevent 2 write file 0 block 0 at 2 len 2 call 1 txn 2\n0",
    ),
    (
        "m",
        LEAST,
        REPLACE,
        "event 1 link path /g file 1 call 1 txn 1\nevent 2 extend file 1 block 0 at 0 len 3 size 3 call 2 txn 2\nevent 3 link path /f file 1 call 3 txn 3\nevent 4 unlink path /g file 1 call 3 txn 3\n0",
    ),
    (
        "m",
        CHAIN,
        REPLACE,
        "event 1 link path /g file 1 call 1 txn 1\nevent 2 extend file 1 block 0 at 0 len 3 size 3 call 2 txn 2\nevent 3 link path /f file 1 call 3 txn 3\nevent 4 unlink path /g file 1 call 3 txn 3\nkeep 1 3\nkeep 1 4\nkeep 3 4\n0",
    ),
    (
        "m",
        NAMED_REC,
        REPLACE,
        "event 1 link path /g file 1 call 1 txn 1\nevent 2 extend file 1 block 0 at 0 len 3 size 3 call 2 txn 2\nevent 3 link path /f file 1 call 3 txn 3\nevent 4 unlink path /g file 1 call 3 txn 3\nkeep 1 2\nkeep 1 3\nkeep 1 4\nkeep 2 3\nkeep 2 4\nkeep 3 4\n0",
    ),
    // The first version has no recursive names, and a name stands for nothing before its line.
    (
        "m",
        "model chain\nlet rec c = (po & dir) | (c ; c)\nkeep c\nend\n",
        REPLACE,
        "model refused: line 2 kind 3\n5",
    ),
    (
        "m",
        "model unknown 2\nlet rec x = y\nkeep x\nend\n",
        REPLACE,
        "model refused: line 2 kind 4\n5",
    ),
];

#[test]
fn tables(rt: HostRuntime) -> Result<(), Fail> {
    for (model, text, litmus, want) in TABLES {
        let files = [("a.lit", litmus.as_bytes()), ("m", text.as_bytes())];
        let answer = written(rt.alloc(), &["events", "a.lit", model], files.as_slice(), 0)?;
        assert_eq!(rt; answer.as_slice(), want.as_bytes(), "at {model} {text}");
    }
    Ok(())
}
