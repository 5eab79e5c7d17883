use super::written;
use std::test::Fail;

/// The usage line.
const USAGE: &str =
    "usage: ferrite check L M | repair L M | verify L M F | replay L M C | events L M | show L | models | work SEED CALLS | explain L M | hint L M F G | trim L M F G | flush L M SEED W\n3";

/// Words, what is written for them over a library that holds nothing, and the status.
const LINES: &[(&[&str], &str)] = &[
    (&[], USAGE),
    (&["check", "a.lit"], USAGE),
    (&["show", "a.lit", "@sequential"], USAGE),
    (&["check", "a.lit", "@ext3"], USAGE),
    (&["replay", "a.lit", "@ext3", "c"], USAGE),
    (&["replay", "a.lit", "@loose"], USAGE),
    (&["replay", "a.lit", "@loose", "c", "--log", "l"], USAGE),
    (&["check", "a.lit", "@sequential", "--log"], USAGE),
    (&["--help"], USAGE),
    (&["check", "a.lit", "@loose", "--branch", "best"], USAGE),
    (&["events", "a.lit", "@loose", "--branch", "first"], USAGE),
    (
        &["check", "a.lit", "@loose", "--branch", "last"],
        "not found: litmus\n6",
    ),
    (
        &["check", "a.lit", "@sequential", "--log", "l"],
        "not found: litmus\n6",
    ),
    (&["check", "a.lit", "@loose", "--conflicts", "5"], USAGE),
    (
        &["check", "a.lit", "@loose", "--log", "l", "--conflicts", "0"],
        USAGE,
    ),
    (
        &[
            "check",
            "a.lit",
            "@loose",
            "--log",
            "l",
            "--conflicts",
            "4294967296",
        ],
        USAGE,
    ),
    (
        &[
            "check",
            "a.lit",
            "@loose",
            "--conflicts",
            "4294967295",
            "--log",
            "l",
        ],
        "not found: litmus\n6",
    ),
    (&["verify", "a.lit", "@loose"], USAGE),
    (&["verify", "a.lit", "@loose", "l"], "not found: litmus\n6"),
    (&["repair", "a.lit", "@sequential"], "not found: litmus\n6"),
    (
        &[
            "repair", "a.lit", "@loose", "--with", "all", "--branch", "first",
        ],
        "not found: litmus\n6",
    ),
    (&["repair", "a.lit"], USAGE),
    (&["repair", "a.lit", "@ext3"], USAGE),
    (&["repair", "a.lit", "@ext4like", "--with", "none"], USAGE),
    (&["repair", "a.lit", "@ext4like", "--conflicts", "5"], USAGE),
    (&["check", "a.lit", "@ext4like", "--with", "sync"], USAGE),
    // One call gives one event, and a question that no crash satisfies.
    (
        &["work", "7", "1"],
        "work 7 1\nevents 1\nsites 1\npairs 0\nkept 0\n0",
    ),
    (
        &["work", "4294967295", "1", "--branch", "last"],
        "work 4294967295 1\nevents 1\nsites 1\npairs 0\nkept 0\n0",
    ),
    (&["work", "7", "33"], USAGE),
    (&["work", "7", "0"], USAGE),
    (&["work", "4294967296", "1"], USAGE),
    (&["work", "7"], USAGE),
    (&["work", "7", "1", "--log", "l"], USAGE),
    (
        &["models"],
        "model sequential\nkeep po\nend\nmodel ext4like\nlet names = [link unlink]\nlet meta = [extend trunc attr]\nkeep po & block\nkeep meta ; (po & file) ; meta\nkeep [write] ; (po & file) ; [extend trunc]\nkeep names ; (po & dir) ; names\nkeep [write extend trunc attr] ; (po & file) ; [fsync]\nkeep names ; (po & dir) ; [fsyncdir]\nkeep po ; [sync]\nkeep [fsync fsyncdir sync mark] ; po\nend\nmodel loose\nkeep po ; [sync]\nkeep [sync] ; po\nend\n0",
    ),
    (&["show", "a.lit"], "not found: litmus\n6"),
];

#[test]
fn lines(rt: HostRuntime) -> Result<(), Fail> {
    for (words, want) in LINES {
        let answer = written(rt.alloc(), words, &[], 0)?;
        assert_eq!(rt; answer.as_slice(), want.as_bytes());
    }
    Ok(())
}
