use super::{CLOSED, FIRST, REPLACE, UNSAFE, written};
use std::test::Fail;

const EMPTY: &str = "litmus empty\nbody:\nexists: true\n";

/// The replaced file with what it held before.
const OLD: &str =
    "litmus replace\nsetup:\ncreate /f\nwrite /f 0 \"old\"\nbody:\ncreate /g\nwrite /g 0 \"new\"\nrename /g /f\nexists: content(/f) = \"old\"\n";

/// 64 marks.
const MARKS: &str =
    "litmus x\nbody:\nmark a\nmark a\nmark a\nmark a\nmark a\nmark a\nmark a\nmark a\nmark a\nmark a\nmark a\nmark a\nmark a\nmark a\nmark a\nmark a\nmark a\nmark a\nmark a\nmark a\nmark a\nmark a\nmark a\nmark a\nmark a\nmark a\nmark a\nmark a\nmark a\nmark a\nmark a\nmark a\nmark a\nmark a\nmark a\nmark a\nmark a\nmark a\nmark a\nmark a\nmark a\nmark a\nmark a\nmark a\nmark a\nmark a\nmark a\nmark a\nmark a\nmark a\nmark a\nmark a\nmark a\nmark a\nmark a\nmark a\nmark a\nmark a\nmark a\nmark a\nmark a\nmark a\nmark a\nmark a\nexists: false\n";

/// A name, and 63 marks.
const CREATED: &str =
    "litmus x\nbody:\ncreate /f\nmark a\nmark a\nmark a\nmark a\nmark a\nmark a\nmark a\nmark a\nmark a\nmark a\nmark a\nmark a\nmark a\nmark a\nmark a\nmark a\nmark a\nmark a\nmark a\nmark a\nmark a\nmark a\nmark a\nmark a\nmark a\nmark a\nmark a\nmark a\nmark a\nmark a\nmark a\nmark a\nmark a\nmark a\nmark a\nmark a\nmark a\nmark a\nmark a\nmark a\nmark a\nmark a\nmark a\nmark a\nmark a\nmark a\nmark a\nmark a\nmark a\nmark a\nmark a\nmark a\nmark a\nmark a\nmark a\nmark a\nmark a\nmark a\nmark a\nmark a\nmark a\nmark a\nmark a\nexists: false\n";

/// The words, the model file `w`, the litmus file, and the whole text that is written for them, with the status.
const WHOLE: &[(&[&str], &str, &str, &str)] = &[
    (
        &["repair", "a.lit", "@ext4like"],
        "",
        FIRST,
        "repaired 1\nneeded 2 order 3 | 1\nlitmus first\nblock 4096\nsetup:\nbody:\n  create /f\n  fsyncdir /\n  mark done\nexists: seen(done) and not exists(/f)\n0",
    ),
    (
        &["repair", "a.lit", "@ext4like", "--with", "fsync"],
        "",
        FIRST,
        "repaired 1\nneeded 2 order 3 | 1\nlitmus first\nblock 4096\nsetup:\nbody:\n  create /f\n  fsyncdir /\n  mark done\nexists: seen(done) and not exists(/f)\n0",
    ),
    (
        &[
            "repair",
            "a.lit",
            "@ext4like",
            "--log",
            "f",
            "--conflicts",
            "4294967295",
        ],
        "",
        FIRST,
        "repaired 1\nneeded 2 order 3 | 1\nlitmus first\nblock 4096\nsetup:\nbody:\n  create /f\n  fsyncdir /\n  mark done\nexists: seen(done) and not exists(/f)\n0",
    ),
    (
        &["repair", "a.lit", "@ext4like", "--with", "sync"],
        "",
        FIRST,
        "repaired 1\nneeded 2 order 3 | 1\nlitmus first\nblock 4096\nsetup:\nbody:\n  create /f\n  sync\n  mark done\nexists: seen(done) and not exists(/f)\n0",
    ),
    (
        &["repair", "a.lit", "@loose", "--with", "sync"],
        "",
        FIRST,
        "repaired 1\nneeded 2 order 3 | 1\nlitmus first\nblock 4096\nsetup:\nbody:\n  create /f\n  sync\n  mark done\nexists: seen(done) and not exists(/f)\n0",
    ),
    // The order of the program is kept without a sync.
    (
        &["repair", "a.lit", "@sequential"],
        "",
        FIRST,
        "repaired 0\nlitmus first\nblock 4096\nsetup:\nbody:\n  create /f\n  mark done\nexists: seen(done) and not exists(/f)\n0",
    ),
    // The bytes reach the disk before the name.
    (
        &["repair", "a.lit", "@ext4like"],
        "",
        REPLACE,
        "repaired 1\nneeded 3 order 1 4 5 | 2\nlitmus replace\nblock 4096\nsetup:\n  create /f\n  write /f 0 \"old\"\nbody:\n  create /g\n  write /g 0 \"new\"\n  fsync /g\n  rename /g /f\nexists: content(/f) = \"\"\n0",
    ),
    // The state before the body satisfies the question.
    (
        &["repair", "a.lit", "@sequential"],
        "",
        EMPTY,
        "no syncs suffice\norder |\nlitmus empty\nblock 4096\nsetup:\nbody:\nexists: true\n0",
    ),
    (
        &["repair", "a.lit", "@ext4like"],
        "",
        EMPTY,
        "no syncs suffice\norder |\nlitmus empty\nblock 4096\nsetup:\nbody:\nexists: true\n0",
    ),
    (
        &["repair", "a.lit", "@loose"],
        "",
        EMPTY,
        "no syncs suffice\norder |\nlitmus empty\nblock 4096\nsetup:\nbody:\nexists: true\n0",
    ),
    // A write comes before a mark only where a sync stands between them.
    (
        &["repair", "a.lit", "w", "--with", "sync"],
        "model w\nkeep [write] ; po ; [sync] ; po ; [mark]\nend\n",
        "litmus w\nblock 4\nsetup:\ncreate /f\nwrite /f 0 \"x\"\nbody:\nwrite /f 0 \"a\"\nmark m\nexists: seen(m) and content(/f) = \"x\"\n",
        "repaired 1\nneeded 2 order 3 | 1\nlitmus w\nblock 4\nsetup:\n  create /f\n  write /f 0 \"x\"\nbody:\n  write /f 0 \"a\"\n  sync\n  mark m\nexists: seen(m) and content(/f) = \"x\"\n0",
    ),
    // The file's own version is written.
    (
        &["repair", "a.lit", "@ext4like", "--with", "sync"],
        "",
        CLOSED,
        "repaired 0\nlitmus t 2\nblock 4096\nsector 4096\nsetup:\nbody:\n  begin\n  create /f\n  commit\n  mark m\nexists: false\n0",
    ),
];

/// The words, the model file `w`, the litmus file, and how the text begins that is written for them.
const BEGINNINGS: &[(&[&str], &str, &str, &str)] = &[
    (
        &["repair", "a.lit", "@loose"],
        "",
        FIRST,
        "no syncs suffice\norder ",
    ),
    // The state before the body satisfies the question.
    (
        &["repair", "a.lit", "@sequential"],
        "",
        OLD,
        "no syncs suffice\norder ",
    ),
    (
        &["repair", "a.lit", "@ext4like"],
        "",
        OLD,
        "no syncs suffice\norder ",
    ),
    (
        &["repair", "a.lit", "@loose"],
        "",
        OLD,
        "no syncs suffice\norder ",
    ),
    (
        &["repair", "a.lit", "@ext4like"],
        "",
        UNSAFE,
        "repaired 2\nneeded 3 ",
    ),
    // Marks touch nothing, so that there are no sites.
    (
        &["repair", "a.lit", "@ext4like", "--with", "fsync"],
        "",
        MARKS,
        "repaired 0\n",
    ),
    // There are 64 sites, and 128 events with them.
    (
        &["repair", "a.lit", "@ext4like", "--with", "sync"],
        "",
        MARKS,
        "repaired 0\n",
    ),
    // Behind each call stand two sites, and with those behind the first 33 calls there are 130 events.
    (
        &["repair", "a.lit", "@ext4like", "--with", "fsync"],
        "",
        CREATED,
        "litmus refused: line 35 kind 14\n4",
    ),
];

#[test]
fn whole_texts(rt: HostRuntime) -> Result<(), Fail> {
    for (words, model, litmus, want) in WHOLE {
        let files = [("a.lit", litmus.as_bytes()), ("w", model.as_bytes())];
        let answer = written(rt.alloc(), words, files.as_slice(), 0)?;
        assert_eq!(rt; answer.as_slice(), want.as_bytes(), "at {litmus} {want}");
    }
    Ok(())
}

#[test]
fn beginnings(rt: HostRuntime) -> Result<(), Fail> {
    for (words, model, litmus, want) in BEGINNINGS {
        let files = [("a.lit", litmus.as_bytes()), ("w", model.as_bytes())];
        let answer = written(rt.alloc(), words, files.as_slice(), 0)?;
        assert!(rt;
            answer.as_slice().starts_with(want.as_bytes()),
            "at {litmus} {want}"
        );
    }
    Ok(())
}
