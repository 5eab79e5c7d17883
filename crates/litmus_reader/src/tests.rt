use super::*;
use litmus_syntax::print;
use std::test::Fail;

/// The canonical text of what is read, or the line and the number of the kind of the refusal.
fn answer(rt: &HostRuntime, bytes: &[u8]) -> Result<String, Fail> {
    let alloc = rt.alloc();
    match read(alloc, bytes) {
        Ok(litmus) => Ok(String::from_utf8(print(alloc, &litmus)?)?),
        Err(LitmusFault::Refused { line, kind }) => Ok(format!(in alloc;
            "{line} {}",
            kind.number()
        )?),
        Err(LitmusFault::OutOfMemory) => Ok(format!(in alloc; "out of memory")?),
    }
}

const EACH_CALL: &str =
    "litmus all\nblock 512\nsetup:\n  mkdir /d\n  create /d/f\n  write /d/f 0 \"ab\"\nbody:\n  append /d/f \"c\\n\"\n  truncate /d/f 2\n  link /d/f /g\n  unlink /g\n  rename /d/f /h\n  attr /h key 7\n  fsync /h\n  fsyncdir /\n  sync\n  mark w\nexists: exists(/h) and seen(w)\n";

const TWO_TRANSACTIONS: &str =
    "litmus two 2\nblock 4096\nsector 512\nsetup:\n  create /f\nbody:\n  begin\n  append /f \"a\"\n  rename /f /g\n  commit\n  sync\n  begin\n  commit\nalways: not exists(/f)\n";

/// A text, and its canonical text or the line and the number of the kind of its refusal.
const TEXTS: &[(&str, &str)] = &[
    (EACH_CALL, EACH_CALL),
    (TWO_TRANSACTIONS, TWO_TRANSACTIONS),
    (
        "\tlitmus\ta # c\r\n\nbody:\nappend /f \"#\\x41\\x22\"# end\nalways: not(true or false)",
        "litmus a\nblock 4096\nsetup:\nbody:\n  append /f \"#A\\\"\"\nalways: not (true or false)\n",
    ),
    (
        "litmus a 01\nbody:\nexists: true",
        "litmus a\nblock 4096\nsetup:\nbody:\nexists: true\n",
    ),
    (
        "litmus a 02\nblock 9\nbody:\nexists: true",
        "litmus a 2\nblock 9\nsector 9\nsetup:\nbody:\nexists: true\n",
    ),
    (
        "litmus a 2\nblock 9\nsector 4\nbody:\nexists: true",
        "litmus a 2\nblock 9\nsector 4\nsetup:\nbody:\nexists: true\n",
    ),
    ("", "1 8"),
    ("litmus x\n\nbody:\n", "4 8"),
    ("litmus x 2\nbody:\nbegin\n", "4 8"),
    ("litmus x\rbody:\n", "1 1"),
    ("litmus x\nbody:\nappend /f \"\x01\"\n", "3 1"),
    ("litmus x\nbody:\x01 !\n", "2 1"),
    ("litmus x\nbody: !\n", "2 2"),
    ("mkdir\n", "1 3"),
    ("litmus x 0\n", "1 3"),
    ("litmus x 3\n", "1 3"),
    ("litmus x 99999999999\n", "1 3"),
    ("litmus x\nlitmus y 3\n", "2 3"),
    ("sector 512\n", "1 3"),
    ("litmus x 1\nsector 512\n", "2 3"),
    ("litmus x\nbody:\nbegin\n", "3 3"),
    ("litmus x\nbody:\nwrite /f 99999999999\n", "3 3"),
    ("block 0\n", "1 4"),
    ("litmus x\nlitmus y 2\n", "2 4"),
    ("litmus x 2\nsector 512\nblock 512\n", "3 4"),
    ("litmus x\nmark a\n", "2 4"),
    ("litmus x\nbody:\nexists: true\nexists: (\n", "4 4"),
    ("litmus x 2\nbody:\ncommit\n", "3 4"),
    ("litmus x 2\nbody:\nbegin\nbegin\n", "4 4"),
    (
        "litmus x 2\nbody:\nbegin\nunlink /f\nexists: size(/f) = 4294967296\n",
        "5 4",
    ),
    ("litmus x\nblock 0\n!\n", "2 5"),
    ("litmus x 2\nsector 0\n", "2 5"),
    ("litmus x 2\nsector 4097\n", "2 5"),
    ("litmus x 2\nblock 8\nsector 9\n", "3 5"),
    ("litmus x\nbody:\nexists: 4294967296\n", "3 5"),
    ("litmus x 2\nsetup:\ntruncate /f 4294967296\nbegin\n", "3 5"),
    ("litmus x\nbody:\nmkdir /d\n", "3 6"),
    ("litmus x\nsetup:\nsync\n", "3 6"),
    ("litmus x 2\nsetup:\ncommit\n", "3 6"),
    ("litmus x 2\nbody:\nbegin\nmark m\n", "4 6"),
    ("litmus x 2\nbody:\nbegin\nfsync /f\nbegin\n", "4 6"),
    ("litmus x\nbody:\nexists: true and\n", "3 7"),
    ("litmus x\nbody:\nexists: bytes(/f, 65536) = \"a\"\n", "3 7"),
];

#[test]
fn texts_are_read_or_refused(rt: HostRuntime) -> Result<(), Fail> {
    for (bytes, want) in TEXTS {
        let got = answer(&rt, bytes.as_bytes())?;
        assert_eq!(rt; got.as_str(), *want, "at {bytes}");
    }
    Ok(())
}

/// Whether a text is read that has `unit` so many times between `head` and `mid`, and `end` as often behind that; else
/// where and why it is refused.
fn answer_at(rt: &HostRuntime, count: usize, parts: [&str; 5]) -> Result<String, Fail> {
    let alloc = rt.alloc();
    let [head, unit, mid, end, tail] = parts;
    let mut bytes = Vec::new(alloc);
    bytes.extend_from_slice(head.as_bytes())?;
    for _ in 0..count {
        bytes.extend_from_slice(unit.as_bytes())?;
    }
    bytes.extend_from_slice(mid.as_bytes())?;
    for _ in 0..count {
        bytes.extend_from_slice(end.as_bytes())?;
    }
    bytes.extend_from_slice(tail.as_bytes())?;
    match read(alloc, bytes.as_slice()) {
        Ok(_) => Ok(format!(in alloc; "read")?),
        Err(_) => answer(rt, bytes.as_slice()),
    }
}

const SETUP: &str = "litmus a\nsetup:\n";

const BODY: &str = "litmus a\nbody:\n";

const ASKED: &str = "litmus a\nbody:\nexists: ";

const FILE: &str = "litmus a\nbody:\nexists: true\n#";

const CONTENT: &str = "litmus a\nbody:\nexists: content(/f) = \"";

/// How often the second part of a text stands behind its first, and the fourth behind its third, and what is answered.
const LIMITS: &[(usize, [&str; 5], &str)] = &[
    (
        256,
        [SETUP, "create /f\n", "body:\nexists: true\n", "", ""],
        "read",
    ),
    (
        257,
        [SETUP, "create /f\n", "body:\nexists: true\n", "", ""],
        "259 9",
    ),
    (256, [SETUP, "create /f\n", "sync\n", "", ""], "259 6"),
    (
        128,
        [BODY, "sync\nmark a\n", "exists: true\n", "", ""],
        "read",
    ),
    (
        129,
        [BODY, "sync\nmark a\n", "exists: true\n", "", ""],
        "260 9",
    ),
    (
        0,
        ["litmus a\nblock 1\n", "", "body:\nexists: true\n", "", ""],
        "read",
    ),
    (
        0,
        [
            "litmus a\nblock 65536\n",
            "",
            "body:\nexists: true\n",
            "",
            "",
        ],
        "read",
    ),
    (0, ["litmus a\nblock 65537\n", "", "", "", ""], "2 5"),
    (
        0,
        [BODY, "", "truncate /f 4294967295\nexists: true\n", "", ""],
        "read",
    ),
    (0, [BODY, "", "truncate /f 4294967296\n", "", ""], "3 5"),
    (
        64,
        [
            "litmus a 2\nbody:\n",
            "begin\ncommit\n",
            "sync\nexists: true\n",
            "",
            "",
        ],
        "read",
    ),
    (
        64,
        ["litmus a 2\nbody:\n", "begin\ncommit\n", "begin\n", "", ""],
        "131 9",
    ),
    (4096, [CONTENT, "\\x41", "\"\n", "", ""], "read"),
    (4097, [CONTENT, "a", "\"\n", "", ""], "3 9"),
    (255, [ASKED, "true or ", "true\n", "", ""], "read"),
    (256, [ASKED, "true or ", "true\n", "", ""], "3 9"),
    (256, [ASKED, "not ", "true\n", "", ""], "read"),
    (257, [ASKED, "not ", "\n", "", ""], "3 9"),
    (64, [ASKED, "(", "true", ")", "\n"], "read"),
    (65, [ASKED, "(", "true", ")", "\n"], "3 9"),
    (65507, [FILE, "x", "", "", ""], "read"),
    (65508, [FILE, "x", "", "", ""], "0 9"),
];

#[test]
fn limits_are_those_of_the_grammar(rt: HostRuntime) -> Result<(), Fail> {
    for (count, parts, want) in LIMITS {
        let got = answer_at(&rt, *count, *parts)?;
        assert_eq!(rt; got.as_str(), *want, "at {count} {}", parts[1]);
    }
    Ok(())
}
