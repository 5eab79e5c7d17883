use super::{BAD_CALL, CLOSED, FIRST, REPLACE, UNSAFE, said_over, written};
use fer_outside::{FetchError, Library, MemLibrary};
use std::alloc::{AllocError, Global};
use std::test::Fail;

/// No crash makes the predicate true.
const NEVER: &str = "litmus first\nbody:\n  create /f\n  mark done\nexists: false\n";

/// Both names of a rename, which is whole, never hold one file.
const BOTH: &str =
    "litmus replace\nsetup:\ncreate /f\nwrite /f 0 \"old\"\nbody:\ncreate /g\nwrite /g 0 \"new\"\nrename /g /f\nexists: same(/f, /g)\n";

/// A file replaced with both syncs that this needs.
const REPLACED: &str =
    "litmus safe-replace\nsetup:\nmkdir /etc\ncreate /etc/conf\nwrite /etc/conf 0 \"v1\"\nbody:\ncreate /etc/conf.new\nwrite /etc/conf.new 0 \"v2\"\nfsync /etc/conf.new\nrename /etc/conf.new /etc/conf\nfsyncdir /etc\nmark saved\nalways: (content(/etc/conf) = \"v1\" or content(/etc/conf) = \"v2\") and (not seen(saved) or content(/etc/conf) = \"v2\")\n";

/// A log of the test `NEVER` in program order, whose question has 4 variables and 5 clauses.
const SHORT_LOG: &str = "ferrite log 1\nsites none\nformula 4 5\n0\nend\n";

/// The model, the test, a log, and what `verify` writes of it with the status. Over `FIRST` the question has 10 variables
/// and 18 clauses in program order, and one clause less under `@ext4like`, which lets the creation come late.
const LOGS: &[(&str, &str, &str, &str)] = &[
    (
        "@sequential",
        FIRST,
        "ferrite log 1\nsites none\nformula 10 18\n0\nend\n",
        "log accepted: 0 sites\n0",
    ),
    (
        "@sequential",
        FIRST,
        "ferrite log 1\nsites none\nformula 10 18\n-10 0\n0\nend\n",
        "log accepted: 0 sites\n0",
    ),
    (
        "@sequential",
        FIRST,
        "ferrite log 1\nsites none\nformula 10 17\n0\nend\n",
        "log refused: line 3 kind 5\n1",
    ),
    (
        "@sequential",
        FIRST,
        "ferrite log 1\nsites none\nformula 10 18\nend\n",
        "log refused: line 4 kind 7\n1",
    ),
    (
        "@ext4like",
        FIRST,
        "ferrite log 1\nsites none\nformula 10 17\n0\nend\n",
        "log refused: line 4 kind 6\n1",
    ),
    ("@sequential", NEVER, SHORT_LOG, "log accepted: 0 sites\n0"),
    (
        "@sequential",
        NEVER,
        "ferrite log 1\nsites none\nformula 4294967295 1\n0\nend\n",
        "log refused: line 3 kind 5\n1",
    ),
    (
        "@sequential",
        NEVER,
        "ferrite log 1\nsites none\nformula 4 5\n1  2 0\n0\nend\n",
        "log refused: line 4 kind 1\n1",
    ),
    (
        "@sequential",
        NEVER,
        "ferrite log 1\nsites none\nformula 4 5\n5 0\n0\nend\n",
        "log refused: line 4 kind 2\n1",
    ),
    (
        "@sequential",
        NEVER,
        "ferrite log 2\nsites fsync 2\nformula 4 5\n0\nend\n",
        "log refused: line 4 kind 1\n1",
    ),
    (
        "@sequential",
        NEVER,
        "ferrite log 2\nsites fsync 2\nformula 4 5\nquestion\n0\nend\n",
        "log refused: line 3 kind 5\n1",
    ),
    (
        "@sequential",
        NEVER,
        "ferrite log 1\nsites fsync 5\nformula 1 1\n0\nend\n",
        "log refused: line 2 kind 5\n1",
    ),
    // The first version codes the events with the sites of the log alone, the second one those with all sites.
    (
        "@ext4like",
        FIRST,
        "ferrite log 1\nsites fsync 2\nformula 13 25\n0\nend\n",
        "log accepted: 1 sites\n0",
    ),
    // There are four sites, two behind each call.
    (
        "@ext4like",
        FIRST,
        "ferrite log 1\nsites fsync 5\nformula 13 25\n0\nend\n",
        "log refused: line 2 kind 5\n1",
    ),
    (
        "@ext4like",
        FIRST,
        "ferrite log 1\nsites fsync 4\nformula 1 1\n0\nend\n",
        "log refused: line 3 kind 5\n1",
    ),
    (
        "@ext4like",
        FIRST,
        "ferrite log 2\nsites fsync 2\nformula 28 87\n0\nend\n",
        "log refused: line 4 kind 1\n1",
    ),
    (
        "@ext4like",
        FIRST,
        "ferrite log 2\nsites fsync 2\nformula 28 86\nquestion\n0\nend\n",
        "log refused: line 3 kind 5\n1",
    ),
    (
        "@ext4like",
        FIRST,
        "ferrite log 2\nsites sync 1\nformula 17 37\nquestion\n0\nend\n",
        "log accepted: 1 sites\n0",
    ),
    // A transaction has no site in it, so that there are two, behind `commit` and `mark`.
    (
        "@ext4like",
        CLOSED,
        "ferrite log 1\nsites sync 3\nformula 1 1\n0\nend\n",
        "log refused: line 2 kind 5\n1",
    ),
    (
        "@ext4like",
        CLOSED,
        "ferrite log 1\nsites sync 2\nformula 1 1\n0\nend\n",
        "log refused: line 3 kind 5\n1",
    ),
];

#[test]
fn logs_are_judged(rt: HostRuntime) -> Result<(), Fail> {
    let alloc = rt.alloc();
    for (model, litmus, log, want) in LOGS {
        let files = [("a.lit", litmus.as_bytes()), ("f", log.as_bytes())];
        let answer = written(alloc, &["verify", "a.lit", model, "f"], files.as_slice(), 0)?;
        assert_eq!(rt; answer.as_slice(), want.as_bytes());
    }
    Ok(())
}

/// From how many of the first bytes of `SHORT_LOG` on, and below how many, `verify` writes this of them.
const CUTS: &[(usize, usize, &str)] = &[
    (0, 1, "log refused: line 1 kind 3\n1"),
    (1, 13, "log refused: line 1 kind 1\n1"),
    (13, 15, "log refused: line 2 kind 3\n1"),
    (15, 24, "log refused: line 2 kind 1\n1"),
    (24, 26, "log refused: line 3 kind 3\n1"),
    (26, 36, "log refused: line 3 kind 1\n1"),
    (36, 38, "log refused: line 4 kind 3\n1"),
    (38, 40, "log refused: line 5 kind 3\n1"),
    (40, 42, "log refused: line 5 kind 1\n1"),
    (42, 44, "log accepted: 0 sites\n0"),
];

#[test]
fn cut_logs(rt: HostRuntime) -> Result<(), Fail> {
    let alloc = rt.alloc();
    for (first, behind, want) in CUTS {
        for count in *first..*behind {
            let log = SHORT_LOG.as_bytes();
            let (front, _) = log.split_at(count.min(log.len()));
            let files = [("a.lit", NEVER.as_bytes()), ("f", front)];
            let words = ["verify", "a.lit", "@sequential", "f"];
            let answer = written(alloc, words.as_slice(), files.as_slice(), 0)?;
            assert_eq!(rt; answer.as_slice(), want.as_bytes());
        }
    }
    Ok(())
}

/// What fails on the way to a log: the words, the call of the library that fails, and what is written with the status.
const FAULTS: &[(&[&str], u64, &str)] = &[
    (&["verify", "a.lit", "@loose", "f"], 2, "read fault: log\n7"),
    (&["verify", "a.lit", "@loose", "g"], 0, "not found: log\n6"),
    (
        &["verify", "bad.lit", "@loose", "g"],
        0,
        "litmus refused: line 3 kind 10\n4",
    ),
    (&["check", "a.lit", "@sequential", "--log", "g"], 2, "8"),
    (
        &["check", "a.lit", "@ext4like", "--log", "g"],
        2,
        "allowed\norder 2 | 1\n0",
    ),
    (&["repair", "a.lit", "@ext4like", "--log", "g"], 2, "8"),
];

#[test]
fn log_faults(rt: HostRuntime) -> Result<(), Fail> {
    let alloc = rt.alloc();
    for (words, failing, want) in FAULTS {
        let files = [
            ("a.lit", FIRST.as_bytes()),
            ("bad.lit", BAD_CALL.as_bytes()),
            ("f", SHORT_LOG.as_bytes()),
        ];
        let answer = written(alloc, words, files.as_slice(), *failing)?;
        assert_eq!(rt; answer.as_slice(), want.as_bytes());
    }
    Ok(())
}

/// Questions that are forbidden, by model and test.
const FORBIDDEN: &[(&str, &str)] = &[
    ("@sequential", FIRST),
    ("@sequential", NEVER),
    ("@ext4like", NEVER),
    ("@loose", NEVER),
    ("@ext4like", BOTH),
    ("@ext4like", REPLACED),
];

/// A library that holds the test.
fn library_with(alloc: Global, litmus: &str) -> Result<MemLibrary, AllocError> {
    let mut library = MemLibrary::new(alloc);
    library.put("a.lit", litmus.as_bytes())?;
    Ok(library)
}

/// What `verify` writes of the log under `f`, with the status.
fn verified(alloc: Global, model: &str, library: &mut MemLibrary) -> Result<Vec<u8>, AllocError> {
    said_over(alloc, &["verify", "a.lit", model, "f"], library)
}

#[test]
fn kept_logs_are_accepted(rt: HostRuntime) -> Result<(), Fail> {
    let alloc = rt.alloc();
    for (model, litmus) in FORBIDDEN {
        let mut library = library_with(alloc, litmus)?;
        let words = ["check", "a.lit", model, "--log", "f"];
        let answer = said_over(alloc, words.as_slice(), &mut library)?;
        assert_eq!(rt; answer.as_slice(), b"forbidden\n0".as_slice());
        let answer = verified(alloc, model, &mut library)?;
        assert_eq!(rt; answer.as_slice(), b"log accepted: 0 sites\n0".as_slice());
    }
    let mut library = library_with(alloc, FIRST)?;
    let words = ["check", "a.lit", "@ext4like", "--log", "f"];
    let answer = said_over(alloc, words.as_slice(), &mut library)?;
    assert_eq!(rt; answer.as_slice(), b"allowed\norder 2 | 1\n0".as_slice());
    let kept = library.fetch(alloc, "f", usize::MAX);
    assert!(rt; kept.is_err_and(|fault| fault == FetchError::Missing));
    Ok(())
}

/// The model, the kind of sites, the test, how the log of its repair begins, and what `verify` writes of the log with the
/// status.
const REPAIRED: &[(&str, &str, &str, &str, &str)] = &[
    (
        "@ext4like",
        "fsync",
        FIRST,
        "ferrite log 2\nsites fsync 2\nformula 28 87\n",
        "log accepted: 1 sites\n0",
    ),
    (
        "@ext4like",
        "sync",
        FIRST,
        "ferrite log 2\nsites sync 1\nformula 17 37\n",
        "log accepted: 1 sites\n0",
    ),
    (
        "@loose",
        "sync",
        FIRST,
        "ferrite log 2\nsites sync 1\n",
        "log accepted: 1 sites\n0",
    ),
    // No syncs suffice, and no log is kept.
    ("@loose", "fsync", FIRST, "", "not found: log\n6"),
    (
        "@sequential",
        "fsync",
        FIRST,
        "ferrite log 2\nsites fsync\n",
        "log accepted: 0 sites\n0",
    ),
    // Behind the calls 1 and 2 stand `fsync /g` and `fsyncdir /`.
    (
        "@ext4like",
        "fsync",
        REPLACE,
        "ferrite log 2\nsites fsync 3\n",
        "log accepted: 1 sites\n0",
    ),
    // Behind each call stand an `fsync` of the new file and `fsyncdir /etc`.
    (
        "@ext4like",
        "fsync",
        UNSAFE,
        "ferrite log 2\nsites fsync 3 6\n",
        "log accepted: 2 sites\n0",
    ),
];

/// What is held under `f`, which is nothing where the name isn't held.
fn kept(alloc: Global, library: &mut MemLibrary) -> Vec<u8> {
    match library.fetch(alloc, "f", usize::MAX) {
        Ok(log) => log,
        Err(_) => Vec::new(alloc),
    }
}

#[test]
fn logs_of_repairs(rt: HostRuntime) -> Result<(), Fail> {
    let alloc = rt.alloc();
    for (model, kind, litmus, front, want) in REPAIRED {
        let mut library = library_with(alloc, litmus)?;
        let words = ["repair", "a.lit", model, "--with", kind, "--log", "f"];
        said_over(alloc, words.as_slice(), &mut library)?;
        let log = kept(alloc, &mut library);
        assert!(rt;
            log.as_slice().starts_with(front.as_bytes()),
            "at {model} {front}"
        );
        let answer = verified(alloc, model, &mut library)?;
        assert_eq!(rt; answer.as_slice(), want.as_bytes(), "at {model} {front}");
    }
    Ok(())
}

/// The numbers from 1 on.
const NUMBERS: [&str; 24] = [
    "1", "2", "3", "4", "5", "6", "7", "8", "9", "10", "11", "12", "13", "14", "15", "16", "17",
    "18", "19", "20", "21", "22", "23", "24",
];

/// The pieces as one text.
fn joined(alloc: Global, pieces: &[&str]) -> Result<Vec<u8>, AllocError> {
    let mut text = Vec::new(alloc);
    for piece in pieces {
        text.extend_from_slice(piece.as_bytes())?;
    }
    Ok(text)
}

/// The log with the empty clause before its end.
fn closed(alloc: Global, library: &mut MemLibrary) -> Result<Vec<u8>, AllocError> {
    let Ok(log) = library.fetch(alloc, "f", usize::MAX) else {
        return Err(AllocError);
    };
    let front = log.as_slice().strip_suffix(b"end\n").unwrap_or(b"");
    let mut text = Vec::from_slice(alloc, front)?;
    text.extend_from_slice(b"0\nend\n")?;
    Ok(text)
}

#[test]
fn limits(rt: HostRuntime) -> Result<(), Fail> {
    let alloc = rt.alloc();
    for (limit, behind) in NUMBERS.iter().zip(NUMBERS.iter().skip(4)) {
        let mut library = library_with(alloc, REPLACED)?;
        let words = [
            "check",
            "a.lit",
            "@ext4like",
            "--log",
            "f",
            "--conflicts",
            limit,
        ];
        let answer = said_over(alloc, words.as_slice(), &mut library)?;
        let first = verified(alloc, "@ext4like", &mut library)?;
        if answer.as_slice() == b"forbidden\n0".as_slice() {
            assert_eq!(rt; first.as_slice(), b"log accepted: 0 sites\n0".as_slice());
        } else {
            let unknown = joined(alloc, &["unknown ", limit, "\n2"])?;
            assert_eq!(rt; answer.as_slice(), unknown.as_slice());
            // So many clauses are there, and each follows; the empty one doesn't.
            let open = joined(alloc, &["log refused: line ", behind, " kind 7\n1"])?;
            assert_eq!(rt; first.as_slice(), open.as_slice());
            let text = closed(alloc, &mut library)?;
            library.put("f", text.as_slice())?;
            let second = verified(alloc, "@ext4like", &mut library)?;
            let wrong = joined(alloc, &["log refused: line ", behind, " kind 6\n1"])?;
            assert_eq!(rt; second.as_slice(), wrong.as_slice());
        }
    }
    Ok(())
}
