use super::*;
use clause_store::{Lit, Store};
use fer_list::Seq;
use litmus_syntax::SiteKind;
use std::test::Fail;

/// The text of the log that is read, or the line and the number of the kind of the refusal.
fn answer(rt: &HostRuntime, bytes: &[u8]) -> Result<String, Fail> {
    let alloc = rt.alloc();
    match read(alloc, bytes) {
        Ok(log) => Ok(String::from_utf8(print(alloc, &log)?)?),
        Err(LogFault::Refused { line, kind }) => Ok(format!(in alloc; "{line} {}", kind.number())?),
        Err(LogFault::OutOfMemory) => Ok(format!(in alloc; "out of memory")?),
    }
}

const FIRST: &str = "ferrite log 1\nsites none\nformula 10 18\n-4 7 0\n0\nend\n";

const SECOND: &str =
    "ferrite log 2\nsites all 3 17\nformula 4 9\n1 -2 0\nquestion\n-3 -3 0\n4 0\n0\nend\n";

const GREATEST: &str =
    "ferrite log 1\nsites sync 4294967295\nformula 4294967295 4294967295\n-4294967295 0\nend\n";

const OPEN: &str = "ferrite log 2\nsites fsync\nformula 0 0\nquestion\nend\n";

/// A text, and its canonical text or the line and the number of the kind of its refusal.
const TEXTS: &[(&str, &str)] = &[
    (FIRST, FIRST),
    (SECOND, SECOND),
    (GREATEST, GREATEST),
    (OPEN, OPEN),
    (
        "ferrite log 1\r\nsites none\r\nformula 10 18\r\n-4 7 0\r\n0\r\nend\r\n",
        FIRST,
    ),
    (
        "ferrite log 1\nsites none\nformula 10 18\n-4 7 0\n0\nend",
        FIRST,
    ),
    ("ferrite log 1\r\r\nsites none\n", "1 1"),
    ("ferrite log 3\n", "1 1"),
    ("ferrite log 01\n", "1 1"),
    ("\nferrite log 1\n", "1 1"),
    ("ferrite log 2\nsites none\nformula 1 1\n", "2 1"),
    ("ferrite log 2\nsites fsync 1\n", "3 3"),
    ("ferrite log 1\nsites\n", "2 1"),
    ("ferrite log 1\nsites none 1\n", "2 1"),
    ("ferrite log 1\nsites data 1\n", "2 1"),
    ("ferrite log 1\nsites sync 0\n", "2 1"),
    ("ferrite log 1\nsites sync 2 2\n", "2 1"),
    ("ferrite log 1\nsites sync 2 1\n", "2 1"),
    ("ferrite log 1\nsites sync 02\n", "2 1"),
    ("ferrite log 1\nsites sync  2\n", "2 1"),
    ("ferrite log 1\nsites sync 2 \n", "2 1"),
    ("ferrite log 1\nsites sync 4294967296\n", "2 1"),
    ("ferrite log 1\nsites none\nformula 1\n", "3 1"),
    ("ferrite log 1\nsites none\nformula 1 2 3\n", "3 1"),
    ("ferrite log 1\nsites none\nformula 1 4294967296\n", "3 1"),
    ("ferrite log 1\nsites none\nformula 01 2\n", "3 1"),
    ("ferrite log 2\nsites all 3\nformula 4 9\n0\nend\n", "4 1"),
    ("ferrite log 2\nsites all 3\nformula 4 9\nend\n", "4 1"),
    (
        "ferrite log 2\nsites all 3\nformula 4 9\nquestion\nquestion\n",
        "5 1",
    ),
];

#[test]
fn texts_are_logs_or_refused(rt: HostRuntime) -> Result<(), Fail> {
    for (text, expected) in TEXTS {
        let found = answer(&rt, text.as_bytes())?;
        assert!(rt; found.as_str() == *expected, "{text} is read as {found}");
    }
    Ok(())
}

/// Lines behind that of a formula over 4 variables, and the number of the kind of the refusal of the last of them.
const LINES: &[(&str, &str)] = &[
    ("5 0", "4 2"),
    ("1 -5 2 0", "4 2"),
    ("99999999999999999999 0", "4 2"),
    ("4294967297 0", "4 2"),
    ("0 0", "4 2"),
    ("-0 1 0", "4 2"),
    ("1 -0", "4 1"),
    ("5 -0", "4 1"),
    ("5", "4 1"),
    ("5 ", "4 1"),
    ("", "4 1"),
    ("1  2 0", "4 1"),
    (" 1 0", "4 1"),
    ("01 0", "4 1"),
    ("00 0", "4 1"),
    ("1 0 ", "4 1"),
    ("1 00", "4 1"),
    ("- 1 0", "4 1"),
    ("--1 0", "4 1"),
    ("+1 0", "4 1"),
    ("1 0\r0", "4 1"),
    ("1\t0", "4 1"),
    ("question", "4 1"),
    ("End", "4 1"),
    ("0\n0", "5 1"),
    ("0\n1 0", "5 1"),
    ("0\n5 0", "5 1"),
    ("end\nend", "5 1"),
    ("end\n", "5 1"),
    ("5 0\n01 0", "4 2"),
    ("01 0\n5 0", "4 1"),
    ("1 0\n-4 0", "6 3"),
];

#[test]
fn the_first_bad_line_is_refused(rt: HostRuntime) -> Result<(), Fail> {
    for (lines, expected) in LINES {
        let text = format!(in rt.alloc(); "ferrite log 1\nsites none\nformula 4 5\n{lines}\n")?;
        let found = answer(&rt, text.as_bytes())?;
        assert!(rt; found.as_str() == *expected, "{lines} is read as {found}");
    }
    Ok(())
}

const SHORT: &str = "ferrite log 1\nsites none\nformula 4 5\n0\nend\n";

/// What is answered of so many of the first bytes of that log.
fn answer_to_front(len: usize) -> &'static str {
    match len {
        0 => "1 3",
        1..=12 => "1 1",
        13 | 14 => "2 3",
        15..=23 => "2 1",
        24 | 25 => "3 3",
        26..=35 => "3 1",
        36 | 37 => "4 3",
        38 | 39 => "5 3",
        40 | 41 => "5 1",
        _ => SHORT,
    }
}

#[test]
fn a_log_that_is_cut_short_ends_early(rt: HostRuntime) -> Result<(), Fail> {
    let mut front = Vec::new(rt.alloc());
    for byte in SHORT.as_bytes() {
        let found = answer(&rt, front.as_slice())?;
        let expected = answer_to_front(front.len());
        assert!(rt;
            found.as_str() == expected,
            "of {} bytes: {found}",
            front.len()
        );
        front.push(*byte)?;
    }
    assert_eq!(rt; front.len(), 43);
    let found = answer(&rt, front.as_slice())?;
    assert!(rt; found.as_str() == SHORT);
    Ok(())
}

#[test]
fn logs_of_parts_are_printed(rt: HostRuntime) -> Result<(), Fail> {
    let mut learned = Store::new(rt.alloc(), 4);
    learned.add(&[
        Lit {
            var: 1,
            positive: false,
        },
        Lit {
            var: 4,
            positive: true,
        },
    ])?;
    learned.add(&[Lit {
        var: 3,
        positive: true,
    }])?;
    let part = Part::new(7, learned, true);
    assert_eq!(rt;
        (part.vars(), part.clauses(), part.learned().len()),
        (4, 7, 2)
    );
    let sites = Seq::from_slice(rt.alloc(), &[2, 9])?;
    let log = Log::with_sites(SiteKind::Fsync, sites, part, Some(1));
    let text = print(rt.alloc(), &log)?;
    assert!(rt;
        text.as_slice()
            == b"ferrite log 2\nsites fsync 2 9\nformula 4 7\n-1 4 0\nquestion\n3 0\n0\nend\n".as_slice()
    );
    let none = Store::new(rt.alloc(), 0);
    let log = Log::of_part(rt.alloc(), Part::new(3, none, false));
    let text = print(rt.alloc(), &log)?;
    assert!(rt; text.as_slice() == b"ferrite log 1\nsites none\nformula 0 3\nend\n".as_slice());
    Ok(())
}
