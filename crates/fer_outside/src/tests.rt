ghost use Rattle.std.specs.Prelude.{◌≤◌, length, IfOk};

use super::*;
use std::alloc::Global;
use std::cell::Cell;
use std::fmt::Display;
use std::process::Abort;
use std::test::Fail;
use std::{fs, io};

/// Ends the test unless a fetch gives this answer, where a refusal is told by its name.
fn expect_fetch<L: Library>(
    rt: &impl Abort,
    alloc: Global,
    library: &mut L,
    (name, limit, wanted): (&str, usize, &str),
) {
    let fetched = library.fetch(alloc, name, limit);
    let answer = match &fetched {
        Ok(bytes) => bytes.as_slice(),
        Err(FetchError::Missing) => b"Missing".as_slice(),
        Err(FetchError::TooLong) => b"TooLong".as_slice(),
        Err(FetchError::Failed) => b"Failed".as_slice(),
        Err(FetchError::OutOfMemory) => b"OutOfMemory".as_slice(),
    };
    assert!(rt; answer == wanted.as_bytes(), "{name} within {limit}");
}

/// Ends the test unless these bytes are kept or, where `wanted` says so, aren't.
fn expect_keep<L: Library>(
    rt: &impl Abort,
    alloc: Global,
    library: &mut L,
    (name, text, wanted): (&str, &str, bool),
) {
    let kept = library.keep(alloc, name, text.as_bytes());
    assert_eq!(rt; kept.is_ok(), wanted, "{text} under {name}");
}

/// Ends the test unless a write of these bytes takes so many of them, where 0 stands for a failed write.
fn expect_write<K: Sink>(rt: &impl Abort, sink: &mut K, (text, wanted): (&str, usize)) {
    if !text.is_empty() {
        let taken = sink.write(text.as_bytes()).unwrap_or(0);
        assert_eq!(rt; taken, wanted, "after a write of {text}");
    }
}

#[test]
fn libraries_in_memory(rt: HostRuntime) -> Result<(), Fail> {
    let mut library = MemLibrary::new(rt.alloc());
    library.put("a", b"older")?;
    library.put("a", b"four")?;
    library.put("empty", b"")?;
    library.fail_at(2)?;
    library.fail_at(7)?;
    library.fail_at(10)?;
    for row in [
        ("a", 4, "four"),
        ("a", 4, "Failed"),
        ("a", 3, "TooLong"),
        ("b", 4, "Missing"),
        ("empty", 0, ""),
        ("a", usize::MAX, "four"),
        ("b", 4, "Failed"),
        ("", 0, "Missing"),
    ] {
        expect_fetch(&rt, rt.alloc(), &mut library, row);
    }
    for row in [
        ("a", "newer", true),
        ("a", "newest", false),
        ("b", "", true),
    ] {
        expect_keep(&rt, rt.alloc(), &mut library, row);
    }
    for row in [("a", 5, "newer"), ("b", 0, ""), ("empty", 0, "")] {
        expect_fetch(&rt, rt.alloc(), &mut library, row);
    }
    Ok(())
}

#[test]
fn a_sure_library(rt: HostRuntime) -> Result<(), Fail> {
    let mut library = SureLibrary::new(rt.alloc());
    library.put("a", b"older")?;
    library.put("a", b"four")?;
    expect_keep(&rt, rt.alloc(), &mut library, ("c", "kept", true));
    for row in [
        ("a", 4, "four"),
        ("a", 3, "TooLong"),
        ("b", 4, "Missing"),
        ("c", 4, "kept"),
    ] {
        expect_fetch(&rt, rt.alloc(), &mut library, row);
    }
    Ok(())
}

#[test]
fn sinks_in_memory(rt: HostRuntime) -> Result<(), Fail> {
    let mut sink = MemSink::new(rt.alloc(), 11, 4)?;
    sink.fail_at(2)?;
    for row in [
        ("forbidden", 4),
        ("idden", 0),
        ("idden", 4),
        ("n", 1),
        ("\nmore", 2),
        ("ore", 0),
    ] {
        expect_write(&rt, &mut sink, row);
    }
    assert_eq!(rt; sink.bytes(), b"forbidden\nm".as_slice());
    expect_write(&rt, &mut SureSink::new(), ("forbidden", 9));
    Ok(())
}

#[test]
fn files_on_disk(rt: HostRuntime) -> Result<(), Fail> {
    fs::write(&rt, "short.lit", "five!")?;
    let mut library = DiskLibrary::new(&rt);
    for row in [
        ("short.lit", 5, "five!"),
        ("short.lit", 4, "TooLong"),
        ("short.lit", usize::MAX, "five!"),
        ("nowhere.lit", 5, "Missing"),
        ("short.lit/below", 5, "Failed"),
        (".", 5, "Failed"),
        ("/proc/self/mem", 5, "Failed"),
    ] {
        expect_fetch(&rt, rt.alloc(), &mut library, row);
    }
    for row in [
        ("short.lit", "of six", true),
        ("new.log", "0\nend\n", true),
        ("new.log", "end\n", true),
        ("short.lit/below", "lost", false),
        (".", "lost", false),
    ] {
        expect_keep(&rt, rt.alloc(), &mut library, row);
    }
    for row in [("short.lit", 6, "of six"), ("new.log", 4, "end\n")] {
        expect_fetch(&rt, rt.alloc(), &mut library, row);
    }
    fs::remove_file(&rt, "short.lit")?;
    fs::remove_file(&rt, "new.log")?;
    Ok(())
}

#[test]
fn a_file_of_several_reads(rt: HostRuntime) -> Result<(), Fail> {
    let long = vec![in rt.alloc(); 7u8; 5000]?;
    fs::write(&rt, "long.lit", long.as_slice())?;
    let mut library = DiskLibrary::new(&rt);
    let fetched = library.fetch(rt.alloc(), "long.lit", 5000)?;
    assert!(rt; fetched.as_slice() == long.as_slice());
    expect_fetch(&rt, rt.alloc(), &mut library, ("long.lit", 4999, "TooLong"));
    fs::remove_file(&rt, "long.lit")?;
    Ok(())
}

/// A printer that takes three bytes, then none, and then fails.
#[derive(Drop)]
struct Printer {
    calls: Cell<u32>,
}

impl Print for Printer {
    fn print<D: Display + Drop>(&self, _value: D) -> io::Result<()> {
        Ok(())
    }

    fn println<D: Display + Drop>(&self, _value: D) -> io::Result<()> {
        Ok(())
    }

    fn write_all(&self, _bytes: &[u8]) -> io::Result<()> {
        Ok(())
    }

    fn write_some(&self, bytes: &[u8]) -> io::Result<usize>
        ensures bound { IfOk result (λ n. n ≤ length bytes.now) }
    {
        let call = self.calls.get();
        self.calls.set(call.saturating_add(1));
        match call {
            0 => Ok(bytes.len().min(3)),
            1 => Ok(0),
            _ => Err(io::Error::from(io::ErrorKind::BrokenPipe)),
        }
    }
}

#[test]
fn standard_output(rt: HostRuntime) {
    expect_write(&rt, &mut StdSink::new(&rt), ("a line\n", 7));
    let printer = Printer {
        calls: Cell::new(0),
    };
    let mut sink = StdSink::new(&printer);
    for row in [("forbidden", 3), ("bidden", 0), ("bidden", 0)] {
        expect_write(&rt, &mut sink, row);
    }
}
