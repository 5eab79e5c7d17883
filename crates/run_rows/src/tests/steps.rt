use super::{BAD_CALL, FIRST, SOUND_MODEL, choices, words_of, written, written_about};
use fer_outside::{MemLibrary, MemSink, SureLibrary, SureSink};
use ferrite_run::run;
use std::alloc::{AllocError, Global};
use std::test::Fail;

const BAD_MODEL: &str = "model m\n";

const BAD_LITMUS: &str = "litmus x\nbody:\nmkdir /d\nexists: true\n";

/// Which of the names `a.lit` and `m` are held, with which bytes; the fetch that fails; what `events a.lit m` writes, and
/// the status. The first step that fails is answered, and what fails behind it isn't.
const STEPS: &[(Option<&str>, Option<&str>, u64, &str)] = &[
    (None, None, 0, "not found: litmus\n6"),
    (
        Some(BAD_LITMUS),
        None,
        0,
        "litmus refused: line 3 kind 6\n4",
    ),
    (Some(BAD_CALL), None, 0, "not found: model\n6"),
    (
        Some(BAD_CALL),
        Some(BAD_MODEL),
        0,
        "model refused: line 2 kind 8\n5",
    ),
    (
        Some(BAD_CALL),
        Some(SOUND_MODEL),
        0,
        "litmus refused: line 3 kind 10\n4",
    ),
    (Some(FIRST), None, 1, "read fault: litmus\n7"),
    (
        Some(BAD_LITMUS),
        None,
        2,
        "litmus refused: line 3 kind 6\n4",
    ),
    (Some(BAD_CALL), Some(BAD_MODEL), 2, "read fault: model\n7"),
];

#[test]
fn steps(rt: HostRuntime) -> Result<(), Fail> {
    let alloc = rt.alloc();
    for (litmus, model, failing, want) in STEPS {
        let mut files = Vec::new(alloc);
        if let Some(text) = litmus {
            files.push(("a.lit", text.as_bytes()))?;
        }
        if let Some(text) = model {
            files.push(("m", text.as_bytes()))?;
        }
        let answer = written(alloc, &["events", "a.lit", "m"], files.as_slice(), *failing)?;
        assert_eq!(rt; answer.as_slice(), want.as_bytes());
    }
    Ok(())
}

/// A test whose body has so many marks.
fn marks(alloc: Global, count: u32) -> Result<Vec<u8>, AllocError> {
    let mut text = Vec::from_slice(alloc, b"litmus many\nbody:\n")?;
    for _ in 0..count {
        text.extend_from_slice(b"mark a\n")?;
    }
    text.extend_from_slice(b"exists: false\n")?;
    Ok(text)
}

#[test]
fn limits(rt: HostRuntime) -> Result<(), Fail> {
    let alloc = rt.alloc();
    for (count, want) in [
        (64, "forbidden\n0"),
        (65, "litmus refused: line 67 kind 14\n4"),
    ] {
        let text = marks(alloc, count)?;
        let answer = written_about(alloc, "check", text.as_slice())?;
        assert_eq!(rt; answer.as_slice(), want.as_bytes());
    }
    for (len, want, of_model) in [
        (
            65536,
            "litmus refused: line 2 kind 8\n4",
            "model refused: line 2 kind 8\n5",
        ),
        (
            65537,
            "litmus refused: line 0 kind 9\n4",
            "model refused: line 0 kind 10\n5",
        ),
    ] {
        let bytes = vec![in alloc; b'#'; len]?;
        let answer = written_about(alloc, "show", bytes.as_slice())?;
        assert_eq!(rt; answer.as_slice(), want.as_bytes());
        let files = [("a.lit", FIRST.as_bytes()), ("m", bytes.as_slice())];
        let answer = written(alloc, &["events", "a.lit", "m"], files.as_slice(), 0)?;
        assert_eq!(rt; answer.as_slice(), of_model.as_bytes());
    }
    Ok(())
}

#[test]
fn faults_of_writing(rt: HostRuntime) -> Result<(), Fail> {
    let alloc = rt.alloc();
    let words = words_of(alloc, &["check", "a.lit", "@sequential"])?;
    let mut library = MemLibrary::new(alloc);
    library.put("a.lit", FIRST.as_bytes())?;
    let mut out = MemSink::new(alloc, 100, 4)?;
    out.fail_at(2)?;
    assert_eq!(rt;
        run(alloc, &words, &mut library, &mut out, choices(alloc)?),
        8
    );
    assert_eq!(rt; out.bytes(), b"forb".as_slice());
    let mut library = SureLibrary::new(alloc);
    library.put("a.lit", FIRST.as_bytes())?;
    let mut out = SureSink::new();
    assert_eq!(rt;
        run(alloc, &words, &mut library, &mut out, Vec::new(alloc)),
        0
    );
    Ok(())
}
