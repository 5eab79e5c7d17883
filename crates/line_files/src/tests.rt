ghost use Rattle.std.specs.Prelude.{◌≡◌, ℕ, ◌≤◌, List, [], ◌∷◌, length};
ghost use Rattle.lexeme_reader.specs.declared.reading.Lexeme.{Lexeme};
ghost use Rattle.line_files.specs.Grammars.{Grammar};

use super::*;
use lexeme_reader::Lexeme;
use std::alloc::Global;
use std::test::Fail;

#[derive(Clone, Copy, Debug, PartialEq, Eq)]
enum Kind {
    Shared(SharedFault),
    OneTooMany,
}

/// Takes two lines, whatever they say, and no third.
#[derive(Drop)]
struct TwoLines {
    taken: u32,
    /// The number of the last line that was taken.
    last: u32,
}

impl TakeLine for TwoLines {
    ghost use Rattle.line_files.specs.declared.tests.Kind.{Kind};

    type Kind = Kind;

    ghost statement = { List Lexeme };

    ghost grammar = { record {
      lexemes_of = λ s. s;
      Has = λ before lexemes kind. 2 ≤ length before;
      kinds = Kind.OneTooMany ∷ [];
      shared_kind = λ fault. Kind.Shared fault;
      Ends = λ s. ⊥;
    } };

    ghost keeps = { λ two stated. two.taken ≡ length stated };

    fn shared_kind(fault: SharedFault) -> Kind {
        Kind::Shared(fault)
    }

    fn take(
        &mut self,
        _alloc: Global,
        line: u32,
        _lexemes: &[Lexeme],
    ) -> Result<(), LineFault<Kind>> {
        if self.taken >= 2 {
            return Err(LineFault::Bad(Kind::OneTooMany));
        }
        self.taken += 1;
        self.last = line;
        Ok(())
    }
}

/// How many lines the bytes have and which was taken last, or which line is refused, and for what.
fn answer(rt: &HostRuntime, bytes: &[u8]) -> Result<String, Fail> {
    let alloc = rt.alloc();
    let mut two = TwoLines { taken: 0, last: 0 };
    match take_lines(&mut two, alloc, bytes) {
        Ok(count) => Ok(format!(in alloc; "{count} lines, {} last", two.last)?),
        Err(FileFault::Refused { line, kind }) => Ok(format!(in alloc; "{line} {:?}", kind)?),
        Err(FileFault::OutOfMemory) => Ok(format!(in alloc; "out of memory")?),
    }
}

#[test]
fn lines_are_taken_up_to_the_first_bad_one(rt: HostRuntime) -> Result<(), Fail> {
    let rows = [
        ("", "0 lines, 0 last"),
        ("\n# none\n\n", "3 lines, 0 last"),
        ("a", "1 lines, 1 last"),
        ("a\r\n\n \tb # c\n#", "4 lines, 3 last"),
        ("a\n!\n\x01", "2 Shared(BadToken)"),
        ("a\n! \x01\n", "2 Shared(BadByte)"),
        ("a\n\nb\nc\n!", "4 OneTooMany"),
        ("a\nb\n! c", "3 Shared(BadToken)"),
    ];
    for (bytes, want) in rows {
        let got = answer(&rt, bytes.as_bytes())?;
        assert_eq!(rt; got.as_str(), want, "at {bytes}");
    }
    Ok(())
}

#[test]
fn a_file_has_65536_bytes_at_most(rt: HostRuntime) -> Result<(), Fail> {
    let mut bytes = Vec::new(rt.alloc());
    for _ in 0..65536 {
        bytes.push(b'\n')?;
    }
    let got = answer(&rt, bytes.as_slice())?;
    assert_eq!(rt; got.as_str(), "65536 lines, 0 last");
    bytes.push(b'!')?;
    let got = answer(&rt, bytes.as_slice())?;
    assert_eq!(rt; got.as_str(), "0 Shared(TooLong)");
    Ok(())
}
