ghost use Rattle.std.specs.Prelude.{⊤, All, IsTrue, IfOk, MatchOption};
ghost use Rattle.litmus_syntax.specs.Counts.{IsShortPred};
ghost use Rattle.litmus_syntax.specs.Forms.{is_formed_pred};
ghost use Rattle.lexeme_reader.specs.Lexemes.{is_formed};

use super::*;
use fer_list::Seq;
use lexeme_reader::{Lexeme, lexemes};
use litmus_syntax::{Litmus, Pred, print};
use std::test::Fail;

/// The predicate that a question's tokens are, if they are one and keep to the limits.
fn read(rt: &HostRuntime, asked: &[Lexeme]) -> Result<Option<Pred>, Fail>
    requires { All (λ l. IsTrue (is_formed l)) asked.now }
    ensures { IfOk result (λ read. MatchOption read ⊤ (λ p. (IsTrue (is_formed_pred p)) × (IsShortPred p))) }
{
    kept_limits();
    if !is_short(asked) {
        return Ok(None);
    }
    if !are_in_range(asked) {
        return Ok(None);
    }
    Ok(predicate(rt.alloc(), asked)?)
}

/// The text of a file without calls that asks this.
fn printed(rt: &HostRuntime, pred: Pred) -> Result<Vec<u8>, Fail>
    requires formed { IsTrue (is_formed_pred pred) }
    requires short { IsShortPred pred }
{
    let alloc = rt.alloc();
    let name = Seq::from_slice(alloc, b"a".as_slice())?;
    let litmus = Litmus::new(
        name,
        1,
        Seq::new(alloc),
        Seq::new(alloc),
        true,
        pred,
        4,
        1,
        1,
    );
    Ok(print(alloc, &litmus)?)
}

/// How the file ends that asks this, and nothing where the question is no predicate or passes a limit.
fn answer(rt: &HostRuntime, question: &str) -> Result<Vec<u8>, Fail> {
    let asked = lexemes(rt.alloc(), question.as_bytes())?;
    match read(rt, asked.as_slice())? {
        None => Ok(Vec::new(rt.alloc())),
        Some(pred) => Ok(printed(rt, pred)?),
    }
}

#[test]
fn questions_are_read(rt: HostRuntime) -> Result<(), Fail> {
    let rows = [
        ("not not true", ": not not true\n"),
        ("true or false and seen(a)", ": true or false and seen(a)\n"),
        ("(true or false) and true", ": (true or false) and true\n"),
        (
            "(true and not false) and true",
            ": true and not false and true\n",
        ),
        ("true and (false and true)", ": true and (false and true)\n"),
        ("(true or false) or true", ": true or false or true\n"),
        ("true or (false or true)", ": true or (false or true)\n"),
        (
            "same(/a,/b)and exists( / )",
            ": same(/a, /b) and exists(/)\n",
        ),
        ("size(/a) = 007", ": size(/a) = 7\n"),
        ("content(/a/b) = \"\\x41\"", ": content(/a/b) = \"A\"\n"),
        ("bytes(/a, 65535) = \"a\"", ": bytes(/a, 65535) = \"a\"\n"),
        ("attr(/a, k) = 4294967295", ": attr(/a, k) = 4294967295\n"),
    ];
    for (question, want) in rows {
        let got = answer(&rt, question)?;
        assert!(rt; got.as_slice().ends_with(want.as_bytes()), "{question}");
    }
    for question in [
        "",
        "true and",
        "not",
        "( true",
        "true )",
        "()",
        "true true",
        "and true",
        "exists /a",
        "size(/a) = \"a\"",
        "bytes(/a, 65536) = \"a\"",
        "bytes(/a, 65537) = \"\"",
        "size(/a) = 4294967296",
        "seen(a) size 99999999999999999999",
    ] {
        assert!(rt; answer(&rt, question)?.is_empty(), "{question}");
    }
    Ok(())
}

/// So many copies of a piece of a line.
fn repeat(line: &mut Vec<u8>, piece: &str, count: usize) -> Result<(), Fail> {
    for _ in 0..count {
        line.extend_from_slice(piece.as_bytes())?;
    }
    Ok(())
}

#[test]
fn limits_are_met_and_passed(rt: HostRuntime) -> Result<(), Fail> {
    let rows = [
        ("", "not ", 256, "true", ""),
        ("", "(", 64, "true", ")"),
        ("", "true or ", 255, "true", ""),
        ("", "true or (", 64, "true", ")"),
        ("", "seen(exists) and ", 127, "seen(true)", ""),
        ("content(/a) = \"", "a", 4096, "\"", ""),
    ];
    for (head, piece, most, tail, close) in rows {
        for count in [most, most + 1] {
            let mut line = Vec::new(rt.alloc());
            repeat(&mut line, head, 1)?;
            repeat(&mut line, piece, count)?;
            repeat(&mut line, tail, 1)?;
            repeat(&mut line, close, count)?;
            let asked = lexemes(rt.alloc(), line.as_slice())?;
            let found = read(&rt, asked.as_slice())?;
            assert!(rt; found.is_some() == (count == most), "{piece} {count}");
        }
    }
    let mut line = Vec::new(rt.alloc());
    repeat(&mut line, "not ", 256)?;
    repeat(&mut line, "(true and true or ", 64)?;
    repeat(&mut line, "true or ", 127)?;
    repeat(&mut line, "true", 1)?;
    repeat(&mut line, ")", 64)?;
    let asked = lexemes(rt.alloc(), line.as_slice())?;
    assert!(rt; matches!(read(&rt, asked.as_slice())?, Some(Pred::Not { .. })));
    Ok(())
}
