use super::*;
use crate::items::is_text;
use std::test::Fail;

/// The tokens of the line as a text: the first letter of each kind, its start and its end, or the error.
fn scanned(rt: &HostRuntime, line: &[u8]) -> Result<String, Fail> {
    let mut text = String::new(rt.alloc());
    match tokens(rt.alloc(), line) {
        Err(error) => text.push_str(format!(in rt.alloc(); "{error:?}")?.as_str())?,
        Ok(found) => {
            for token in &found {
                let letter = match token.kind {
                    TokenKind::Word => "w",
                    TokenKind::Number => "n",
                    TokenKind::PathToken => "p",
                    TokenKind::TextToken => "t",
                    TokenKind::Sign => "s",
                };
                let start = token.start;
                let end = token.end;
                text.push_str(format!(in rt.alloc(); "{letter}{start}-{end} ")?.as_str())?;
            }
        }
    }
    Ok(text)
}

#[test]
fn lines_end_where_they_should(rt: HostRuntime) -> Result<(), Fail> {
    let rows = [
        ("", 0, 0, 0),
        ("\r\nab", 0, 2, 2),
        ("a\r\r\nb", 2, 1, 1),
        ("a\rb\nc\n", 3, 2, 1),
        ("\n\n", 0, 1, 0),
        ("a\r", 2, 0, 0),
    ];
    for (bytes, text, behind, next) in rows {
        let mut lens = (0, 0, 0);
        if let Some((line, rest)) = first_line(bytes.as_bytes()) {
            lens = (line.len(), rest.len(), 0);
            if let Some((second, _)) = first_line(rest) {
                lens.2 = second.len();
            }
        }
        assert_eq!(rt; lens, (text, behind, next), "at {bytes}");
    }
    Ok(())
}

#[test]
fn tokens_are_those_of_the_grammar(rt: HostRuntime) -> Result<(), Fail> {
    let component = "/aaaaaaaaaabbbbbbbbbbccccccccccddddddddddeeeeeeeeeeffffffffffgggg";
    let longer = "/aaaaaaaaaabbbbbbbbbbccccccccccddddddddddeeeeeeeeeeffffffffffggggh";
    let rows = [
        ("", ""),
        (" \t # \"a\x01", ""),
        ("write/f 0\"x\"#\x7f", "w0-5 p5-7 n8-9 t9-12 "),
        ("_x-.9\t007(a)", "w0-5 n6-9 s9-10 w10-11 s11-12 "),
        ("[]=:,|&;+", "s0-1 s1-2 s2-3 s3-4 s4-5 s5-6 s6-7 s7-8 s8-9 "),
        ("\"a#b\"c#d", "t0-5 w5-6 "),
        ("\"a\\\"b\\\\\"\"\t\\n\\x0aF\"", "t0-8 t8-18 "),
        ("/ /a/b.c/..d", "p0-1 p2-12 "),
        (component, "p0-65 "),
        (longer, "BadToken"),
    ];
    for (line, want) in rows {
        let got = scanned(&rt, line.as_bytes())?;
        assert_eq!(rt; got.as_str(), want, "at {line}");
    }
    for line in [
        "12ab", "-x", "a!", "//", "/a/", "/.", "/a/../b", "\"a", "\"a # b", "\"\\", "\"a\\\"",
        "\"\\q\"", "\"\\x4\"", "! # \x01",
    ] {
        let got = scanned(&rt, line.as_bytes())?;
        assert_eq!(rt; got.as_str(), "BadToken", "at {line}");
    }
    for line in [
        "\x7f",
        "a\r",
        "12ab \x01",
        "\"\\q\" \x1f",
        "//\x00#",
        "\"\x01\"",
        "\"a\x01",
        "\"\\\x01\"",
        "\"a#\x01",
        "\"é\"",
    ] {
        let got = scanned(&rt, line.as_bytes())?;
        assert_eq!(rt; got.as_str(), "BadByte", "at {line}");
    }
    Ok(())
}

#[test]
fn texts_are_read_at_any_length(rt: HostRuntime) -> Result<(), Fail> {
    let token = b"\"\\\\\\\"\\n\\x41\\xaF\t ~\"".as_slice();
    assert!(rt; is_text(token));
    if is_text(token) {
        let bytes = unescape(rt.alloc(), token)?;
        assert_eq!(rt;
            bytes.as_slice(),
            [92, 34, 10, 65, 175, 9, 32, 126].as_slice()
        );
    }
    let mut quotes = Vec::new(rt.alloc());
    for _ in 0..65536 {
        quotes.push(b'"')?;
    }
    let found = tokens(rt.alloc(), quotes.as_slice());
    assert!(rt; found.is_ok_and(|found| found.len() == 32768));
    let mut text = Vec::new(rt.alloc());
    text.push(b'"')?;
    for _ in 0..65534 {
        text.push(b'a')?;
    }
    text.push(b'"')?;
    assert!(rt; is_text(text.as_slice()));
    if is_text(text.as_slice()) {
        assert_eq!(rt; unescape(rt.alloc(), text.as_slice())?.len(), 65534);
    }
    Ok(())
}
