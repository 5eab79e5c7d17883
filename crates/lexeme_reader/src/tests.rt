use super::*;
use std::test::Fail;

#[test]
fn a_line_says(rt: HostRuntime) -> Result<(), Fail> {
    let line = b"write /a/b 0012 \"x\\x41\" / 4294967295 4294967296 99999999999999999999 : # end";
    let said = lexemes(rt.alloc(), line.as_slice())?;
    assert_eq!(rt; said.len(), 9);
    assert!(rt; matches!(&said[0], Lexeme::Word(word) if word.as_slice() == b"write".as_slice()));
    assert!(rt; matches!(&said[1], Lexeme::Path(path) if path.len() == 2));
    assert!(rt; matches!(said[2], Lexeme::Number(Some(12))));
    assert!(rt; matches!(&said[3], Lexeme::Text(text) if text.as_slice() == b"xA".as_slice()));
    assert!(rt; matches!(&said[4], Lexeme::Path(path) if path.len() == 0));
    assert!(rt; matches!(said[5], Lexeme::Number(Some(u32::MAX))));
    assert!(rt; matches!(said[6], Lexeme::Number(None)));
    assert!(rt; matches!(said[7], Lexeme::Number(None)));
    assert!(rt; matches!(said[8], Lexeme::Sign(b':')));
    let mut longest = Vec::new(rt.alloc());
    for _ in 0..32768 {
        longest.push(b'/')?;
        longest.push(b':')?;
    }
    let said = lexemes(rt.alloc(), longest.as_slice())?;
    assert_eq!(rt; said.len(), 65536);
    Ok(())
}

#[test]
fn parentheses_are_counted(rt: HostRuntime) -> Result<(), Fail> {
    let mut line = Vec::new(rt.alloc());
    line.push(b')')?;
    for _ in 0..64 {
        line.push(b'(')?;
    }
    let most = lexemes(rt.alloc(), line.as_slice())?;
    assert!(rt; !is_deep(most.as_slice()));
    line.push(b'(')?;
    let too_many = lexemes(rt.alloc(), line.as_slice())?;
    assert!(rt; is_deep(too_many.as_slice()));
    assert!(rt; behind_word(most.as_slice(), b"let").is_none());
    let stated = lexemes(rt.alloc(), b"let x")?;
    assert!(rt; matches!(behind_word(stated.as_slice(), b"let"), Some(rest) if rest.len() == 1));
    Ok(())
}
