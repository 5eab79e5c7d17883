use super::*;
use std::test::Fail;

/// Bytes, how many digits stand at their front, and the number that these write.
const DIGITS: &[(&str, usize, Option<u32>)] = &[
    ("", 0, None),
    ("-1", 0, None),
    ("0", 1, Some(0)),
    ("007 1", 3, Some(7)),
    ("4294967295", 10, Some(4294967295)),
    ("4294967296", 10, None),
    ("0000000000000000000012", 22, Some(12)),
    ("99999999999999999999a", 20, None),
];

#[test]
fn digits_are_read(rt: HostRuntime) -> Result<(), Fail> {
    for (bytes, count, number) in DIGITS {
        let (digits, _) = split_digits(bytes.as_bytes());
        assert_eq!(rt; digits.len(), *count);
        assert!(rt; number_of(digits) == *number, "at {bytes}");
    }
    Ok(())
}

#[test]
fn numbers_are_written(rt: HostRuntime) -> Result<(), Fail> {
    let mut out = Vec::from_slice(rt.alloc(), b"formula")?;
    push_numbers(&mut out, &[0, 10, 4294967295])?;
    assert!(rt; out.as_slice() == b"formula 0 10 4294967295".as_slice());
    Ok(())
}
