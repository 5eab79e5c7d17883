ghost use Rattle.std.specs.Prelude.{◌≤◌};

use super::*;
use litmus_syntax::print;
use std::alloc::{AllocError, Global};
use std::test::Fail;

#[test]
fn models_are_named(rt: HostRuntime) -> Result<(), Fail> {
    assert!(rt; matches!(shipped("sequential"), Some(ShippedModel::Sequential)));
    assert!(rt; matches!(shipped("ext4like"), Some(ShippedModel::Ext4like)));
    assert!(rt; matches!(shipped("loose"), Some(ShippedModel::Loose)));
    assert!(rt; shipped("Loose").is_none());
    assert!(rt; shipped("@loose").is_none());
    assert!(rt; shipped("").is_none());
    assert_eq!(rt; ShippedModel::Sequential.text().len(), 29);
    assert_eq!(rt; ShippedModel::Loose.text().len(), 50);
    assert_eq!(rt; ShippedModel::Ext4like.text().len(), 345);
    Ok(())
}

// The first words of seed 7 are 2442223337, 414063806 and 2743600285. The second has the remainder 1 by 5, and the third 0;
// divided by 5 both have the remainder 1 by 8. In the third text each kind of call stands.
const ONE_CALL: &[u8] =
    b"litmus work\nblock 4\nsetup:\n  create /a\n  write /a 0 \"00000000\"\n  create /b\n  write /b 0 \"00000000\"\nbody:\n  create /n1\nexists: false\n";

const EIGHT_CALLS: &[u8] =
    b"litmus work\nblock 4\nsetup:\n  create /a\n  write /a 0 \"00000000\"\n  create /b\n  write /b 0 \"00000000\"\nbody:\n  create /n1\n  write /b 1 \"2\"\n  write /a 1 \"3\"\n  link /a /l4\n  write /a 4 \"5\"\n  truncate /b 8\n  truncate /b 8\n  mark m8\nexists: seen(m8) and not exists(/n1)\n";

const MANY_CALLS: &[u8] =
    b"litmus work\nblock 4\nsetup:\n  create /a\n  write /a 0 \"00000000\"\n  create /b\n  write /b 0 \"00000000\"\nbody:\n  create /n1\n  write /b 1 \"2\"\n  write /a 1 \"3\"\n  link /a /l4\n  write /a 4 \"5\"\n  truncate /b 8\n  truncate /b 8\n  mark m8\n  create /n9\n  truncate /b 8\n  write /a 4 \"1\"\n  write /b 5 \"2\"\n  write /b 3 \"3\"\n  truncate /b 8\n  write /a 2 \"5\"\n  mark m16\n  create /n17\n  attr /a k 18\n  truncate /b 8\n  write /a 6 \"0\"\n  truncate /b 8\n  attr /a k 22\n  link /a /l23\n  mark m24\nexists: seen(m8) and not exists(/n1) or seen(m16) and not exists(/n9) or seen(m24) and not exists(/n17)\n";

// Whether seed 7 makes this text, with the question in this line.
fn makes(alloc: Global, calls: u32, text: &[u8], line: u32) -> Result<bool, AllocError>
    requires some { 1 ≤ calls }
    requires few { calls ≤ 32 }
{
    let litmus = make(alloc, 7, calls)?;
    let printed = print(alloc, &litmus)?;
    Ok(printed.as_slice() == text && litmus.pred_line() == line)
}

#[test]
fn tests_are_made(rt: HostRuntime) -> Result<(), Fail> {
    let alloc = rt.alloc();
    assert!(rt; makes(alloc, 1, ONE_CALL, 10)?);
    assert!(rt; makes(alloc, 8, EIGHT_CALLS, 17)?);
    assert!(rt; makes(alloc, 24, MANY_CALLS, 33)?);
    Ok(())
}
