use super::{FIRST, REPLACE, written_about};
use std::test::Fail;

/// Thirty names, whose order is free under the loosest model, with a sync before the mark.
const THIRTY_SYNCED: &str =
    "litmus thirty\nbody:\ncreate /n1\ncreate /n2\ncreate /n3\ncreate /n4\ncreate /n5\ncreate /n6\ncreate /n7\ncreate /n8\ncreate /n9\ncreate /n10\ncreate /n11\ncreate /n12\ncreate /n13\ncreate /n14\ncreate /n15\ncreate /n16\ncreate /n17\ncreate /n18\ncreate /n19\ncreate /n20\ncreate /n21\ncreate /n22\ncreate /n23\ncreate /n24\ncreate /n25\ncreate /n26\ncreate /n27\ncreate /n28\ncreate /n29\ncreate /n30\nsync\nmark m\nexists: seen(m) and not exists(/n30)\n";

/// The command, the file, what is written and, as the last byte, the status.
const ANSWERS: &[(&str, &str, &str)] = &[
    ("check", FIRST, "forbidden\n0"),
    (
        "check",
        "litmus a\nbody:\ncreate /f\nexists: exists(/f)",
        "allowed\norder 1 |\n0",
    ),
    (
        "check",
        "litmus empty\nbody:\nexists: true\n",
        "allowed\norder |\n0",
    ),
    (
        "check",
        "litmus a\nbody:\nmark a\nmark b\nexists: seen(a) and not seen(b)\n",
        "allowed\norder 1 | 2\n0",
    ),
    (
        "check",
        "litmus replace\nsetup:\ncreate /f\nwrite /f 0 \"old\"\nbody:\ncreate /g\nwrite /g 0 \"new\"\nrename /g /f\nexists: same(/f, /g)\n",
        "forbidden\n0",
    ),
    (
        "check",
        "litmus x\nblock 4\nsetup:\ncreate /f\nwrite /f 0 \"aaaabbbb\"\nbody:\nwrite /f 0 \"AAAABBBB\"\nexists: content(/f) = \"aaaaBBBB\"\n",
        "forbidden\n0",
    ),
    (
        "check",
        "litmus x\nsetup:\ncreate /f\nwrite /f 0 \"ab\"\nbody:\nwrite /f 1 \"XY\"\nwrite /f 6 \"Z\"\nexists: content(/f) = \"aXY\\x00\\x00\\x00Z\"\n",
        "allowed\norder 1 2 |\n0",
    ),
    (
        "check",
        "litmus x\nsetup:\ncreate /f\nbody:\nattr /f mode 7\nexists: attr(/f, mode) = 7\n",
        "allowed\norder 1 |\n0",
    ),
    (
        "check",
        "litmus x\nsetup:\ncreate /f\nbody:\nattr /f mode 7\nexists: attr(/f, mode) = 8\n",
        "forbidden\n0",
    ),
    (
        "check",
        "litmus x\nsetup:\ncreate /f\nbody:\nattr /f mode 7\nalways: attr(/f, mode) = 7\n",
        "allowed\norder | 1\n0",
    ),
    (
        "check",
        "litmus x\nbody:\nwrite /f 0 \"a\"\nexists: true\n",
        "litmus refused: line 3 kind 10\n4",
    ),
    (
        "check",
        "litmus x\nbody:\ncreate /f\nexists: seen(w)\n",
        "litmus refused: line 4 kind 15\n4",
    ),
    (
        "check",
        "litmus x\nbody:\nmkdir /d\nexists: true\n",
        "litmus refused: line 3 kind 6\n4",
    ),
    (
        "check",
        "litmus x\nbody:\nwrite /f 0 \"a\"\n",
        "litmus refused: line 4 kind 8\n4",
    ),
    (
        "check",
        "litmus x\nsetup:\ncreate /f\nlink /f /g\nbody:\ntruncate /f 65537\nexists: true\n",
        "litmus refused: line 6 kind 13\n4",
    ),
    (
        "check",
        "litmus x\nsetup:\ncreate /f\nlink /f /g\nbody:\nfsyncdir /f\nexists: true\n",
        "litmus refused: line 6 kind 12\n4",
    ),
    (
        "check",
        "litmus x\nsetup:\ncreate /f\nlink /f /g\nbody:\ncreate /f\nexists: true\n",
        "litmus refused: line 6 kind 11\n4",
    ),
    (
        "events",
        "litmus x\nsetup:\ncreate /f\nwrite /f 0 \"ab\"\nbody:\nwrite /f 1 \"XY\"\nwrite /f 6 \"Z\"\nexists: true\n",
        "event 1 extend file 0 block 0 at 1 len 2 size 3 call 1 txn 1\nevent 2 extend file 0 block 0 at 6 len 1 size 7 call 2 txn 2\nkeep 1 2\n0",
    ),
    (
        "events",
        "litmus replace\nsetup:\nmkdir /d\ncreate /d/f\nbody:\ncreate /g\nrename /g /d/f\nattr /d/f mode 7\nfsync /d/f\nfsyncdir /d\nfsyncdir /\nsync\nmark done\nexists: true\n",
        "event 1 link path /g file 1 call 1 txn 1\nevent 2 link path /d/f file 1 call 2 txn 2\nevent 3 unlink path /g file 1 call 2 txn 2\nevent 4 attr file 1 key mode value 7 call 3 txn 3\nevent 5 fsync file 1 call 4 txn 4\nevent 6 fsyncdir path /d call 5 txn 5\nevent 7 fsyncdir path / call 6 txn 6\nevent 8 sync call 7 txn 7\nevent 9 mark word done call 8 txn 8\nkeep 1 2\nkeep 1 3\nkeep 1 4\nkeep 1 5\nkeep 1 6\nkeep 1 7\nkeep 1 8\nkeep 1 9\nkeep 2 3\nkeep 2 4\nkeep 2 5\nkeep 2 6\nkeep 2 7\nkeep 2 8\nkeep 2 9\nkeep 3 4\nkeep 3 5\nkeep 3 6\nkeep 3 7\nkeep 3 8\nkeep 3 9\nkeep 4 5\nkeep 4 6\nkeep 4 7\nkeep 4 8\nkeep 4 9\nkeep 5 6\nkeep 5 7\nkeep 5 8\nkeep 5 9\nkeep 6 7\nkeep 6 8\nkeep 6 9\nkeep 7 8\nkeep 7 9\nkeep 8 9\n0",
    ),
    (
        "events",
        "litmus x\nblock 4\nsetup:\ncreate /f\nwrite /f 0 \"abcdef\"\nbody:\nwrite /f 2 \"WXYZ12\"\nexists: true\n",
        "event 1 write file 0 block 0 at 2 len 2 call 1 txn 1\nevent 2 extend file 0 block 1 at 4 len 4 size 8 call 1 txn 2\nkeep 1 2\n0",
    ),
    (
        "events",
        "litmus x\nblock 4\nsetup:\ncreate /f\nwrite /f 0 \"abcdef\"\nbody:\ntruncate /f 9\nexists: true\n",
        "event 1 trunc file 0 size 9 call 1 txn 1\n0",
    ),
    (
        "events",
        "litmus x\nblock 4\nsetup:\ncreate /f\nwrite /f 0 \"abcdef\"\nbody:\nappend /f \"\"\nexists: true\n",
        "0",
    ),
    (
        "events",
        "litmus x\nsetup:\ncreate /f\nlink /f /g\nbody:\nrename /f /g\nexists: true\n",
        "0",
    ),
    (
        "events",
        "litmus x\nsetup:\ncreate /f\nlink /f /g\nbody:\ntruncate /f 65536\nexists: true\n",
        "event 1 trunc file 0 size 65536 call 1 txn 1\n0",
    ),
    (
        "events",
        "litmus x\nbody:\nmkdir /d\nexists: true\n",
        "litmus refused: line 3 kind 6\n4",
    ),
    (
        "events",
        "litmus x\nbody:\nwrite /f 0 \"a\"\nexists: true\n",
        "litmus refused: line 3 kind 10\n4",
    ),
    (
        "show",
        "  litmus   a\nbody:\nappend /f \"\\x41\\x22\"  # end\nalways: not(true or false)",
        "litmus a 2\nblock 4096\nsector 4096\nsetup:\nbody:\n  append /f \"A\\\"\"\nalways: not (true or false)\n0",
    ),
    (
        "show",
        "litmus a\nbody:\ncreate /f\nexists: exists(/f)\n",
        "litmus a 2\nblock 4096\nsector 4096\nsetup:\nbody:\n  create /f\nexists: exists(/f)\n0",
    ),
    (
        "show",
        "litmus x\nbody:\nmkdir /d\nexists: true\n",
        "litmus refused: line 3 kind 6\n4",
    ),
    (
        "check",
        "litmus x\nbody:\nbegin\ncommit\nexists: true\n",
        "litmus refused: line 3 kind 3\n4",
    ),
    (
        "check",
        "litmus x 2\nbody:\nbegin\ncreate /a\nexists: true\n",
        "litmus refused: line 5 kind 4\n4",
    ),
    (
        "check",
        "litmus x 2\nbody:\nbegin\nmark m\ncommit\nexists: true\n",
        "litmus refused: line 4 kind 6\n4",
    ),
    (
        "show",
        "litmus x 2\nblock 4\nsector 3\nbody:\nbegin\ncreate /f\ncommit\nalways: true\n",
        "litmus x 2\nblock 4\nsector 3\nsetup:\nbody:\n  begin\n  create /f\n  commit\nalways: true\n0",
    ),
    (
        "check",
        "litmus far\nsetup:\ncreate /f\nwrite /f 0 \"ab\"\nbody:\nwrite /f 1 \"XY\"\nwrite /f 6 \"Z\"\nattr /f m 7\nexists: content(/f) = \"aXY\" and size(/f) = 3\n",
        "allowed\norder 1 | 2 3\n0",
    ),
    (
        "check",
        "litmus far\nsetup:\ncreate /f\nwrite /f 0 \"ab\"\nbody:\nwrite /f 1 \"XY\"\nwrite /f 6 \"Z\"\nattr /f m 7\nexists: attr(/f, m) = 7\n",
        "allowed\norder 1 2 3 |\n0",
    ),
    (
        "check",
        "litmus far\nsetup:\ncreate /f\nwrite /f 0 \"ab\"\nbody:\nwrite /f 1 \"XY\"\nwrite /f 6 \"Z\"\nattr /f m 7\nexists: attr(/f, m) = 7 and size(/f) = 3\n",
        "forbidden\n0",
    ),
    (
        "events",
        "litmus uneven 2\nblock 4\nsector 3\nsetup:\ncreate /f\nbody:\nwrite /f 0 \"AAAABBBB\"\nexists: true\n",
        "event 1 extend file 0 block 0 at 0 len 3 size 3 call 1 txn 1\nevent 2 extend file 0 block 0 at 3 len 1 size 4 call 1 txn 2\nevent 3 extend file 0 block 1 at 4 len 2 size 6 call 1 txn 3\nevent 4 extend file 0 block 1 at 6 len 2 size 8 call 1 txn 4\nkeep 1 2\nkeep 1 3\nkeep 1 4\nkeep 2 3\nkeep 2 4\nkeep 3 4\n0",
    ),
    ("check @ext4like", FIRST, "allowed\norder 2 | 1\n0"),
    ("check @loose", FIRST, "allowed\norder 2 | 1\n0"),
    ("check @ext4like", REPLACE, "allowed\norder 1 3 4 | 2\n0"),
    (
        "check @ext4like",
        "litmus replace\nsetup:\ncreate /f\nwrite /f 0 \"old\"\nbody:\ncreate /g\nwrite /g 0 \"new\"\nrename /g /f\nexists: same(/f, /g)\n",
        "forbidden\n0",
    ),
    (
        "check @ext4like",
        "litmus empty\nbody:\nexists: true\n",
        "allowed\norder |\n0",
    ),
    (
        "check @loose",
        "litmus empty\nbody:\nexists: true\n",
        "allowed\norder |\n0",
    ),
    (
        "check @loose",
        "litmus first\nbody:\n  create /f\n  mark done\nexists: false\n",
        "forbidden\n0",
    ),
    (
        "check @ext4like",
        "litmus x\nblock 4\nsetup:\ncreate /f\nwrite /f 0 \"aaaabbbb\"\nbody:\nwrite /f 0 \"AAAABBBB\"\nexists: content(/f) = \"aaaaBBBB\"\n",
        "allowed\norder 2 | 1\n0",
    ),
    (
        "check @loose",
        "litmus x\nsetup:\ncreate /f\nwrite /f 0 \"x\"\nbody:\nwrite /f 0 \"a\"\nwrite /f 0 \"b\"\nsync\nmark m\nexists: seen(m) and content(/f) = \"a\"\n",
        "allowed\norder 2 1 3 4 |\n0",
    ),
    (
        "check @ext4like",
        "litmus x\nsetup:\ncreate /f\nwrite /f 0 \"x\"\nbody:\nwrite /f 0 \"a\"\nwrite /f 0 \"b\"\nsync\nmark m\nexists: seen(m) and content(/f) = \"a\"\n",
        "forbidden\n0",
    ),
    (
        "check @ext4like",
        "litmus x\nsetup:\ncreate /f\nwrite /f 0 \"ab\"\nbody:\nwrite /f 1 \"XY\"\nwrite /f 6 \"Z\"\nexists: content(/f) = \"aXY\\x00\\x00\\x00Z\"\n",
        "allowed\norder 1 2 |\n0",
    ),
    (
        "check @ext4like",
        "litmus x\nsetup:\ncreate /f\nbody:\nattr /f mode 7\nexists: attr(/f, mode) = 7\n",
        "allowed\norder 1 |\n0",
    ),
    (
        "check @loose",
        "litmus x\nsetup:\ncreate /f\nbody:\nattr /f mode 7\nexists: attr(/f, mode) = 8\n",
        "forbidden\n0",
    ),
    (
        "check @ext4like",
        "litmus safe-replace\nsetup:\nmkdir /etc\ncreate /etc/conf\nwrite /etc/conf 0 \"v1\"\nbody:\ncreate /etc/conf.new\nwrite /etc/conf.new 0 \"v2\"\nfsync /etc/conf.new\nrename /etc/conf.new /etc/conf\nfsyncdir /etc\nmark saved\nalways: (content(/etc/conf) = \"v1\" or content(/etc/conf) = \"v2\") and (not seen(saved) or content(/etc/conf) = \"v2\")\n",
        "forbidden\n0",
    ),
    ("check @loose", THIRTY_SYNCED, "forbidden\n0"),
];

#[test]
fn answers(rt: HostRuntime) -> Result<(), Fail> {
    for (command, text, want) in ANSWERS {
        let answer = written_about(rt.alloc(), command, text.as_bytes())?;
        assert_eq!(rt; answer.as_slice(), want.as_bytes(), "at {text}");
    }
    Ok(())
}
