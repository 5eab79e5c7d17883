use super::{crash_line, written};
use std::test::Fail;

/// Thirty names, whose order is free under the loosest model.
const THIRTY: &str =
    "litmus thirty\nbody:\ncreate /n1\ncreate /n2\ncreate /n3\ncreate /n4\ncreate /n5\ncreate /n6\ncreate /n7\ncreate /n8\ncreate /n9\ncreate /n10\ncreate /n11\ncreate /n12\ncreate /n13\ncreate /n14\ncreate /n15\ncreate /n16\ncreate /n17\ncreate /n18\ncreate /n19\ncreate /n20\ncreate /n21\ncreate /n22\ncreate /n23\ncreate /n24\ncreate /n25\ncreate /n26\ncreate /n27\ncreate /n28\ncreate /n29\ncreate /n30\nmark m\nexists: seen(m) and not exists(/n30)\n";

/// The model's word, and a file whose question several crashes answer under it.
const JUDGED: &[(&str, &str)] = &[
    (
        "@loose",
        "litmus replace\nsetup:\ncreate /f\nwrite /f 0 \"old\"\nbody:\ncreate /g\nwrite /g 0 \"new\"\nrename /g /f\nexists: same(/f, /g)\n",
    ),
    (
        "@sequential",
        "litmus replace\nsetup:\ncreate /f\nwrite /f 0 \"old\"\nbody:\ncreate /g\nwrite /g 0 \"new\"\nrename /g /f\nexists: content(/f) = \"old\"\n",
    ),
    (
        "@ext4like",
        "litmus replace\nsetup:\ncreate /f\nwrite /f 0 \"old\"\nbody:\ncreate /g\nwrite /g 0 \"new\"\nrename /g /f\nexists: content(/f) = \"old\"\n",
    ),
    (
        "@sequential",
        "litmus far\nsetup:\ncreate /f\nwrite /f 0 \"ab\"\nbody:\nwrite /f 1 \"XY\"\nwrite /f 6 \"Z\"\nattr /f m 7\nexists: content(/f) = \"aXY\\x00\\x00\\x00Z\" and size(/f) = 7\n",
    ),
    (
        "@ext4like",
        "litmus safe-replace\nsetup:\nmkdir /etc\ncreate /etc/conf\nwrite /etc/conf 0 \"v1\"\nbody:\ncreate /etc/conf.new\nwrite /etc/conf.new 0 \"v2\"\nrename /etc/conf.new /etc/conf\nmark saved\nalways: (content(/etc/conf) = \"v1\" or content(/etc/conf) = \"v2\") and (not seen(saved) or content(/etc/conf) = \"v2\")\n",
    ),
    ("@loose", THIRTY),
];

/// Each crash that is printed is accepted by `replay`, whichever of the choices decides.
#[test]
fn crashes_are_accepted(rt: HostRuntime) -> Result<(), Fail> {
    let alloc = rt.alloc();
    for (model, text) in JUDGED {
        for choice in ["activity", "first", "last"] {
            let words = ["check", "a.lit", model, "--branch", choice];
            let files = [("a.lit", text.as_bytes())];
            let answer = written(alloc, words.as_slice(), files.as_slice(), 0)?;
            let line = crash_line(answer.as_slice());
            let files = [("a.lit", text.as_bytes()), ("c", line)];
            let judged = written(alloc, &["replay", "a.lit", model, "c"], files.as_slice(), 0)?;
            assert_eq!(rt;
                judged.as_slice(),
                b"crash accepted\n0".as_slice(),
                "at {text}"
            );
        }
    }
    Ok(())
}
