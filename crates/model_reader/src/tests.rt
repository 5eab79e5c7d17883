use super::*;
use std::test::Fail;

/// How a model that is read differs from nothing: its name, version, and how many definitions and kept expressions it has;
/// or the line and the number of the kind of its refusal.
fn answer(rt: &HostRuntime, bytes: &[u8]) -> Result<String, Fail> {
    let alloc = rt.alloc();
    match read(alloc, bytes) {
        Ok(model) => Ok(format!(in alloc;
            "version {}, {} lets, {} keeps",
            model.version,
            model.lets.len(),
            model.keeps.len()
        )?),
        Err(ModelFault::Refused { line, kind }) => Ok(format!(in alloc;
            "{line} {}",
            kind.number()
        )?),
        Err(ModelFault::OutOfMemory) => Ok(format!(in alloc; "out of memory")?),
    }
}

/// Texts, and what is answered.
const TEXTS: &[(&str, &str)] = &[
    (
        "model sequential\nkeep po\nend\n",
        "version 1, 0 lets, 1 keeps",
    ),
    (
        "model m 2\n\nlet rec c = (po & dir) | (c ; c) # chain\nkeep c +\nend",
        "version 2, 1 lets, 1 keeps",
    ),
    (
        "model m 01\nlet rec = po\nlet end = keep_it | rec\nend",
        "3 4",
    ),
    (
        "model m\nlet rec = po\nkeep rec\nend\n",
        "version 1, 1 lets, 1 keeps",
    ),
    ("", "1 8"),
    ("model m\n", "2 8"),
    ("model m\nkeep po\x01!\n", "2 1"),
    ("model m\nkeep po !\n", "2 2"),
    ("keep po\n", "1 3"),
    ("model m 3\n", "1 3"),
    ("model m 99999999999\n", "1 3"),
    ("model m\nmodel n\n", "2 3"),
    ("model m\nkeep\n", "2 3"),
    ("model m\nkeep po po\n", "2 3"),
    ("model m\nkeep [ ]\n", "2 3"),
    ("model m\nkeep [po\n", "2 3"),
    ("model m\nkeep (po\n", "2 3"),
    ("model m\nkeep po)\n", "2 3"),
    ("model m\nkeep ; po\n", "2 3"),
    ("model m\nlet rec c = po\n", "2 3"),
    ("model m\nend\nkeep po\n", "3 3"),
    ("model m\nend\nend\n", "3 3"),
    ("model m\nkeep early\nlet early = po\nend\n", "2 4"),
    ("model m 2\nlet rec x = y\n", "2 4"),
    ("model m\nlet x = x\n", "2 4"),
    ("model m\nlet po = id\n", "2 5"),
    ("model m\nlet x = id\nlet x = po\n", "3 5"),
    ("model m\nkeep [po]\n", "2 6"),
    ("model m\nkeep [wrong] ; early\n", "2 4"),
    ("model m\nlet po = [wrong]\n", "2 6"),
    ("model m\nlet po = early\n", "2 4"),
];

#[test]
fn texts_are_read_or_refused(rt: HostRuntime) -> Result<(), Fail> {
    for (bytes, want) in TEXTS {
        let got = answer(&rt, bytes.as_bytes())?;
        assert_eq!(rt; got.as_str(), *want, "at {bytes}");
    }
    Ok(())
}

/// How often the second part of a text stands behind its first, and the fourth behind its third, and what is answered.
const LIMITS: &[(usize, [&str; 5], &str)] = &[
    (
        64,
        ["model m\nkeep ", "(", "po", ")", "\nend\n"],
        "version 1, 0 lets, 1 keeps",
    ),
    (65, ["model m\nkeep ", "(", "po", ")", "\nend\n"], "2 7"),
    (65, ["model m\nend\n", "(", "", "", "!\n"], "3 2"),
    (65, ["model m\nend\n", "(", "", "", "\n"], "3 7"),
    (
        255,
        ["model m\nkeep po", " ; po", "", "", "\nend\n"],
        "version 1, 0 lets, 1 keeps",
    ),
    (
        255,
        ["model m\nkeep po", " ; po", " +", "", "\nend\n"],
        "2 9",
    ),
    (
        510,
        ["model m\nkeep po", "+", "", "", "\nend\n"],
        "version 1, 0 lets, 1 keeps",
    ),
    (511, ["model m\nkeep po", "+", "", "", "\nend\n"], "2 9"),
    (
        256,
        ["model m\n", "keep po\n", "end\n", "", ""],
        "version 1, 0 lets, 256 keeps",
    ),
    (
        256,
        ["model m\n", "keep po\n", "keep keep\n", "", ""],
        "258 9",
    ),
    (
        65525,
        ["model m\nend", "\n", "", "", ""],
        "version 1, 0 lets, 0 keeps",
    ),
    (65525, ["model m\nend", "\n", "", "", "x"], "0 10"),
];

#[test]
fn limits_are_those_of_the_grammar(rt: HostRuntime) -> Result<(), Fail> {
    let alloc = rt.alloc();
    for (count, parts, want) in LIMITS {
        let [head, unit, middle, end, tail] = *parts;
        let mut bytes = Vec::new(alloc);
        bytes.extend_from_slice(head.as_bytes())?;
        for _ in 0..*count {
            bytes.extend_from_slice(unit.as_bytes())?;
        }
        bytes.extend_from_slice(middle.as_bytes())?;
        for _ in 0..*count {
            bytes.extend_from_slice(end.as_bytes())?;
        }
        bytes.extend_from_slice(tail.as_bytes())?;
        let got = answer(&rt, bytes.as_slice())?;
        assert_eq!(rt; got.as_str(), *want, "at {count} {unit}");
    }
    Ok(())
}

/// The expression that the text of a `keep` line is.
fn kept(rt: &HostRuntime, text: &str) -> Result<Model, Fail> {
    let alloc = rt.alloc();
    let bytes = format!(in alloc; "model m 2\nlet rec a = po\nlet b = a\nkeep {text}\nend")?;
    let model = read(alloc, bytes.as_str().as_bytes())?;
    Ok(model)
}

#[test]
fn operators_bind_and_group(rt: HostRuntime) -> Result<(), Fail> {
    let model = kept(&rt, "po | id & file ; [write mark] + ; b")?;
    let [first_let, second_let] = model.lets.as_slice() else {
        panic!(rt; "other definitions");
    };
    assert!(rt; first_let.recursive);
    assert!(rt; !second_let.recursive);
    assert_eq!(rt; second_let.before, 0);
    let [whole] = model.keeps.as_slice() else {
        panic!(rt; "other expressions");
    };
    let Expr::Or { left, right } = whole else {
        panic!(rt; "no union");
    };
    assert!(rt; matches!(left.get(), Expr::Po));
    let Expr::And { left, right } = right.get() else {
        panic!(rt; "no intersection");
    };
    assert!(rt; matches!(left.get(), Expr::Id));
    let Expr::Seq { left, right } = right.get() else {
        panic!(rt; "no sequence");
    };
    let Expr::Named { index } = right.get() else {
        panic!(rt; "no name");
    };
    assert_eq!(rt; *index, 1);
    let Expr::Seq { left, right } = left.get() else {
        panic!(rt; "no sequence on the left");
    };
    assert!(rt; matches!(left.get(), Expr::SameFile));
    let Expr::Plus { inner } = right.get() else {
        panic!(rt; "no closure");
    };
    let Expr::Kinds { bits } = inner.get() else {
        panic!(rt; "no kinds");
    };
    assert_eq!(rt; *bits, 513);
    Ok(())
}
