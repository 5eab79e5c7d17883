use super::*;
use litmus_syntax::SiteKind;
use model_library::ShippedModel;
use std::alloc::{AllocError, Global};
use std::test::Fail;

/// The command that these words are, with four choices for `--branch`, of which two have one word.
fn read(alloc: Global, line: &[&str]) -> Result<Option<Command>, AllocError> {
    let mut words = Words::new(alloc);
    for word in line {
        words.push(word)?;
    }
    let choices = ["activity", "first", "last", "first"];
    let found = command_of(alloc, &words, choices.as_slice())?;
    Ok(found)
}

/// Whether all of these lines are no command.
fn are_none(alloc: Global, lines: &[&[&str]]) -> Result<bool, AllocError> {
    for line in lines {
        if read(alloc, line)?.is_some() {
            return Ok(false);
        }
    }
    Ok(true)
}

/// Whether this is a `check` with these names, limit and place of a choice.
fn is_check(
    found: Option<Command>,
    name: &str,
    kept: Option<&str>,
    limit: Option<u32>,
    place: Option<usize>,
) -> bool {
    match &found {
        Some(
            Command::Check {
                litmus,
                model: ModelName::Shipped(ShippedModel::Sequential),
                search,
            },
        ) => {
            let log = match &search.log {
                None => None,
                Some(log) => Some(log.as_str()),
            };
            litmus.as_str() == name
                && log == kept
                && search.conflicts == limit
                && search.branch == place
        }
        _ => false,
    }
}

#[test]
fn options_stand_anywhere(rt: HostRuntime) -> Result<(), Fail> {
    let alloc = rt.alloc();
    let plain = read(alloc, &["check", "a", "@sequential"])?;
    assert!(rt; is_check(plain, "a", None, None, None));
    let joined = read(alloc, &["check", "a", "@sequential", "--log=f"])?;
    assert!(rt; is_check(joined, "a", Some("f"), None, None));
    let between = read(
        alloc,
        &[
            "--log",
            "f",
            "check",
            "a",
            "--conflicts",
            "1",
            "@sequential",
        ],
    )?;
    assert!(rt; is_check(between, "a", Some("f"), Some(1), None));
    let greatest = read(
        alloc,
        &[
            "check",
            "--log=",
            "--conflicts=4294967295",
            "--branch",
            "first",
            "a",
            "@sequential",
        ],
    )?;
    assert!(rt; is_check(greatest, "a", Some(""), Some(4294967295), Some(1)));
    let ended = read(alloc, &["check", "--", "--log", "@sequential"])?;
    assert!(rt; is_check(ended, "--log", None, None, None));
    let dash = read(alloc, &["check", "-", "@sequential"])?;
    assert!(rt; is_check(dash, "-", None, None, None));
    let empty = read(alloc, &["check", "", "@sequential", "--branch=activity"])?;
    assert!(rt; is_check(empty, "", None, None, Some(0)));
    Ok(())
}

#[test]
fn words_are_no_command(rt: HostRuntime) -> Result<(), Fail> {
    let lines: [&[&str]; 28] = [
        &[],
        &[""],
        &["--help"],
        &["check", "a"],
        &["check", "a", "@sequential", "b"],
        &["check", "a", "b", "c", "d", "e"],
        &["check", "a", "@Sequential"],
        &["check", "a", "@"],
        &["check", "a", "@sequential", "--log"],
        &["check", "a", "@sequential", "--log", "f", "--log", "g"],
        &["check", "a", "@sequential", "--conflicts", "1"],
        &[
            "check",
            "a",
            "@sequential",
            "--log",
            "f",
            "--conflicts",
            "0",
        ],
        &[
            "check",
            "a",
            "@sequential",
            "--log",
            "f",
            "--conflicts",
            "01",
        ],
        &[
            "check",
            "a",
            "@sequential",
            "--log",
            "f",
            "--conflicts",
            "+1",
        ],
        &[
            "check",
            "a",
            "@sequential",
            "--log",
            "f",
            "--conflicts",
            "4294967296",
        ],
        &["check", "a", "@sequential", "--with", "sync"],
        &["check", "a", "@sequential", "--branch", "least"],
        &["check", "a", "@sequential", "-x"],
        &["repair", "a", "@loose", "--with", "none"],
        &["verify", "a", "@loose"],
        &["show", "a", "--branch", "first"],
        &["models", "a"],
        &["work", "7", "0"],
        &["work", "7", "33"],
        &["work", "4294967296", "1"],
        &["flush", "a", "@loose", "3", "0"],
        &["flush", "a", "@loose", "3", "129"],
        &["hint", "a", "@loose", "f"],
    ];
    assert!(rt; are_none(rt.alloc(), lines.as_slice())?);
    Ok(())
}

#[test]
fn commands_have_their_operands(rt: HostRuntime) -> Result<(), Fail> {
    let alloc = rt.alloc();
    let found = read(alloc, &["repair", "a", "m"])?;
    assert!(rt;
        matches!(&found, Some(Command::Repair { model: ModelName::File(m), with: SiteKind::Fsync, .. }) if m.as_str() == "m")
    );
    let found = read(alloc, &["repair", "a", "", "--with", "all"])?;
    assert!(rt;
        matches!(&found, Some(Command::Repair { model: ModelName::File(m), with: SiteKind::All, .. }) if m.as_str() == "")
    );
    let found = read(alloc, &["verify", "a", "@loose", "f"])?;
    assert!(rt;
        matches!(&found, Some(Command::Verify { model: ModelName::Shipped(ShippedModel::Loose), log, .. }) if log.as_str() == "f")
    );
    let found = read(alloc, &["replay", "a", "@ext4like", "c"])?;
    assert!(rt;
        matches!(&found, Some(Command::Replay { model: ModelName::Shipped(ShippedModel::Ext4like), crash, .. }) if crash.as_str() == "c")
    );
    let found = read(alloc, &["events", "a", "m"])?;
    assert!(rt; matches!(&found, Some(Command::Events { litmus, .. }) if litmus.as_str() == "a"));
    let found = read(alloc, &["show", "a"])?;
    assert!(rt; matches!(&found, Some(Command::Show { litmus }) if litmus.as_str() == "a"));
    assert!(rt; matches!(read(alloc, &["models"])?, Some(Command::Models)));
    let found = read(alloc, &["work", "0", "32", "--branch", "last"])?;
    assert!(rt;
        matches!(
            found,
            Some(Command::Work {
                seed: 0,
                calls: 32,
                branch: Some(2)
            })
        )
    );
    let found = read(alloc, &["explain", "a", "m", "--branch", "last"])?;
    assert!(rt;
        matches!(
            found,
            Some(Command::Explain {
                branch: Some(2),
                ..
            })
        )
    );
    let found = read(alloc, &["hint", "a", "m", "f", "g"])?;
    assert!(rt;
        matches!(&found, Some(Command::Hint { log, hinted, .. }) if log.as_str() == "f" && hinted.as_str() == "g")
    );
    let found = read(alloc, &["trim", "a", "m", "f", "g"])?;
    assert!(rt;
        matches!(&found, Some(Command::Trim { log, trimmed, .. }) if log.as_str() == "f" && trimmed.as_str() == "g")
    );
    let found = read(alloc, &["flush", "a", "m", "4294967295", "128"])?;
    assert!(rt;
        matches!(
            found,
            Some(Command::Flush {
                seed: 4294967295,
                width: 128,
                ..
            })
        )
    );
    Ok(())
}
