ghost use Rattle.std.specs.Prelude.{◌≡◌, ℕ, List, [], ◌∷◌, All, IfOk};
ghost use Rattle.litmus_syntax.specs.declared.call.Call.TheVariants.{Create, Sync};
ghost use Rattle.litmus_syntax.specs.Transactions.{calls_of};

use super::*;
use fer_events::Crash;
use fer_list::Seq;
use litmus_syntax::{Call, Litmus, Path, Pred, Site, Step, insert};
use std::alloc::{AllocError, Global};
use std::test::Fail;
use witness_replay::CrashJudgement;

#[test]
fn texts_of_answers(rt: HostRuntime) -> Result<(), Fail> {
    let alloc = rt.alloc();
    let crash = Crash {
        order: Seq::from_vec(vec![in alloc; 1, 3, 4, 2]?),
        cut: 3,
    };
    let rows = [
        (
            Outcome::Allowed { crash: &crash },
            "allowed\norder 1 3 4 | 2\n",
        ),
        (Outcome::Forbidden, "forbidden\n"),
        (Outcome::Unknown { limit: 0 }, "unknown 0\n"),
        (
            Outcome::Unknown {
                limit: 4_294_967_295,
            },
            "unknown 4294967295\n",
        ),
        (
            Outcome::LitmusRefused { line: 67, kind: 14 },
            "litmus refused: line 67 kind 14\n",
        ),
        (
            Outcome::ModelRefused { line: 2, kind: 4 },
            "model refused: line 2 kind 4\n",
        ),
        (
            Outcome::LogRefused { line: 5, kind: 3 },
            "log refused: line 5 kind 3\n",
        ),
        (Outcome::LogAccepted { sites: 0 }, "log accepted: 0 sites\n"),
        (Outcome::CrashAccepted, "crash accepted\n"),
        (
            Outcome::CrashRefused {
                judgement: CrashJudgement::NotAnOrder,
            },
            "crash refused: kind 1\n",
        ),
        (
            Outcome::CrashRefused {
                judgement: CrashJudgement::PairBroken { a: 1, b: 3 },
            },
            "crash refused: kind 2 pair 1 3\n",
        ),
        (
            Outcome::CrashRefused {
                judgement: CrashJudgement::TransactionSplit { txn: 3 },
            },
            "crash refused: kind 3 transaction 3\n",
        ),
        (
            Outcome::CrashRefused {
                judgement: CrashJudgement::PredicateFalse,
            },
            "crash refused: kind 4\n",
        ),
        (Outcome::CrashUnread, "crash refused: kind 5\n"),
        (
            Outcome::Work {
                summary: Summary {
                    seed: 7,
                    calls: 1,
                    events: 1,
                    sites: 1,
                    pairs: 0,
                    kept: 0,
                },
            },
            "work 7 1\nevents 1\nsites 1\npairs 0\nkept 0\n",
        ),
        (
            Outcome::Work {
                summary: Summary {
                    seed: 4_294_967_295,
                    calls: 64,
                    events: 63,
                    sites: 62,
                    pairs: 1891,
                    kept: 8,
                },
            },
            "work 4294967295 64\nevents 63\nsites 62\npairs 1891\nkept 8\n",
        ),
        (
            Outcome::ReadFault {
                role: Role::LitmusFile,
            },
            "read fault: litmus\n",
        ),
        (
            Outcome::Missing {
                role: Role::ModelFile,
            },
            "not found: model\n",
        ),
        (
            Outcome::Missing {
                role: Role::LogFile,
            },
            "not found: log\n",
        ),
        (
            Outcome::Missing {
                role: Role::CrashFile,
            },
            "not found: crash\n",
        ),
    ];
    for (outcome, want) in rows {
        let got = text(alloc, &outcome)?;
        assert_eq!(rt; got.as_slice(), want.as_bytes());
    }
    Ok(())
}

/// A path of one name.
fn path_of(alloc: Global, name: &[u8]) -> Result<Path, AllocError>
    ensures { IfOk result (λ path. path ≡ name.now ∷ []) }
{
    let mut path = Seq::new(alloc);
    path.push(Seq::from_slice(alloc, name)?)?;
    Ok(path)
}

/// A test of the one call `create /f`, which asks nothing.
fn one_call(alloc: Global) -> Result<Litmus, AllocError>
    ensures { IfOk result (λ l. (path : List (List ℕ)) × (calls_of l.body ≡ Create path ∷ [])) }
{
    let name = Seq::from_slice(alloc, b"x")?;
    let path = path_of(alloc, b"f")?;
    let mut body = Seq::new(alloc);
    let call = Call::Create { path };
    body.push(Step { line: 2, call })?;
    Ok(Litmus::new(
        name,
        4096,
        Seq::new(alloc),
        body,
        true,
        Pred::True,
        3,
        1,
        4096,
    ))
}

/// So many syncs behind the first call.
fn syncs(alloc: Global, count: u32) -> Result<Vec<Site>, AllocError>
    ensures { IfOk result (λ sites. All (λ site. site ≡ record { after = 1; call = Sync }) sites.items) }
{
    let mut sites = Vec::new(alloc);
    for _ in 0..count {
        sites.push(Site {
            after: 1,
            call: Call::Sync,
        })?;
    }
    Ok(sites)
}

/// The text of that test with so many syncs inserted.
fn shown(alloc: Global, count: u32) -> Result<Vec<u8>, AllocError> {
    let litmus = one_call(alloc)?;
    let sites = syncs(alloc, count)?;
    let longer = insert(alloc, &litmus, sites.as_slice())?;
    text(alloc, &Outcome::Shown { litmus: &longer })
}

/// What that text is to be.
fn wanted(alloc: Global, count: u32) -> Result<Vec<u8>, AllocError> {
    let mut want = Vec::from_slice(alloc, b"litmus x\nblock 4096\nsetup:\nbody:\n  create /f\n")?;
    for _ in 0..count {
        want.extend_from_slice(b"  sync\n")?;
    }
    want.extend_from_slice(b"exists: true\n")?;
    Ok(want)
}

#[test]
fn texts_with_syncs(rt: HostRuntime) -> Result<(), Fail> {
    for count in [0, 1, 128] {
        let got = shown(rt.alloc(), count)?;
        let want = wanted(rt.alloc(), count)?;
        assert!(rt; got.as_slice() == want.as_slice());
    }
    Ok(())
}

/// A test of the calls `create /f`, `fsyncdir /` and `mark done`, which asks nothing.
fn repaired_test(alloc: Global) -> Result<Litmus, AllocError> {
    let name = Seq::from_slice(alloc, b"first")?;
    let path = path_of(alloc, b"f")?;
    let word = Seq::from_slice(alloc, b"done")?;
    let root = Seq::new(alloc);
    let mut body = Seq::new(alloc);
    body.push(Step {
        line: 3,
        call: Call::Create { path },
    })?;
    body.push(Step {
        line: 4,
        call: Call::FsyncDir { path: root },
    })?;
    body.push(Step {
        line: 5,
        call: Call::Mark { word },
    })?;
    Ok(Litmus::new(
        name,
        4096,
        Seq::new(alloc),
        body,
        true,
        Pred::True,
        6,
        1,
        4096,
    ))
}

const REPAIRED: &[u8] = b"repaired 1
needed 2 order 3 | 1
litmus first
block 4096
setup:
body:
  create /f
  fsyncdir /
  mark done
exists: true
";

const NOTHING_NEEDED: &[u8] = b"repaired 0
litmus first
block 4096
setup:
body:
  create /f
  fsyncdir /
  mark done
exists: true
";

const NONE_SUFFICE: &[u8] = b"no syncs suffice
order |
litmus first
block 4096
setup:
body:
  create /f
  fsyncdir /
  mark done
exists: true
";

#[test]
fn texts_of_repairs(rt: HostRuntime) -> Result<(), Fail> {
    let alloc = rt.alloc();
    let litmus = &repaired_test(alloc)?;
    let needs = [NeedLine {
        event: 2,
        crash: Crash {
            order: Seq::from_vec(vec![in alloc; 3, 1]?),
            cut: 1,
        },
    }];
    let crash = &Crash {
        order: Seq::new(alloc),
        cut: 0,
    };
    let rows = [
        (
            Outcome::Repaired {
                needs: &needs,
                litmus,
            },
            REPAIRED,
        ),
        (Outcome::Repaired { needs: &[], litmus }, NOTHING_NEEDED),
        (Outcome::NoneSuffice { crash, litmus }, NONE_SUFFICE),
    ];
    for (outcome, want) in rows {
        let got = text(alloc, &outcome)?;
        assert!(rt; got.as_slice() == want);
    }
    Ok(())
}
