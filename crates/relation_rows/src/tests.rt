use call_events::resolve;
use event_relations::{kept, kept_by};
use fer_events::{Events, Pairs};
use model_reader::Model;
use std::alloc::{AllocError, Global};
use std::test::Fail;

// The numbers of each pair, by the first, then the second.
fn push_pairs(pairs: &Pairs, all: &mut Vec<u32>) -> Result<(), AllocError> {
    let n = pairs.n();
    for a in 0..n {
        for b in 0..n {
            if pairs.has(a + 1, b + 1) {
                all.push(a + 1)?;
                all.push(b + 1)?;
            }
        }
    }
    Ok(())
}

// The test's events.
fn events_of(alloc: Global, test: &[u8]) -> Result<Option<Events>, AllocError> {
    let Ok(litmus) = litmus_reader::read(alloc, test) else {
        return Ok(None);
    };
    let Ok(events) = resolve(alloc, &litmus, &[]) else {
        return Ok(None);
    };
    Ok(Some(events))
}

// Whether the model keeps exactly these pairs of the events.
fn keeps(
    alloc: Global,
    model: &Model,
    events: &Events,
    expected: &[u32],
) -> Result<bool, AllocError> {
    let pairs = kept(alloc, model, events)?;
    let mut all = Vec::new(alloc);
    push_pairs(&pairs, &mut all)?;
    Ok(all.as_slice() == expected)
}

// Whether the model keeps exactly these pairs of the test's events.
fn row(alloc: Global, test: &[u8], model: &[u8], expected: &[u32]) -> Result<bool, AllocError> {
    let Some(events) = events_of(alloc, test)? else {
        return Ok(false);
    };
    let Ok(model) = model_reader::read(alloc, model) else {
        return Ok(false);
    };
    keeps(alloc, &model, &events, expected)
}

// Whether the model's lines keep exactly these pairs of the test's events: a 0 stands behind those of each line.
fn lines(alloc: Global, test: &[u8], model: &[u8], expected: &[u32]) -> Result<bool, AllocError> {
    let Some(events) = events_of(alloc, test)? else {
        return Ok(false);
    };
    let Ok(model) = model_reader::read(alloc, model) else {
        return Ok(false);
    };
    let lines = kept_by(alloc, &model, &events)?;
    let mut all = Vec::new(alloc);
    for pairs in lines.as_slice() {
        push_pairs(pairs, &mut all)?;
        all.push(0)?;
    }
    Ok(all.as_slice() == expected)
}

const SEQUENTIAL: &[u8] = b"model sequential\nkeep po\nend\n";

const EXT4_LIKE: &[u8] = b"model ext4like
let names = [link unlink]
let meta = [extend trunc attr]
keep po & block
keep meta ; (po & file) ; meta
keep [write] ; (po & file) ; [extend trunc]
keep names ; (po & dir) ; names
keep [write extend trunc attr] ; (po & file) ; [fsync]
keep names ; (po & dir) ; [fsyncdir]
keep po ; [sync]
keep [fsync fsyncdir sync mark] ; po
end
";

const LOOSE: &[u8] = b"model loose\nkeep po ; [sync]\nkeep [sync] ; po\nend\n";

// 1 link `/g`, 2 extend, 3 link `/f`, 4 unlink `/g`, all of the new file; 3 and 4 are one call.
const REPLACE: &[u8] = b"litmus replace
setup:
  create /f
  write /f 0 \"old\"
body:
  create /g
  write /g 0 \"new\"
  rename /g /f
exists: true
";

// The same with a sync between: 1 link, 2 extend, 3 fsync, 4 link, 5 unlink.
const SAFE_REPLACE: &[u8] = b"litmus safe
setup:
  create /f
  write /f 0 \"old\"
body:
  create /g
  write /g 0 \"new\"
  fsync /g
  rename /g /f
exists: true
";

// 1 link, 2 fsyncdir, 3 mark.
const MADE: &[u8] = b"litmus made\nbody:\n  create /f\n  fsyncdir /\n  mark done\nexists: true\n";

// 1 and 2 extend one block.
const LONGER: &[u8] = b"litmus longer
setup:
  create /f
  write /f 0 \"ab\"
body:
  write /f 1 \"XY\"
  write /f 6 \"Z\"
exists: true
";

// 1 and 2 write one block, 3 sync, 4 mark.
const SYNCED: &[u8] = b"litmus synced
setup:
  create /f
  write /f 0 \"x\"
body:
  write /f 0 \"a\"
  write /f 0 \"b\"
  sync
  mark m
exists: true
";

// 1 and 4 write the first block of `/f`, 2 its second block, 3 the first block of `/g`.
const BLOCKS: &[u8] = b"litmus blocks
block 4
setup:
  create /f
  create /g
  write /f 0 \"aaaabbbb\"
  write /g 0 \"cccc\"
body:
  write /f 0 \"AAAABBBB\"
  write /g 0 \"C\"
  write /f 3 \"A\"
exists: true
";

#[test]
fn shipped_models_keep_their_pairs(rt: HostRuntime) -> Result<(), Fail> {
    let alloc = rt.alloc();
    let rows: [(&[u8], &[u8], &[u32]); 14] = [
        (REPLACE, SEQUENTIAL, &[1, 2, 1, 3, 1, 4, 2, 3, 2, 4, 3, 4]),
        (REPLACE, EXT4_LIKE, &[1, 3, 1, 4, 3, 4]),
        (REPLACE, LOOSE, &[]),
        (
            SAFE_REPLACE,
            EXT4_LIKE,
            &[1, 4, 1, 5, 2, 3, 3, 4, 3, 5, 4, 5],
        ),
        (SAFE_REPLACE, LOOSE, &[]),
        (MADE, SEQUENTIAL, &[1, 2, 1, 3, 2, 3]),
        (MADE, EXT4_LIKE, &[1, 2, 2, 3]),
        (MADE, LOOSE, &[]),
        (LONGER, EXT4_LIKE, &[1, 2]),
        (LONGER, LOOSE, &[]),
        (SYNCED, EXT4_LIKE, &[1, 2, 1, 3, 2, 3, 3, 4]),
        (SYNCED, LOOSE, &[1, 3, 2, 3, 3, 4]),
        (BLOCKS, EXT4_LIKE, &[1, 4]),
        (BLOCKS, LOOSE, &[]),
    ];
    for (test, model, expected) in rows {
        assert!(rt; row(alloc, test, model, expected)?);
    }
    Ok(())
}

#[test]
fn expressions_keep_their_pairs(rt: HostRuntime) -> Result<(), Fail> {
    let alloc = rt.alloc();
    let rows: [(&[u8], &[u32]); 24] = [
        (b"model m\nend\n", &[]),
        (b"model m\nkeep id\nend\n", &[]),
        (
            b"model m\nkeep any\nend\n",
            &[1, 2, 1, 3, 1, 4, 2, 3, 2, 4, 3, 4],
        ),
        (
            b"model m\nkeep file\nend\n",
            &[1, 2, 1, 3, 1, 4, 2, 3, 2, 4, 3, 4],
        ),
        (b"model m\nkeep block\nend\n", &[]),
        (b"model m\nkeep dir\nend\n", &[1, 3, 1, 4, 3, 4]),
        (b"model m\nkeep name\nend\n", &[1, 4]),
        (b"model m\nkeep call\nend\n", &[3, 4]),
        (b"model m\nkeep txn\nend\n", &[3, 4]),
        (b"model m\nkeep [link]\nend\n", &[]),
        (
            b"model m\nkeep po & dir & call | name\nend\n",
            &[1, 4, 3, 4],
        ),
        (
            b"model m\nkeep po & call\nkeep po & name\nend\n",
            &[1, 4, 3, 4],
        ),
        (b"model m\nkeep [extend] ; po\nend\n", &[2, 3, 2, 4]),
        (b"model m\nkeep po ; [extend]\nend\n", &[1, 2]),
        (b"model m\nkeep any ; [link]\nend\n", &[1, 3, 2, 3]),
        (b"model m\nkeep [unlink] ; any\nend\n", &[]),
        (
            b"model m\nlet a = po & file\nkeep a ; [link] ; a\nend\n",
            &[1, 4, 2, 4],
        ),
        (
            b"model m\nlet a = po & call | [extend] ; po\nlet b = a ; a\nkeep b\nend\n",
            &[2, 4],
        ),
        (
            b"model m\nlet a = [link] ; po ; [extend] | [extend] ; po ; [link] | po & call\nkeep a\nend\n",
            &[1, 2, 2, 3, 3, 4],
        ),
        (
            b"model m\nlet a = [link] ; po ; [extend] | [extend] ; po ; [link] | po & call\nkeep a +\nend\n",
            &[1, 2, 1, 3, 1, 4, 2, 3, 2, 4, 3, 4],
        ),
        (
            b"model m\nlet a = [link] ; po ; [extend] | [extend] ; po ; [link]\nkeep a + ; (po & call)\nend\n",
            &[1, 4, 2, 4],
        ),
        (
            b"model m\nlet rec = po\nkeep rec\nend\n",
            &[1, 2, 1, 3, 1, 4, 2, 3, 2, 4, 3, 4],
        ),
        (
            b"model m\nkeep po\nlet po2 = po ; po\nkeep id ; po2\nend\n",
            &[1, 2, 1, 3, 1, 4, 2, 3, 2, 4, 3, 4],
        ),
        (b"model m\nlet po2 = po ; po\nkeep po2 ; po\nend\n", &[1, 4]),
    ];
    for (model, expected) in rows {
        assert!(rt; row(alloc, REPLACE, model, expected)?);
    }
    assert!(rt; row(alloc, BLOCKS, b"model m\nkeep po & block\nend\n", &[1, 4])?);
    assert!(rt;
        row(
            alloc,
            BLOCKS,
            b"model m\nkeep po & file\nend\n",
            &[1, 2, 1, 4, 2, 4]
        )?
    );
    Ok(())
}

#[test]
fn recursive_names_stand_for_the_least_pairs(rt: HostRuntime) -> Result<(), Fail> {
    let alloc = rt.alloc();
    let rows: [(&[u8], &[u32]); 7] = [
        (b"model least 2\nlet rec x = x | x\nkeep x\nend\n", &[]),
        (b"model least 2\nlet rec x = po & x\nkeep x\nend\n", &[]),
        (
            b"model chain 2\nlet rec c = (po & dir) | (c ; c)\nkeep c\nend\n",
            &[1, 3, 1, 4, 3, 4],
        ),
        (
            b"model steps 2\nlet a = [link] ; po ; [extend] | [extend] ; po ; [link] | po & call\nlet rec c = a | a ; c\nkeep c\nend\n",
            &[1, 2, 1, 3, 1, 4, 2, 3, 2, 4, 3, 4],
        ),
        (
            b"model steps 2\nlet a = [link] ; po ; [extend] | [extend] ; po ; [link] | po & call\nlet rec c = a | c ; c\nkeep c & name\nend\n",
            &[1, 4],
        ),
        (
            b"model two 2\nlet rec c = po & call | c ; c\nlet rec d = c | [extend] ; po ; d\nkeep d\nend\n",
            &[2, 4, 3, 4],
        ),
        (b"model plain 2\nlet a = po & name\nkeep a\nend\n", &[1, 4]),
    ];
    for (model, expected) in rows {
        assert!(rt; row(alloc, REPLACE, model, expected)?);
    }
    Ok(())
}

#[test]
fn lines_keep_their_own_pairs(rt: HostRuntime) -> Result<(), Fail> {
    let alloc = rt.alloc();
    assert!(rt;
        lines(
            alloc,
            REPLACE,
            EXT4_LIKE,
            &[0, 0, 0, 1, 3, 1, 4, 3, 4, 0, 0, 0, 0, 0]
        )?
    );
    assert!(rt;
        lines(
            alloc,
            SAFE_REPLACE,
            EXT4_LIKE,
            &[0, 0, 0, 1, 4, 1, 5, 4, 5, 0, 2, 3, 0, 0, 0, 3, 4, 3, 5, 0]
        )?
    );
    assert!(rt;
        lines(
            alloc,
            LONGER,
            EXT4_LIKE,
            &[1, 2, 0, 1, 2, 0, 0, 0, 0, 0, 0, 0]
        )?
    );
    assert!(rt;
        lines(
            alloc,
            SYNCED,
            EXT4_LIKE,
            &[1, 2, 0, 0, 0, 0, 0, 0, 1, 3, 2, 3, 0, 3, 4, 0]
        )?
    );
    assert!(rt; lines(alloc, SYNCED, LOOSE, &[1, 3, 2, 3, 0, 3, 4, 0])?);
    assert!(rt; lines(alloc, SYNCED, b"model m\nend\n", &[])?);
    Ok(())
}

fn push_text(text: &[u8], all: &mut Vec<u8>) -> Result<(), AllocError> {
    for byte in text {
        all.push(*byte)?;
    }
    Ok(())
}

// The model that keeps `po` with this text behind it, so many times over.
fn repeated(alloc: Global, text: &[u8], count: usize) -> Result<Vec<u8>, AllocError> {
    let mut model = Vec::new(alloc);
    push_text(b"model deep\nkeep po", &mut model)?;
    for _ in 0..count {
        push_text(text, &mut model)?;
    }
    push_text(b"\nend\n", &mut model)?;
    Ok(model)
}

#[test]
fn longest_lines_are_computed(rt: HostRuntime) -> Result<(), Fail> {
    let alloc = rt.alloc();
    let closures = repeated(alloc, b" +", 510)?;
    assert!(rt;
        row(
            alloc,
            REPLACE,
            closures.as_slice(),
            &[1, 2, 1, 3, 1, 4, 2, 3, 2, 4, 3, 4]
        )?
    );
    let unions = repeated(alloc, b" | dir", 255)?;
    assert!(rt; row(alloc, MADE, unions.as_slice(), &[1, 2, 1, 3, 2, 3])?);
    let paths = repeated(alloc, b" ; po", 255)?;
    assert!(rt; row(alloc, REPLACE, paths.as_slice(), &[])?);
    Ok(())
}
