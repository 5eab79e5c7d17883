use call_events::resolve;
use clause_store::{Lit, Store};
use fer_events::{Events, Pairs};
use litmus_reader::read;
use litmus_syntax::Litmus;
use predicate_coding::code;
use std::alloc::{AllocError, Global};
use std::test::Fail;

// The literal as a number: the variable's, negative where it is negated.
fn number(lit: &Lit) -> i64 {
    let var = i64::from(lit.var);
    if lit.positive { var } else { -var }
}

// The clauses as numbers, with a 0 behind each.
fn numbers(alloc: Global, store: &Store) -> Result<Vec<i64>, AllocError> {
    let mut all = Vec::new(alloc);
    for id in 0..store.len() {
        for lit in store.clause(id) {
            all.push(number(lit))?;
        }
        all.push(0)?;
    }
    Ok(all)
}

// Whether the store has these variables and exactly these clauses, in their order.
fn holds(alloc: Global, store: &Store, vars: u32, clauses: &[i64]) -> Result<bool, AllocError> {
    let all = numbers(alloc, store)?;
    Ok(store.vars() == vars && all.as_slice() == clauses)
}

// Whether the test has these clauses where no pair is kept.
fn row(alloc: Global, text: &[u8], vars: u32, clauses: &[i64]) -> Result<bool, AllocError> {
    match read(alloc, text) {
        Err(_) => Ok(false),
        Ok(litmus) => resolved(alloc, &litmus, vars, clauses),
    }
}

fn resolved(
    alloc: Global,
    litmus: &Litmus,
    vars: u32,
    clauses: &[i64],
) -> Result<bool, AllocError> {
    match resolve(alloc, litmus, &[]) {
        Err(_) => Ok(false),
        Ok(events) => coded_as(alloc, litmus, &events, vars, clauses),
    }
}

fn coded_as(
    alloc: Global,
    litmus: &Litmus,
    events: &Events,
    vars: u32,
    clauses: &[i64],
) -> Result<bool, AllocError> {
    events.keeps_rules();
    let pairs = Pairs::new(events.events().len() as u32);
    let coded = code(alloc, events, &pairs, litmus.pred(), litmus.want())?;
    holds(alloc, &coded.store, vars, clauses)
}

const TAKEN_AWAY: &[u8] = b"litmus a\nbody:\n  create /f\n  unlink /f\nexists: exists(/f)\n";

const CUT: &[u8] =
    b"litmus b\nsetup:\n  create /f\nbody:\n  write /f 0 \"ab\"\n  truncate /f 1\nexists: size(/f) = 1\n";

const TWO_SEGMENTS: &[u8] =
    b"litmus c\nsetup:\n  create /f\n  write /f 0 \"xx\"\nbody:\n  write /f 0 \"a\"\nexists: content(/f) = \"ax\"\n";

const ONE_SEGMENT: &[u8] =
    b"litmus j\nsetup:\n  create /f\n  write /f 0 \"xxxx\"\nbody:\n  write /f 0 \"aaaa\"\nexists: content(/f) = \"aaaa\"\n";

const THREE_SEGMENTS: &[u8] =
    b"litmus k\nsetup:\n  create /f\n  write /f 0 \"xxxx\"\nbody:\n  write /f 0 \"aaaa\"\n  write /f 1 \"b\"\nexists: content(/f) = \"abaa\"\n";

const NO_KEY: &[u8] =
    b"litmus d\nsetup:\n  create /f\nbody:\n  mark m\nexists: attr(/f, color) = 1\n";

const A_KEY: &[u8] =
    b"litmus e\nsetup:\n  create /f\n  attr /f color 7\nbody:\n  attr /f color 5\nexists: attr(/f, color) = 5\n";

const ONE_SLOT_TWICE: &[u8] =
    b"litmus f\nsetup:\n  create /f\nbody:\n  mark m\nexists: same(/f, /f)\n";

const TWO_SLOTS: &[u8] =
    b"litmus g\nsetup:\n  create /f\nbody:\n  link /f /g\nexists: same(/f, /g)\n";

const ALWAYS: &[u8] = b"litmus h\nsetup:\n  create /f\nbody:\n  unlink /f\nalways: exists(/f)\n";

const CONNECTIVES: &[u8] = b"litmus i\nbody:\n  mark m\nexists: not seen(m) or true and false\n";

// Each list says: the order, each cell's last writer, each node, the question.
const TAKEN_AWAY_CLAUSES: &[i64] = &[
    -2, -3, 1, 0, -1, 3, 2, 0, 4, 5, 6, 0, -5, 1, 0, -5, -2, -3, 0, -6, 2, 0, -6, -1, 3, 0, -4, -1,
    0, -4, -2, 0, 7, 0, -4, -8, 0, -5, -7, 8, 0, -5, 7, -8, 0, -6, -8, 0, 8, 0,
];

const CUT_CLAUSES: &[i64] = &[
    -2, -3, 1, 0, -1, 3, 2, 0, 4, 0, 5, 6, 7, 0, -6, 1, 0, -6, -2, -3, 0, -7, 2, 0, -7, -1, 3, 0,
    -5, -1, 0, -5, -2, 0, -8, -5, 0, -8, -6, 0, 8, 5, 6, 0, -4, -8, 9, 0, -4, 8, -9, 0, 9, 0,
];

const TWO_SEGMENTS_CLAUSES: &[i64] = &[
    2, 0, 3, 0, 4, 5, 0, -5, 1, 0, -4, -1, 0, 6, 0, -7, -4, 0, 7, 4, 0, -2, -7, 8, 0, -2, 7, -8, 0,
    8, 0,
];

const ONE_SEGMENT_CLAUSES: &[i64] = &[
    2, 0, 3, 0, 4, 5, 0, -5, 1, 0, -4, -1, 0, -6, -4, 0, 6, 4, 0, -2, -6, 7, 0, -2, 6, -7, 0, 7, 0,
];

const THREE_SEGMENTS_CLAUSES: &[i64] = &[
    -2, -3, 1, 0, -1, 3, 2, 0, 4, 0, 5, 0, 6, 7, 0, -7, 1, 0, -6, -1, 0, 8, 9, 10, 0, -9, 1, 0, -9,
    -2, -3, 0, -10, 2, 0, -10, -1, 3, 0, -8, -1, 0, -8, -2, 0, 11, 12, 0, -12, 1, 0, -11, -1, 0,
    -13, -6, 0, -13, -8, 0, -13, -9, 0, -13, -11, 0, 13, 6, 8, 9, 11, 0, -4, -13, 14, 0, -4, 13,
    -14, 0, 14, 0,
];

const NO_KEY_CLAUSES: &[i64] = &[2, 0, -3, 0, -2, -3, 4, 0, -2, 3, -4, 0, 4, 0];

const A_KEY_CLAUSES: &[i64] = &[
    2, 0, 3, 4, 0, -4, 1, 0, -3, -1, 0, -5, -3, 0, 5, 3, 0, -2, -5, 6, 0, -2, 5, -6, 0, 6, 0,
];

const ONE_SLOT_TWICE_CLAUSES: &[i64] = &[2, 0, 3, 0, -2, -3, 4, 0, -2, 3, -4, 0, 4, 0];

const TWO_SLOTS_CLAUSES: &[i64] = &[
    2, 0, 3, 4, 0, -4, 1, 0, -3, -1, 0, -2, -3, -5, 0, -2, -4, 5, 0, 5, 0,
];

const ALWAYS_CLAUSES: &[i64] = &[
    2, 3, 0, -3, 1, 0, -2, -1, 0, 4, 0, -2, -4, 5, 0, -2, 4, -5, 0, -3, -5, 0, -5, 0,
];

const CONNECTIVES_CLAUSES: &[i64] = &[
    -2, 1, 0, -1, 2, 0, 3, 2, 0, -3, -2, 0, 4, 0, -5, 0, -6, 4, 0, -6, 5, 0, 6, -4, -5, 0, 7, -3,
    0, 7, -6, 0, -7, 3, 6, 0, 7, 0,
];

// A name that is made and taken away, and a size that grows to 2 and is cut to 1, which alone suits. A list with one
// variable more isn't the formula.
#[test]
fn slots_and_sizes(rt: HostRuntime) -> Result<(), Fail> {
    let alloc = rt.alloc();
    assert!(rt; row(alloc, TAKEN_AWAY, 8, TAKEN_AWAY_CLAUSES)?);
    assert!(rt; !row(alloc, TAKEN_AWAY, 9, TAKEN_AWAY_CLAUSES)?);
    assert!(rt; row(alloc, CUT, 9, CUT_CLAUSES)?);
    Ok(())
}

// Two segments, of which the write has the first alone; one segment of four bytes, which is three, of one, one and two
// bytes, once a second call writes a byte in its middle; a key that no call uses; a key that is 7 at the start and 5 by the
// event.
#[test]
fn segments_and_attributes(rt: HostRuntime) -> Result<(), Fail> {
    let alloc = rt.alloc();
    assert!(rt; row(alloc, TWO_SEGMENTS, 8, TWO_SEGMENTS_CLAUSES)?);
    assert!(rt; row(alloc, ONE_SEGMENT, 7, ONE_SEGMENT_CLAUSES)?);
    assert!(rt; row(alloc, THREE_SEGMENTS, 14, THREE_SEGMENTS_CLAUSES)?);
    assert!(rt; row(alloc, NO_KEY, 4, NO_KEY_CLAUSES)?);
    assert!(rt; row(alloc, A_KEY, 6, A_KEY_CLAUSES)?);
    Ok(())
}

// One slot twice is asked as whether it holds a file, two slots by each pair of choices. `always:` asks for a crash after
// which the predicate is false. Connectives stand behind their operands.
#[test]
fn paths_and_questions(rt: HostRuntime) -> Result<(), Fail> {
    let alloc = rt.alloc();
    assert!(rt; row(alloc, ONE_SLOT_TWICE, 4, ONE_SLOT_TWICE_CLAUSES)?);
    assert!(rt; row(alloc, TWO_SLOTS, 5, TWO_SLOTS_CLAUSES)?);
    assert!(rt; row(alloc, ALWAYS, 5, ALWAYS_CLAUSES)?);
    assert!(rt; row(alloc, CONNECTIVES, 7, CONNECTIVES_CLAUSES)?);
    Ok(())
}
