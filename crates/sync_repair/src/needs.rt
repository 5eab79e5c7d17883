//! What is kept, and why.

ghost use Rattle.std.specs.Prelude.{◌≡◌, ◌<◌, Bool, List, length, replicate, false, All, IfOk};
ghost use Rattle.call_events.specs.Resolved.{HasEvents};
ghost use Rattle.sync_parts.specs.Sites.{sites_present};
ghost use Rattle.sync_repair.specs.Repairs.{crash_raised, IsNeedAt, AreNeeds};
ghost use Rattle.sync_repair.specs.Marks.{with_things, things_of, AreNeedsOf};

use crate::case::Case;
use crate::pairs::events_with;
use fer_events::{Crash, Events};
use fer_list::Seq;
use litmus_syntax::Site;
use report::NeedLine;
use std::alloc::{AllocError, Global};
use sync_parts::{event_of_site, present_sites};
use sync_shrink::Need;

/// The set of the needs' things, among so many.
pub(crate) fn kept_set(alloc: Global, count: usize, needs: &[Need]) -> Result<Seq<bool>, AllocError>
    requires within { All (λ need. need.thing < count) needs.now }
    ensures { IfOk result (λ set. set ≡ with_things (things_of needs.now) (replicate count false)) }
{
    let mut set = vec![in alloc; false; count]?;
    for place in 0..needs.len() {
        set[needs[place].thing as usize] = true;
    }
    Ok(Seq::from_vec(set))
}

/// A copy of the crash in the numbers of a test with one event more, which has this number there.
fn raised(alloc: Global, crash: &Crash, event: u32) -> Result<Crash, AllocError>
    requires fits { All (λ x. x < 4294967295) crash.now.order }
    ensures { IfOk result (λ more. more ≡ crash_raised event crash.now) }
{
    let cut = crash.cut;
    let numbers = crash.order.as_slice();
    let mut order = Seq::new(alloc);
    for place in 0..numbers.len() {
        let number = numbers[place];
        let more = if event <= number { number + 1 } else { number };
        order.push(more)?;
    }
    Ok(Crash { order, cut })
}

/// The line of the need at this place. `kept` are the sites of the set, and `events` those of the test with them.
fn need_line(
    alloc: Global,
    case: &Case<'_>,
    kept: &[Site],
    events: &Events,
    needs: &[Need],
    place: usize,
) -> Result<NeedLine, AllocError>
    requires kept { (set : List Bool) × (kept.now ≡ sites_present case.now.sites set) × AreNeedsOf case.now set needs.now }
    requires resolved { HasEvents case.now.litmus kept.now events.now }
    requires there { place < length needs.now }
    ensures { IfOk result (IsNeedAt case.now.litmus case.now.model kept.now place) }
{
    case.keeps_rules();
    case.events().keeps_rules();
    let event = event_of_site(events, kept, place);
    let need = &needs[place];
    let crash = raised(alloc, &need.crash, event)?;
    Ok(NeedLine { event, crash })
}

/// The lines of the needs. `kept` are the sites of the set, and `events` those of the test with them.
fn lines_of(
    alloc: Global,
    case: &Case<'_>,
    kept: &[Site],
    events: &Events,
    needs: &[Need],
) -> Result<Seq<NeedLine>, AllocError>
    requires kept { (set : List Bool) × (kept.now ≡ sites_present case.now.sites set) × AreNeedsOf case.now set needs.now }
    requires resolved { HasEvents case.now.litmus kept.now events.now }
    ensures { IfOk result (AreNeeds case.now.litmus case.now.model kept.now) }
{
    let mut lines = Seq::new(alloc);
    for place in 0..needs.len() {
        let line = need_line(alloc, case, kept, events, needs, place)?;
        lines.push(line)?;
    }
    Ok(lines)
}

/// The lines of the needs, which are those of the set.
pub(crate) fn need_lines(
    alloc: Global,
    case: &Case<'_>,
    set: &[bool],
    needs: &[Need],
) -> Result<Seq<NeedLine>, AllocError>
    requires { AreNeedsOf case.now set.now needs.now }
    ensures { IfOk result (AreNeeds case.now.litmus case.now.model (sites_present case.now.sites set.now)) }
{
    case.keeps_rules();
    let kept = present_sites(alloc, case.sites(), set)?;
    let events = events_with(alloc, case.litmus(), kept.as_slice())?;
    let lines = lines_of(alloc, case, kept.as_slice(), &events, needs)?;
    Ok(lines)
}
