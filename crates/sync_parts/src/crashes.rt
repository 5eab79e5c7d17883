ghost use Rattle.std.specs.Prelude.{◌≡◌, ℕ, ◌≤◌, ◌<◌, ◌==◌, not, take, slice_index, count_by, All, AllPairs};
ghost use Rattle.litmus_syntax.specs.Sites.{AreSyncs, StandOutside};
ghost use Rattle.call_events.specs.Resolved.{HasEvents};
ghost use Rattle.model_reader.specs.declared.model.Model.{Model};
ghost use Rattle.sync_parts.specs.Parts.{crash_without};
ghost use Rattle.sync_parts.specs.Sites.{IsPartOf, sites_present};
ghost use Rattle.sync_parts.specs.Reaching.{Reaches};
ghost use Rattle.sync_parts.specs.Without.{new_number, renumbered};

use crate::sites::places_between;
use fer_events::{Crash, Events};
use fer_list::Seq;
use litmus_syntax::{Litmus, Site};

/// For each number of an event its number among those that stay, and 0 for one that is left out.
fn new_numbers(places: &[u32]) -> [u32; 129]
    requires ascending { AllPairs (λ x y. x < y) places.now }
    requires within { All (λ place. (1 ≤ place) × (place ≤ 128)) places.now }
    ensures { (x : ℕ) → slice_index result x ≡ new_number places.now x }
{
    let mut numbers = [0; 129];
    for (place, event) in places.iter().enumerate() {
        numbers[*event as usize] = place as u32 + 1;
    }
    numbers
}

/// The number of an event by the table, 0 where it has none.
fn number_in(numbers: &[u32; 129], event: u32) -> u32
    ensures { result ≡ slice_index numbers.now event }
{
    match numbers.get(event as usize) {
        None => 0,
        Some(number) => *number,
    }
}

/// How many of the events before the cut have a number.
fn count_kept(order: &[u32], cut: u32, numbers: &[u32; 129]) -> u32
    ensures { result ≡ count_by (λ x. not (slice_index numbers.now x == 0)) (take cut order.now) }
{
    let before = order.iter().take(cut as usize);
    before
        .filter(|event| number_in(numbers, **event) != 0)
        .count() as u32
}

/// Leaves the events without a number out of the order, and gives the others theirs.
fn renumber(order: &mut Seq<u32>, numbers: &[u32; 129])
    ensures { order.new ≡ renumbered numbers.now order.old }
{
    let mut kept = 0;
    for place in 0..order.len() {
        let number = number_in(numbers, *order.get(place));
        if number != 0 {
            order.set(kept, number);
            kept += 1;
        }
    }
    order.truncate(kept);
}

/// Leaves events out of a crash: `places` has the numbers of those that stay, ascending, each from 1 to 128. They get new
/// numbers in their order, and of them the same stand before the cut. It takes no memory.
pub fn leave_out(crash: &mut Crash, places: &[u32])
    requires ascending { AllPairs (λ x y. x < y) places.now }
    requires within { All (λ place. (1 ≤ place) × (place ≤ 128)) places.now }
    ensures { crash.new ≡ crash_without places.now crash.old }
{
    let numbers = new_numbers(places);
    let cut = count_kept(crash.order.as_slice(), crash.cut, &numbers);
    renumber(&mut crash.order, &numbers);
    crash.cut = cut;
}

/// Takes a crash with the sites of `from` to one with the sites of `to`, a part of them. `sites` are all sites, `events`
/// those of the test with all of them, and `from` and `to` have a truth value for each site. The crash must be one that
/// some model reaches with the sites of `from`. It takes no memory.
pub fn carry(
    litmus: &Litmus,
    sites: &[Site],
    events: &Events,
    from: &[bool],
    to: &[bool],
    crash: &mut Crash,
)
    requires syncs { AreSyncs sites.now }
    requires outside { StandOutside litmus.now.body sites.now }
    requires events { HasEvents litmus.now sites.now events.now }
    requires part { IsPartOf to.now from.now }
    ensures { (model : Model) → Reaches litmus.now model (sites_present sites.now from.now) crash.old
        → Reaches litmus.now model (sites_present sites.now to.now) crash.new }
{
    events.keeps_rules();
    let mut places = [0; 128];
    let count = places_between(litmus.body(), sites, events, from, to, &mut places);
    leave_out(crash, &places[..count]);
}
