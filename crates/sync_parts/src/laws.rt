//! Laws of tests with some of their sites. Each function does nothing: its contract is the law.

ghost use Rattle.std.specs.Prelude.{◌≡◌, ◌↔◌, ℕ, ◌<◌, ◌≤◌, Bool, List, Some, length, slice_get, All, AllPairs, Contains};
ghost use Rattle.litmus_syntax.specs.Test.{Test};
ghost use Rattle.litmus_syntax.specs.declared.site.Site.{Site};
ghost use Rattle.litmus_syntax.specs.Sites.{AreSyncs, StandOutside};
ghost use Rattle.fer_events.specs.declared.event.Crash.{Crash};
ghost use Rattle.fer_events.specs.Orders.{AreForward};
ghost use Rattle.fer_events.specs.Pairs.{PairList};
ghost use Rattle.fer_events.specs.Lifting.{AreLifted};
ghost use Rattle.fer_events.specs.Tables.{Trace};
ghost use Rattle.fer_events.specs.Witness.{IsWitness};
ghost use Rattle.call_events.specs.Resolved.{HasEvents};
ghost use Rattle.model_reader.specs.declared.model.Model.{Model};
ghost use Rattle.event_relations.specs.Kept.{IsKept};
ghost use Rattle.sync_parts.specs.Parts.{crash_without};
ghost use Rattle.sync_parts.specs.Sites.{AreSome, IsPartOf, sites_present, places_present, AreInOrder, IsSiteEvent};
ghost use Rattle.sync_parts.specs.Reaching.{Reaches, IsReachable};

/// Adding syncs only removes crashes: what is reachable with more syncs is reachable with fewer.
pub fn fewer_syncs_reach_more()
    ensures some { (litmus : Test) (model : Model) (few many : List Site) (crash : Crash)
        → AreSyncs many → StandOutside litmus.body many → AreSome few many
        → Reaches litmus model many crash → IsReachable litmus model few }
    ensures masks { (litmus : Test) (model : Model) (sites : List Site) (x y : List Bool)
        → AreSyncs sites → StandOutside litmus.body sites → IsPartOf y x
        → IsReachable litmus model (sites_present sites x) → IsReachable litmus model (sites_present sites y) }
{}

/// A question about some sites is one about the events with all of them, where the pairs that are kept are those of some,
/// at the places of their events.
pub fn one_list_answers_for_all_sites()
    ensures forth { (litmus : Test) (model : Model) (sites : List Site) (present : List Bool) (t u : Trace) (kept large : PairList) (crash : Crash)
        → AreSyncs sites → StandOutside litmus.body sites → HasEvents litmus sites t → HasEvents litmus (sites_present sites present) u
        → ((a b : ℕ) → Contains kept.pairs (a, b) ↔ IsKept model u.events a b)
        → AreLifted (places_present litmus.body sites present t.events) (length t.events) kept large
        → IsWitness t large.pairs litmus.pred litmus.want crash
        → Reaches litmus model (sites_present sites present) (crash_without (places_present litmus.body sites present t.events) crash) }
    ensures back { (litmus : Test) (model : Model) (sites : List Site) (present : List Bool) (t u : Trace) (kept large : PairList) (less : Crash)
        → AreSyncs sites → StandOutside litmus.body sites → HasEvents litmus sites t → HasEvents litmus (sites_present sites present) u
        → ((a b : ℕ) → Contains kept.pairs (a, b) ↔ IsKept model u.events a b)
        → AreLifted (places_present litmus.body sites present t.events) (length t.events) kept large
        → Reaches litmus model (sites_present sites present) less
        → (crash : Crash) × IsWitness t large.pairs litmus.pred litmus.want crash }
    ensures forward { (litmus : Test) (model : Model) (sites : List Site) (present : List Bool) (t u : Trace) (kept large : PairList)
        → AreSyncs sites → StandOutside litmus.body sites → HasEvents litmus sites t → HasEvents litmus (sites_present sites present) u
        → ((a b : ℕ) → Contains kept.pairs (a, b) ↔ IsKept model u.events a b)
        → AreLifted (places_present litmus.body sites present t.events) (length t.events) kept large
        → AreForward (length u.events) kept.pairs → AreForward (length t.events) large.pairs }
{}

/// The places of the events where some sites are present are as many as these events, ascend, and are numbers of events
/// with all sites.
pub fn places_are_those_of_events()
    ensures count { (litmus : Test) (sites : List Site) (present : List Bool) (t u : Trace)
        → AreSyncs sites → StandOutside litmus.body sites → HasEvents litmus sites t → HasEvents litmus (sites_present sites present) u
        → length (places_present litmus.body sites present t.events) ≡ length u.events }
    ensures within { (litmus : Test) (sites : List Site) (present : List Bool) (t : Trace)
        → AreSyncs sites → StandOutside litmus.body sites → HasEvents litmus sites t
        → All (λ place. (1 ≤ place) × (place ≤ length t.events)) (places_present litmus.body sites present t.events) }
    ensures ascending { (litmus : Test) (sites : List Site) (present : List Bool) (t : Trace)
        → AreSyncs sites → StandOutside litmus.body sites → HasEvents litmus sites t
        → AllPairs (λ x y. x < y) (places_present litmus.body sites present t.events) }
{}

/// A crash answers under the list of all pairs that a model keeps exactly where it is reached.
pub fn kept_lists_say_the_same()
    ensures { (litmus : Test) (model : Model) (sites : List Site) (t : Trace) (kept : PairList) (crash : Crash)
        → HasEvents litmus sites t → ((a b : ℕ) → Contains kept.pairs (a, b) ↔ IsKept model t.events a b)
        → IsWitness t kept.pairs litmus.pred litmus.want crash ↔ Reaches litmus model sites crash }
{}

/// A test with some of the sites isn't refused where the test with all of them isn't, and has as many events as there are
/// places.
pub fn fewer_sites_leave_syncs_out()
    ensures { (litmus : Test) (sites : List Site) (present : List Bool) (t : Trace)
        → AreSyncs sites → StandOutside litmus.body sites → HasEvents litmus sites t
        → (u : Trace) × HasEvents litmus (sites_present sites present) u × (length u.events ≡ length (places_present litmus.body sites present t.events)) }
{}

/// Each of the sites, which stand in the order of the body's calls, has exactly one event.
pub fn a_site_has_its_event()
    ensures there { (litmus : Test) (sites : List Site) (t : Trace) (i : ℕ) (site : Site)
        → AreSyncs sites → AreInOrder litmus.body sites → HasEvents litmus sites t → slice_get sites i ≡ Some site
        → (s : ℕ) × IsSiteEvent t.events sites i s }
    ensures only { (litmus : Test) (sites : List Site) (t : Trace) (i s r : ℕ)
        → AreSyncs sites → AreInOrder litmus.body sites → HasEvents litmus sites t
        → IsSiteEvent t.events sites i s → IsSiteEvent t.events sites i r → s ≡ r }
{}
