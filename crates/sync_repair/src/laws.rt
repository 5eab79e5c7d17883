//! Laws of kept pairs. Each function does nothing: its contract is the law.

ghost use Rattle.std.specs.Prelude.{◌≡◌, ◌↔◌, Bool, List, length};
ghost use Rattle.litmus_syntax.specs.Test.{Test};
ghost use Rattle.litmus_syntax.specs.declared.site.Site.{Site};
ghost use Rattle.litmus_syntax.specs.Sites.{AreSyncs, StandOutside};
ghost use Rattle.fer_events.specs.declared.event.Crash.{Crash};
ghost use Rattle.fer_events.specs.Orders.{AreForward};
ghost use Rattle.fer_events.specs.Pairs.{PairList};
ghost use Rattle.fer_events.specs.Tables.{Trace};
ghost use Rattle.fer_events.specs.Witness.{IsWitness};
ghost use Rattle.call_events.specs.Resolved.{HasEvents};
ghost use Rattle.model_reader.specs.declared.model.Model.{Model};
ghost use Rattle.sync_parts.specs.Sites.{sites_present};
ghost use Rattle.sync_parts.specs.Reaching.{IsReachable};
ghost use Rattle.sync_repair.specs.Sets.{AreKeptWith};

/// The pairs that are kept with some of the sites say what is reached with them: a crash of all events answers the question
/// under these pairs exactly where one of the test with these sites answers it. They are one list, and forward.
pub fn kept_pairs_say_what_is_reached()
    ensures reached { (litmus : Test) (model : Model) (sites : List Site) (set : List Bool) (all : Trace) (pairs : PairList)
        → AreSyncs sites → StandOutside litmus.body sites → HasEvents litmus sites all → AreKeptWith litmus model sites set all pairs
        → ((crash : Crash) × IsWitness all pairs.pairs litmus.pred litmus.want crash) ↔ IsReachable litmus model (sites_present sites set) }
    ensures forward { (litmus : Test) (model : Model) (sites : List Site) (set : List Bool) (all : Trace) (pairs : PairList)
        → AreSyncs sites → StandOutside litmus.body sites → HasEvents litmus sites all → AreKeptWith litmus model sites set all pairs
        → AreForward (length all.events) pairs.pairs }
    ensures one_list { (litmus : Test) (model : Model) (sites : List Site) (set : List Bool) (all : Trace) (p q : PairList)
        → AreKeptWith litmus model sites set all p → AreKeptWith litmus model sites set all q → p ≡ q }
{}
