//! The repair of a test by syncs: which of its sites need theirs so that no crash answers the question. `repair` walks over the
//! sites and asks one series of questions about the events with all of them; it answers with the walk's needs, each with a
//! crash of the test without that one sync, and with what was learned, as the part of a log for the kept sites; or with a crash
//! where all syncs together don't suffice, or with what was learned where a question met the limit. `kept_with` says which
//! pairs of all events are kept where only some sites are present, for whoever judges such a log. It stands on `sync_shrink`,
//! `sync_parts` and `question_series`.
#![tactic(auto)]

mod asking;
mod case;
mod findings;
mod laws;
mod needs;
mod pairs;
mod repairing;

pub use findings::Findings;
pub use laws::kept_pairs_say_what_is_reached;
pub use pairs::{events_with, kept_with};
pub use repairing::{RepairAnswer, repair};
