//! What becomes of a litmus test where only some of its sites have their syncs. Adding syncs only removes crashes, and one
//! question about the events with all sites answers for every set of sites: `places` says which events stay, `leave_out`
//! takes the others out of a crash, and `carry` takes a crash with some sites to one with fewer. `event_of_site` finds the
//! event of a site. The laws are stated over all tests, models and crashes. It stands on the events of calls and on the
//! meaning of models.
#![tactic(auto)]

mod crashes;
mod laws;
mod sites;

pub use crashes::{carry, leave_out};
pub use laws::{
    a_site_has_its_event, fewer_sites_leave_syncs_out, fewer_syncs_reach_more,
    kept_lists_say_the_same, one_list_answers_for_all_sites, places_are_those_of_events,
};
pub use sites::{event_of_site, places, present_sites};
