//! The tests that a seed makes are tests that Ferrite answers: no call of such a test is refused and neither is its
//! question, each call is one event, and behind each call stands one site for a `sync`. The crate is one law over the
//! definitions of these tests, of events and of sites; its proof follows the files from call to call. It stands on the
//! definitions of `model_library`, `call_events` and `sync_sites`, and on no code of theirs.
#![tactic(auto)]

mod laws;

pub use laws::generated_tests_are_accepted;
