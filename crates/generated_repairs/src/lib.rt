//! A `sync` behind each call repairs every test that is made of a seed: under a model that keeps what stands around a
//! `sync`, no crash in which a mark was seen lacks the file that was made before it. The crate is one law, for all seeds; its proof
//! goes through the run of such a test call by call. It stands on the tests of `model_library`, on the events of calls and
//! on the sites of syncs, and on no code of theirs.
#![tactic(auto)]

mod laws;

pub use laws::syncs_repair_generated_tests;
