//! What the models that come with Ferrite mean. The file of each is read as relations of events that are written out here,
//! line by line, and under each of them a `sync` divides the program: all before it reaches the disk before it, and all
//! behind it after it. The crate is laws over the files of `model_library`, the grammar of `model_reader` and the meaning
//! of `event_relations`, and has no code of its own.
#![tactic(auto)]

mod laws;

pub use laws::{shipped_models_are_read, shipped_models_keep_syncs};
