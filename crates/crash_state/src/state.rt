ghost use Rattle.std.specs.Prelude.{◌≡◌, ◌↔◌, length, vec_len, All, IsTrue, IfOk};
ghost use Rattle.fer_events.specs.States.{start_state};
ghost use Rattle.crash_state.specs.Fits.{Fits};

mod atoms;
mod effects;
mod starting;

use crate::file_bytes::FileBytes;
use fer_events::Events;
use fer_list::Seq;
use std::alloc::{AllocError, Global};
use std::marker::Model;

/// The state of the disk, and the words that somebody saw. Files, slots, keys and words are numbered as in the events
/// that it was made for. It holds 65,536 bytes for each file, at most some 2 MiB.
#[derive(Debug, Drop)]
pub struct State {
    slots: Vec<Option<u32>>,
    sizes: Vec<u32>,
    bytes: Vec<FileBytes>,
    /// For each key, each file's value.
    attrs: Vec<Seq<Option<u32>>>,
    seen: Vec<bool>,
}

impl Model for State {
    ghost use Rattle.fer_events.specs.States.{State as Disk};
    ghost use Rattle.crash_state.specs.Whole.{IsWhole};

    ghost Value = { Disk };

    ghost view = { λ s. record { slots = s.slots.items; sizes = s.sizes.items; bytes = s.bytes.items; attrs = s.attrs.items; seen = s.seen.items } };

    ghost invariant = { λ s. IsWhole (record { slots = s.slots.items; sizes = s.sizes.items; bytes = s.bytes.items; attrs = s.attrs.items; seen = s.seen.items }) };
}

impl State {
    /// The state after the setup of the events. All the memory that a state ever needs is taken here; an error says
    /// that there was too little.
    pub fn new(alloc: Global, events: &Events) -> Result<State, AllocError>
        ensures start { IfOk result (λ s. s ≡ start_state events.now) }
        ensures fits { IfOk result (λ s. Fits s events.now) }
    {
        let mut state = State::blank(alloc, events)?;
        state.reset(events);
        Ok(state)
    }

    /// A state of the right size for the events, which `reset` has yet to set.
    fn blank(alloc: Global, events: &Events) -> Result<State, AllocError>
        ensures { IfOk result (λ s. Fits s events.now) }
    {
        let files = events.start().contents().len();
        Ok(State {
            slots: vec![in alloc; None; events.slots().len()]?,
            sizes: vec![in alloc; 0; files]?,
            bytes: unset_files(alloc, files)?,
            attrs: unset_values(alloc, events.keys().len(), files)?,
            seen: vec![in alloc; false; events.words().len()]?,
        })
    }

    /// Whether the state has as many files, slots, keys and words as the events.
    pub fn fits(&self, events: &Events) -> bool
        ensures { IsTrue result ↔ Fits self.now events.now }
    {
        let files = events.start().contents().len();
        self.slots.len() == events.slots().len()
            && self.sizes.len() == files
            && self.bytes.len() == files
            && self.attrs.len() == events.keys().len()
            && self.attrs.iter().all(|values| values.len() == files)
            && self.seen.len() == events.words().len()
    }
}

/// Room for the bytes of this many files.
fn unset_files(alloc: Global, files: usize) -> Result<Vec<FileBytes>, AllocError>
    ensures { IfOk result (λ v. vec_len v ≡ files) }
{
    let mut all = Vec::with_capacity(alloc, files)?;
    for _ in 0..files {
        all.push(FileBytes::unset(alloc)?)?;
    }
    Ok(all)
}

/// Room for the values of this many keys of this many files.
fn unset_values(
    alloc: Global,
    keys: usize,
    files: usize,
) -> Result<Vec<Seq<Option<u32>>>, AllocError>
    ensures keys { IfOk result (λ v. vec_len v ≡ keys) }
    ensures files { IfOk result (λ v. All (λ values. length values ≡ files) v.items) }
{
    let mut all = Vec::with_capacity(alloc, keys)?;
    for _ in 0..keys {
        all.push(Seq::from_vec(vec![in alloc; None; files]?))?;
    }
    Ok(all)
}
