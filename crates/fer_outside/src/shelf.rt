ghost use Rattle.std.specs.Prelude.{◌≡◌, ◌≤◌, Some, None, IfOk, IsErrOf, OnOk, OnErr, option_map, length};
ghost use Rattle.fer_outside.specs.Held.{HoldsMore, held_under, nothing_held, with_held};

use crate::library::{FetchError, KeepError};
use fer_list::Seq;
use std::alloc::{AllocError, Global};
use std::collections::VecDeque;
use std::marker::Model;

/// Bytes under names, in memory. Of two entries of one name the first counts, which is the newer one.
#[derive(Debug, Drop)]
pub struct Shelf {
    alloc: Global,
    entries: VecDeque<(Seq<u8>, Seq<u8>)>,
}

impl Model for Shelf {
    ghost use Rattle.std.specs.FinMap.{from_entries};
    ghost use Rattle.fer_outside.specs.Held.{Held, held_code};

    ghost Value = { Held };

    ghost coded = { held_code };

    ghost view = { λ s. from_entries s.entries.items };
}

impl Shelf {
    /// Nothing under any name. It takes no memory.
    pub fn new(alloc: Global) -> Shelf
        ensures { result ≡ nothing_held }
    {
        Shelf {
            alloc,
            entries: VecDeque::new(alloc),
        }
    }

    /// Makes the name hold exactly these bytes. Where memory is refused, nothing changes.
    pub fn put(&mut self, name: &str, bytes: &[u8]) -> Result<(), AllocError>
        ensures ok { OnOk result (self.new ≡ with_held self.old name.now bytes.now) }
        ensures err { OnErr result (self.new ≡ self.old) }
    {
        let name = Seq::from_slice(self.alloc, name.as_bytes())?;
        let bytes = Seq::from_slice(self.alloc, bytes)?;
        self.entries.push_front((name, bytes))?;
        Ok(())
    }

    /// The same as `put`, as a library answers it.
    pub fn keep(&mut self, name: &str, bytes: &[u8]) -> Result<(), KeepError>
        ensures ok { OnOk result (self.new ≡ with_held self.old name.now bytes.now) }
        ensures err { OnErr result (self.new ≡ self.old) }
        ensures never_failed { ¬ IsErrOf result KeepError.Failed }
    {
        match self.put(name, bytes) {
            Ok(()) => Ok(()),
            Err(_) => Err(KeepError::OutOfMemory),
        }
    }

    /// What is held under the name.
    #[tactic(auto, using(crate::proofs::Finds::find_here, crate::proofs::Finds::find_next))]
    pub fn find(&self, name: &str) -> Option<&[u8]>
        ensures { option_map (λ bytes. bytes.now) result ≡ held_under self.now name.now }
    {
        for (key, bytes) in &self.entries {
            if name.as_bytes() == key.as_slice() {
                return Some(bytes.as_slice());
            }
        }
        None
    }

    /// A copy of what is held under the name, if it has at most `limit` bytes.
    pub fn fetch(&self, alloc: Global, name: &str, limit: usize) -> Result<Vec<u8>, FetchError>
        ensures bytes { IfOk result (λ v. held_under self.now name.now ≡ Some v.items) }
        ensures within { IfOk result (λ v. length v.items ≤ limit) }
        ensures missing { IsErrOf result FetchError.Missing → held_under self.now name.now ≡ None }
        ensures too_long { IsErrOf result FetchError.TooLong → HoldsMore self.now name.now limit }
        ensures never_failed { ¬ IsErrOf result FetchError.Failed }
    {
        match self.find(name) {
            None => Err(FetchError::Missing),
            Some(bytes) => {
                if bytes.len() > limit {
                    return Err(FetchError::TooLong);
                }
                match Vec::from_slice(alloc, bytes) {
                    Ok(copy) => Ok(copy),
                    Err(_) => Err(FetchError::OutOfMemory),
                }
            }
        }
    }
}
