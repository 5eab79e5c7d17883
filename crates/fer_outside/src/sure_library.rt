ghost use Rattle.std.specs.Prelude.{◌≡◌, Some, OnOk, OnErr};
ghost use Rattle.fer_outside.specs.Held.{nothing_held, with_held};

use crate::library::{FetchError, KeepError, Library};
use crate::shelf::Shelf;
use std::alloc::{AllocError, Global};
use std::marker::Model;

/// A library in memory of which no call fails.
#[derive(Debug, Drop)]
pub struct SureLibrary {
    shelf: Shelf,
}

impl Model for SureLibrary {
    ghost use Rattle.fer_outside.specs.Held.{Held, held_code};

    ghost Value = { Held };

    ghost coded = { held_code };

    ghost view = { λ l. l.shelf };
}

impl SureLibrary {
    /// A library that holds nothing. It takes no memory.
    pub fn new(alloc: Global) -> SureLibrary
        ensures { result ≡ nothing_held }
    {
        SureLibrary {
            shelf: Shelf::new(alloc),
        }
    }

    /// Makes the name hold exactly these bytes. Where memory is refused, nothing changes.
    pub fn put(&mut self, name: &str, bytes: &[u8]) -> Result<(), AllocError>
        ensures ok { OnOk result (self.new ≡ with_held self.old name.now bytes.now) }
        ensures err { OnErr result (self.new ≡ self.old) }
    {
        self.shelf.put(name, bytes)?;
        Ok(())
    }
}

impl Library for SureLibrary {
    ghost held = { λ l. Some l };

    // No call with any name ever fails, so the count is always 0.
    ghost faults = { λ l name. 0 };

    fn fetch(&mut self, alloc: Global, name: &str, limit: usize) -> Result<Vec<u8>, FetchError> {
        self.shelf.fetch(alloc, name, limit)
    }

    fn keep(&mut self, _alloc: Global, name: &str, bytes: &[u8]) -> Result<(), KeepError> {
        self.shelf.keep(name, bytes)
    }
}
