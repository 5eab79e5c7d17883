ghost use Rattle.std.specs.Prelude.{◌≡◌, ◌<◌, ◌++◌, ◌∷◌, [], length, Some, slice_get, is_some, if◌then◌else◌, OnOk, OnErr, IfSome};
ghost use Rattle.fer_events.specs.Paths.{entry_number};

use crate::numbered::Numbered;
use indexmap::IndexSet;
use std::alloc::{AllocError, Global};
use std::marker::Model;

/// Names in directories, numbered from 0 by first use. A name stands once among the names, whatever directories it is
/// used in, so that a look-up needs no copy of it.
#[derive(Drop)]
pub struct SlotTable {
    names: Numbered<u8>,
    /// The directory of each slot, and the number of its name.
    slots: IndexSet<(u32, usize)>,
}

impl Model for SlotTable {
    ghost use Rattle.std.specs.Prelude.{List, map, All};
    ghost use Rattle.fer_events.specs.declared.tables.SlotName.{SlotName};
    ghost use Rattle.name_tables.specs.Parts.{slot_named, IsOwn};

    ghost Value = { List SlotName };

    ghost view = { λ t. map (slot_named t.names) t.slots.keys };

    ghost invariant = { λ t. All (λ slot. IsOwn t.names slot.1) t.slots.keys };
}

impl SlotTable {
    /// No slots. It takes no memory.
    pub fn new(alloc: Global) -> SlotTable
        ensures { result ≡ [] }
    {
        SlotTable {
            names: Numbered::new(alloc),
            slots: IndexSet::new(alloc),
        }
    }

    /// How many slots there are.
    pub fn len(&self) -> usize
        ensures { result ≡ length self.now }
    {
        self.slots.len()
    }

    /// The number of a name in a directory; None exactly where it has none.
    pub fn number_of(&self, dir: u32, name: &[u8]) -> Option<usize>
        ensures number { result ≡ entry_number self.now (record { dir = dir; name = name.now }) }
        ensures within { IfSome result (λ n. n < length self.now) }
    {
        let name = self.names.number_of(name)?;
        self.slots.get_index_of(&(dir, name))
    }

    /// The directory and the name of the slot of this number.
    pub fn slot(&self, number: usize) -> (u32, &[u8])
        requires { number < length self.now }
        ensures { slice_get self.now number ≡ Some (record { dir = result.0; name = result.1.now }) }
    {
        let (dir, name) = self.slots.as_slice()[number];
        (dir, self.names.entry(name))
    }

    /// Gives a name in a directory the next number, if it has none yet.
    pub fn note(&mut self, alloc: Global, dir: u32, name: &[u8]) -> Result<(), AllocError>
        ensures ok { OnOk result (self.new ≡ if is_some (entry_number self.old (record { dir = dir; name = name.now })) then self.old else self.old ++ record { dir = dir; name = name.now } ∷ []) }
        ensures err { OnErr result (self.new ≡ self.old) }
    {
        let copy = Vec::from_slice(alloc, name)?;
        self.names.note(copy)?;
        let Some(number) = self.names.number_of(name) else {
            return Ok(());
        };
        self.slots.insert((dir, number))?;
        Ok(())
    }
}
