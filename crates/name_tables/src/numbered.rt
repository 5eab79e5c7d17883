ghost use Rattle.std.specs.Prelude.{◌≡◌, ◌<◌, ◌++◌, ◌∷◌, [], length, position, Some, is_some, slice_get, if◌then◌else◌, OnOk, OnErr, IfSome};
ghost use Rattle.std.specs.Cmp.Lexicographic.{pointwise};

use indexmap::IndexSet;
use std::alloc::{AllocError, Global};
use std::hash::Hash;
use std::marker::Model;

/// Lists of items, numbered from 0 by first use.
#[derive(Drop)]
pub struct Numbered<T: Eq + Hash> {
    entries: IndexSet<Vec<T>>,
}

impl<T: Eq + Hash> Model for Numbered<T> {
    ghost use Rattle.std.specs.Prelude.{List, map};
    ghost use Rattle.std.specs.Coded.{coded_list};

    ghost Value = { List (List T) };

    ghost coded = { coded_list (Prim.hlevel (coded_list T.code)) };

    ghost view = { λ n. map (λ entry. entry.items) n.entries.keys };
}

impl<T: Eq + Hash> Numbered<T> {
    /// No entries. It takes no memory.
    pub fn new(alloc: Global) -> Numbered<T>
        ensures { result ≡ [] }
    {
        Numbered {
            entries: IndexSet::new(alloc),
        }
    }

    /// How many entries there are.
    pub fn len(&self) -> usize
        ensures { result ≡ length self.now }
    {
        self.entries.len()
    }

    /// The number of an entry; None exactly where it has none.
    pub fn number_of(&self, entry: &[T]) -> Option<usize>
        ensures number { result ≡ position (λ e. pointwise T.eq e entry.now) self.now }
        ensures within { IfSome result (λ n. n < length self.now) }
    {
        self.entries.get_index_of(entry)
    }

    /// The entry of this number.
    pub fn entry(&self, number: usize) -> &[T]
        requires { number < length self.now }
        ensures { slice_get self.now number ≡ Some result.now }
    {
        self.entries.as_slice()[number].as_slice()
    }
}

impl<T: Eq + Hash + Drop> Numbered<T> {
    /// Gives an entry the next number, if it has none yet.
    pub fn note(&mut self, entry: Vec<T>) -> Result<(), AllocError>
        ensures ok { OnOk result (self.new ≡ if is_some (position (λ e. pointwise T.eq e entry.items) self.old) then self.old else self.old ++ entry.items ∷ []) }
        ensures err { OnErr result (self.new ≡ self.old) }
    {
        self.entries.insert(entry)?;
        Ok(())
    }
}
