ghost use Rattle.std.specs.Prelude.{◌≡◌, ◌<◌, ◌≤◌, ◌^◌, Bool, is_some, length, option_map, IfSome};
ghost use Rattle.std.specs.Option.{ForSome};
ghost use Rattle.fer_events.specs.Truth.{text_number};
ghost use Rattle.fer_events.specs.Paths.{directory_number, entry_number};
ghost use Rattle.call_events.specs.Found.{dir_number, is_dir, entry_of, slot_of, file_of, content_of};
ghost use Rattle.call_events.specs.Small.{IsSmall};

use crate::files::Files;
use fer_events::parent_and_name;
use litmus_syntax::{Path, Text};
use name_tables::{Numbered, SlotTable};

/// A place of a table as a number.
fn number_of(place: Option<usize>) -> Option<u32>
    requires { ForSome place (λ p. p < 2 ^ 32) }
    ensures { result ≡ place }
{
    match place {
        None => None,
        Some(place) => Some(place as u32),
    }
}

/// The place of a text in a table.
fn text_place(table: &Numbered<u8>, text: &Text) -> Option<usize>
    ensures place { result ≡ text_number table.now text.now }
    ensures within { IfSome result (λ p. p < length table.now) }
{
    table.number_of(text.as_slice())
}

/// The number of a text in a table.
pub fn number_in(table: &Numbered<u8>, text: &Text) -> Option<u32>
    requires { length table.now < 2 ^ 32 }
    ensures { result ≡ text_number table.now text.now }
{
    number_of(text_place(table, text))
}

/// Whether a text stands in a table.
pub fn is_in(table: &Numbered<u8>, text: &Text) -> bool
    ensures { result ≡ is_some (text_number table.now text.now) }
{
    text_place(table, text).is_some()
}

/// The place of a directory's path.
fn dir_place(dirs: &Numbered<Text>, path: &[Text]) -> Option<usize>
    ensures place { result ≡ directory_number dirs.now path.now }
    ensures within { IfSome result (λ p. p < length dirs.now) }
{
    dirs.number_of(path)
}

/// The place of a name in a directory.
pub fn slot_place(slots: &SlotTable, dir: u32, name: &Text) -> Option<usize>
    ensures place { result ≡ entry_number slots.now (record { dir = dir; name = name.now }) }
    ensures within { IfSome result (λ p. p < length slots.now) }
{
    slots.number_of(dir, name.as_slice())
}

impl Files {
    /// The number of the directory that has the path.
    pub fn dir_number(&self, path: &[Text]) -> Option<u32>
        requires { length self.now.dirs ≤ 16 }
        ensures { result ≡ dir_number self.now path.now }
    {
        number_of(dir_place(&self.dirs, path))
    }

    /// Whether the path is a directory.
    pub fn is_dir(&self, path: &[Text]) -> bool
        ensures { result ≡ is_dir self.now path.now }
    {
        dir_place(&self.dirs, path).is_some()
    }

    /// The directory and the name that a path is, if its parent is a directory.
    pub fn entry_of<'a>(&self, path: &'a Path) -> Option<(u32, &'a Text)>
        requires { length self.now.dirs ≤ 16 }
        ensures { option_map (λ p. record { dir = p.0; name = p.1.now }) result ≡ entry_of self.now path.now }
    {
        let (parent, name) = parent_and_name(path.as_slice())?;
        let dir = self.dir_number(parent)?;
        Some((dir, name))
    }

    /// The slot of a path.
    pub fn slot_of(&self, path: &Path) -> Option<u32>
        requires { IsSmall self.now }
        ensures { result ≡ slot_of self.now path.now }
    {
        let (dir, name) = self.entry_of(path)?;
        number_of(slot_place(&self.slots, dir, name))
    }

    /// The file that a path names.
    pub fn file_of(&self, path: &Path) -> Option<u32>
        requires { IsSmall self.now }
        ensures { result ≡ file_of self.now path.now }
    {
        let slot = self.slot_of(path)?;
        match self.held.as_slice().get(slot as usize) {
            None => None,
            Some(held) => *held,
        }
    }

    /// The content of a file.
    pub fn content_of(&self, file: Option<u32>) -> &[u8]
        ensures { result.now ≡ content_of self.now file }
    {
        let Some(file) = file else {
            return &[];
        };
        match self.contents.as_slice().get(file as usize) {
            None => &[],
            Some(content) => content.as_slice(),
        }
    }
}
