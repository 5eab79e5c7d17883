ghost use Rattle.std.specs.Prelude.{◌≡◌, ◌<◌, ◌^◌, [], length, IfSome};
ghost use Rattle.std.specs.Option.{ForSome};
ghost use Rattle.fer_events.specs.Tables.{IsTrace};
ghost use Rattle.fer_events.specs.Truth.{slot_number, text_number};

use crate::event::Event;
use crate::paths::{directory_place, entry_place, parent_and_name};
use fer_list::Seq;
use litmus_syntax::{Path, Text};
use std::marker::Model;

/// The value of an attribute of a file.
#[derive(Clone, Copy, Debug)]
pub struct AttrValue {
    pub file: u32,
    pub key: u32,
    pub value: u32,
}

/// A slot: a name in a directory.
#[derive(Debug, Drop)]
pub struct SlotName {
    pub dir: u32,
    pub name: Text,
}

/// The state after the setup: the file that each slot holds, each file's content, and the attributes that files have.
#[derive(Debug, Drop)]
pub struct Start {
    slots: Seq<Option<u32>>,
    contents: Seq<Text>,
    attrs: Seq<AttrValue>,
}

impl Model for Start {
    ghost use Rattle.fer_events.specs.Tables.{Initial};

    ghost Value = { Initial };

    ghost view = { λ s. record { slots = s.slots; contents = s.contents; attrs = s.attrs } };
}

impl Start {
    /// The state of these parts.
    pub fn new(slots: Seq<Option<u32>>, contents: Seq<Text>, attrs: Seq<AttrValue>) -> Start
        ensures { result ≡ record { slots = slots; contents = contents; attrs = attrs } }
    {
        Start {
            slots,
            contents,
            attrs,
        }
    }

    /// The file that each slot holds.
    pub fn slots(&self) -> &[Option<u32>]
        ensures { result.now ≡ self.now.slots }
    {
        self.slots.as_slice()
    }

    /// Each file's content.
    pub fn contents(&self) -> &[Text]
        ensures { result.now ≡ self.now.contents }
    {
        self.contents.as_slice()
    }

    /// The attributes that files have.
    pub fn attrs(&self) -> &[AttrValue]
        ensures { result.now ≡ self.now.attrs }
    {
        self.attrs.as_slice()
    }
}

/// The events of a file program in program order, the state before them, and what their numbers name. Every number
/// names a thing that is there, names have their forms, nothing is named twice, and calls and transactions never fall.
#[derive(Debug, Drop)]
pub struct Events {
    start: Start,
    events: Seq<Event>,
    dirs: Seq<Path>,
    slots: Seq<SlotName>,
    keys: Seq<Text>,
    words: Seq<Text>,
}

impl Model for Events {
    ghost use Rattle.fer_events.specs.Tables.{Trace, IsTrace};

    ghost Value = { Trace };

    ghost view = { λ e. record { start = e.start; events = e.events; dirs = e.dirs; slots = e.slots; keys = e.keys; words = e.words } };

    ghost invariant = { λ e. IsTrace (record { start = e.start; events = e.events; dirs = e.dirs; slots = e.slots; keys = e.keys; words = e.words }) };
}

impl Events {
    /// The events of these parts.
    pub fn new(
        start: Start,
        events: Seq<Event>,
        dirs: Seq<Path>,
        slots: Seq<SlotName>,
        keys: Seq<Text>,
        words: Seq<Text>,
    ) -> Events
        requires { IsTrace (record { start = start; events = events; dirs = dirs; slots = slots; keys = keys; words = words }) }
        ensures { result ≡ record { start = start; events = events; dirs = dirs; slots = slots; keys = keys; words = words } }
    {
        Events {
            start,
            events,
            dirs,
            slots,
            keys,
            words,
        }
    }

    /// Each value keeps to the rules of a trace: this is known wherever there are events.
    pub fn keeps_rules(&self)
        ensures { IsTrace self.now }
    {
        let _start = &self.start;
    }

    /// The state after the setup.
    pub fn start(&self) -> &Start
        ensures { result.now ≡ self.now.start }
    {
        &self.start
    }

    /// The events, of which there are at most 128.
    pub fn events(&self) -> &[Event]
        ensures { result.now ≡ self.now.events }
    {
        self.events.as_slice()
    }

    /// The path of each directory, the root first.
    pub fn dirs(&self) -> &[Path]
        ensures { result.now ≡ self.now.dirs }
    {
        self.dirs.as_slice()
    }

    /// The directory and the name of each slot.
    pub fn slots(&self) -> &[SlotName]
        ensures { result.now ≡ self.now.slots }
    {
        self.slots.as_slice()
    }

    /// The attribute keys.
    pub fn keys(&self) -> &[Text]
        ensures { result.now ≡ self.now.keys }
    {
        self.keys.as_slice()
    }

    /// The words of marks.
    pub fn words(&self) -> &[Text]
        ensures { result.now ≡ self.now.words }
    {
        self.words.as_slice()
    }

    /// The number of the slot that the path names; None exactly where no slot has that path.
    pub fn slot_of(&self, path: &Path) -> Option<u32>
        ensures { result ≡ slot_number self.now path.now }
    {
        let (parent, name) = parent_and_name(path.as_slice())?;
        let dir = directory_place(self.dirs.as_slice(), parent)?;
        number_of(entry_place(self.slots.as_slice(), dir, name))
    }

    /// The number of the attribute key; None exactly where no key is that text.
    pub fn key_of(&self, key: &[u8]) -> Option<u32>
        ensures { result ≡ text_number self.now.keys key.now }
    {
        number_of(text_place(self.keys.as_slice(), key))
    }

    /// The number of the word; None exactly where no mark has that word.
    pub fn word_of(&self, word: &[u8]) -> Option<u32>
        ensures { result ≡ text_number self.now.words word.now }
    {
        number_of(text_place(self.words.as_slice(), word))
    }
}

/// A place of a table as a number.
fn number_of(place: Option<usize>) -> Option<u32>
    requires { ForSome place (λ p. p < 2 ^ 32) }
    ensures { result ≡ place }
{
    match place {
        None => None,
        Some(place) => Some(place as u32),
    }
}

/// The place of a text in a table.
fn text_place(table: &[Text], text: &[u8]) -> Option<usize>
    ensures place { result ≡ text_number table.now text.now }
    ensures within { IfSome result (λ p. p < length table.now) }
{
    table.iter().position(|entry| entry.as_slice() == text)
}
