use crate::contents::Contents;
use fer_events::{AttrValue, Event};
use fer_list::Seq;
use litmus_syntax::Text;
use name_tables::{Numbered, SlotTable};

/// What the calls so far left, in program order. Everything is numbered from 0, by first use.
#[derive(Drop)]
pub struct Files {
    /// The path of each directory, the root first.
    pub dirs: Numbered<Text>,
    /// Each name in a directory that was ever the name of a file.
    pub slots: SlotTable,
    /// The file that each slot holds.
    pub held: Seq<Option<u32>>,
    pub contents: Contents,
    /// The values of attributes, one for each file and key that has one.
    pub attrs: Seq<AttrValue>,
    pub keys: Numbered<u8>,
    /// The words that were marked.
    pub words: Numbered<u8>,
}

/// What the calls of a body left so far, and their events.
#[derive(Drop)]
pub struct Progress {
    pub files: Files,
    pub events: Seq<Event>,
    /// The number of the transaction that is open, if one is.
    pub opened: Option<u32>,
}
