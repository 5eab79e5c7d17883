use fer_list::Seq;
use litmus_syntax::Text;

/// What an event is.
#[derive(Clone, Copy, Debug, PartialEq, Eq)]
pub enum Kind {
    /// Bytes that end within the file's size in program order.
    Write,
    /// Bytes that set the size to their end.
    Extend,
    /// A new size.
    Trunc,
    /// A new value of an attribute.
    Attr,
    /// A name that comes to hold a file.
    Link,
    /// A name that comes to hold nothing.
    Unlink,
    Fsync,
    FsyncDir,
    Sync,
    /// An output that somebody saw.
    Mark,
}

/// What an event does to the state when it reaches the disk. Places and sizes are in bytes.
#[derive(Debug, Drop)]
pub enum Effect {
    /// The bytes stand at their place; the size stays.
    Bytes { at: u32, text: Text },
    /// The bytes stand at their place, and the size becomes `size`, whatever it was.
    Grow { at: u32, text: Text, size: u32 },
    /// The size becomes `size`, and every byte from there on zero.
    Cut { size: u32 },
    /// The file's attribute has the value.
    SetAttr { key: u32, value: u32 },
    /// The event's slot holds the event's file.
    PutName,
    /// The event's slot holds nothing.
    ClearName,
    /// The word was seen.
    See { word: u32 },
    Nothing,
}

/// One step that reaches the disk. Files, directories and slots are numbered from 0, calls and transactions from 1.
#[derive(Debug, Drop)]
pub struct Event {
    pub kind: Kind,
    pub file: Option<u32>,
    /// The place in the file divided by the block size.
    pub block: Option<u32>,
    pub dir: Option<u32>,
    /// The directory's entry whose name the event changes.
    pub slot: Option<u32>,
    /// The call of the body that makes the event.
    pub call: u32,
    /// Of one transaction all events reach the disk before the crash, or none.
    pub txn: u32,
    pub effect: Effect,
}

/// An order of all events, numbered from 1, and how many of them reached the disk before the crash.
#[derive(Debug, Drop)]
pub struct Crash {
    pub order: Seq<u32>,
    pub cut: u32,
}
