use fer_list::Seq;

/// A part of the state that a question reads. Places are in bytes.
#[derive(Clone, Copy, Debug, PartialEq, Eq)]
pub enum Cell {
    /// The file that a slot holds.
    SlotOf { slot: u32 },
    /// The size of a file.
    SizeOf { file: u32 },
    /// The value of a file's attribute.
    AttrOf { file: u32, key: u32 },
    /// Bytes of a file that every event writes together.
    Segment { file: u32, at: u32, len: u32 },
}

/// A cell with the events that write it, ascending. The variable `first` says that none of them is in, and the next ones
/// say of each writer that it is the last one that is in.
#[derive(Debug, Drop)]
pub struct CodedCell {
    pub cell: Cell,
    pub first: u32,
    pub writers: Seq<u32>,
}

/// The cells of a question: slots, sizes, attributes by file and key, segments by file and place.
pub type Cells = Seq<CodedCell>;
