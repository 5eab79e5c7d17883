use fer_list::Seq;

/// Bytes: a name, a word, or what is written to a file.
pub type Text = Seq<u8>;

/// The components of a path from the root on. The root itself has none.
pub type Path = Seq<Text>;

/// A file call of the setup or of the body. Offsets and sizes are in bytes.
#[derive(Debug, Drop)]
pub enum Call {
    /// Makes a directory.
    Mkdir { path: Path },
    /// Makes an empty file.
    Create { path: Path },
    /// Writes the text at an offset.
    Write { path: Path, at: u32, text: Text },
    /// Writes the text at the end.
    Append { path: Path, text: Text },
    /// Sets the size.
    Truncate { path: Path, size: u32 },
    /// Gives the file of the first path a second name.
    Link { from: Path, to: Path },
    /// Takes a name away.
    Unlink { path: Path },
    /// Moves a name.
    Rename { from: Path, to: Path },
    /// Gives an attribute of a file a value.
    Attr { path: Path, key: Text, value: u32 },
    /// Waits until a file's data are on the disk.
    Fsync { path: Path },
    /// Waits until a directory's names are on the disk.
    FsyncDir { path: Path },
    /// Waits until everything is on the disk.
    Sync,
    /// An output that somebody saw, as a reply over the network.
    Mark { word: Text },
    /// Begins a transaction: what its calls change reaches the disk whole or not at all.
    Begin,
    /// Commits the transaction that is open.
    Commit,
}

/// A call with the line that it stands in, counted from 1.
#[derive(Debug, Drop)]
pub struct Step {
    pub line: u32,
    pub call: Call,
}
