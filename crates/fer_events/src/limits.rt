/// The most events of a file program.
pub const MOST_EVENTS: usize = 128;

/// The most of them that aren't syncs.
pub const MOST_EVENTS_BUT_SYNCS: usize = 64;

/// The most files.
pub const MOST_FILES: usize = 32;

/// The most directories, the root among them.
pub const MOST_DIRECTORIES: usize = 16;

/// The most names in directories, those of which the question speaks among them.
pub const MOST_NAMES: usize = 64;

/// The most keys of attributes.
pub const MOST_KEYS: usize = 16;
