/// The most calls of a setup.
pub const MOST_SETUP_CALLS: usize = 256;

/// The most calls of a body that aren't syncs.
pub const MOST_BODY_CALLS: usize = 128;

/// The block of a test that names none, in bytes.
pub const USUAL_BLOCK: u32 = 4096;

/// The largest block, in bytes.
pub const MOST_BLOCK: u32 = 65_536;

/// The most bytes that a file of a test holds.
pub const MOST_FILE_BYTES: usize = 65_536;

/// The most bytes that the texts of a question stand for together.
pub const MOST_TEXT_BYTES: usize = 4096;

/// The most words of a question that atoms begin with, or are, and its most words `not`.
pub const MOST_WORDS: usize = 256;

/// The most parentheses that are open at one place of a question.
pub const MOST_PARENTHESES: usize = 64;
