//! What Ferrite reaches outside of itself: files by their names, and a place to write to. A fault is
//! answered only where the object's own count of faults rose in that call, and where a library tells what
//! it holds, a file is missing or too long exactly where that says so. So no answer of Ferrite can be
//! blamed on a fault that never was. Beside the files of the system and standard output, of whose bytes no
//! contract can speak, there are libraries and sinks in memory, whose every answer is determined.
//! It stands on `fer_list` for its lists.
#![tactic(auto)]

mod calls;
mod disk;
mod library;
mod mem_library;
mod mem_sink;
mod shelf;
mod sink;
mod stdout;
mod sure_library;
mod sure_sink;

pub use disk::DiskLibrary;
pub use library::{FetchError, KeepError, Library};
pub use mem_library::MemLibrary;
pub use mem_sink::MemSink;
pub use sink::{Failed, Sink};
pub use stdout::StdSink;
pub use sure_library::SureLibrary;
pub use sure_sink::SureSink;

#[cfg(test)]
mod tests;
