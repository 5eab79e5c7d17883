ghost use Rattle.std.specs.Prelude.{◌≡◌, ◌≤◌, ◌+◌, ◌<◌, ◌^◌, length};
ghost use Rattle.fer_events.specs.Paths.{split_last};
ghost use Rattle.call_events.specs.Found.{file_of, size_of};
ghost use Rattle.call_events.specs.Refusals.{kind_if, first_of, no_file, lacks_parent, no_parent, no_dir, taken, taken_by_dir, too_long, dirs_full, files_full, names_full, keys_full, refusal, is_sync, too_many};
ghost use Rattle.call_events.specs.Small.{IsSmall};

use crate::call_kind::CallKind;
use crate::files::Files;
use crate::finding::is_in;
use fer_events::{
    Event, Kind, MOST_DIRECTORIES, MOST_EVENTS, MOST_EVENTS_BUT_SYNCS, MOST_FILES, MOST_KEYS,
    MOST_NAMES, parent_and_name,
};
use litmus_syntax::{Call, MOST_FILE_BYTES, Path, Text};

/// The kind where the test holds.
pub fn cause(test: bool, kind: CallKind) -> Option<CallKind>
    ensures { result ≡ kind_if test kind }
{
    if test { Some(kind) } else { None }
}

/// The path names no file.
fn no_file(files: &Files, path: &Path) -> Option<CallKind>
    requires { IsSmall files.now }
    ensures { result ≡ no_file files.now path.now }
{
    cause(files.file_of(path).is_none(), CallKind::NoSuchFile)
}

/// Whether a path has a parent that isn't a directory.
fn lacks_parent(files: &Files, path: &Path) -> bool
    ensures { result ≡ lacks_parent files.now (split_last path.now) }
{
    match parent_and_name(path.as_slice()) {
        None => false,
        Some((parent, _)) => !files.is_dir(parent),
    }
}

/// The parent of a new name isn't a directory.
fn no_parent(files: &Files, path: &Path) -> Option<CallKind>
    ensures { result ≡ no_parent files.now path.now }
{
    cause(lacks_parent(files, path), CallKind::NoDirectory)
}

/// The path isn't a directory.
fn no_dir(files: &Files, path: &Path) -> Option<CallKind>
    ensures { result ≡ no_dir files.now path.now }
{
    cause(!files.is_dir(path.as_slice()), CallKind::NoDirectory)
}

/// A new name is a file or a directory.
fn taken(files: &Files, path: &Path) -> Option<CallKind>
    requires { IsSmall files.now }
    ensures { result ≡ taken files.now path.now }
{
    let is_taken = files.file_of(path).is_some() || files.is_dir(path.as_slice());
    cause(is_taken, CallKind::NameTaken)
}

/// The name that a rename gives is a directory.
fn taken_by_dir(files: &Files, path: &Path) -> Option<CallKind>
    ensures { result ≡ taken_by_dir files.now path.now }
{
    cause(files.is_dir(path.as_slice()), CallKind::NameTaken)
}

/// A file would have this many bytes.
fn too_long(end: usize) -> Option<CallKind>
    ensures { result ≡ too_long end }
{
    cause(MOST_FILE_BYTES < end, CallKind::FileTooLong)
}

/// A text behind this many bytes would make a file too long.
fn too_long_behind(at: usize, text: &Text) -> Option<CallKind>
    requires { at < 2 ^ 32 }
    ensures { result ≡ too_long (at + length text.now) }
{
    let test = MOST_FILE_BYTES < at || MOST_FILE_BYTES - at < text.len();
    cause(test, CallKind::FileTooLong)
}

/// There is no room for another directory.
fn dirs_full(files: &Files) -> Option<CallKind>
    ensures { result ≡ dirs_full files.now }
{
    cause(MOST_DIRECTORIES <= files.dirs.len(), CallKind::TooMany)
}

/// There is no room for another file.
fn files_full(files: &Files) -> Option<CallKind>
    ensures { result ≡ files_full files.now }
{
    cause(MOST_FILES <= files.contents.len(), CallKind::TooMany)
}

/// The path is a new name, and there is no room for it.
fn names_full(files: &Files, path: &Path) -> Option<CallKind>
    requires { IsSmall files.now }
    ensures { result ≡ names_full files.now path.now }
{
    let test = files.slot_of(path).is_none() && MOST_NAMES <= files.slots.len();
    cause(test, CallKind::TooMany)
}

/// The key is new, and there is no room for it.
fn keys_full(files: &Files, key: &Text) -> Option<CallKind>
    ensures { result ≡ keys_full files.now key.now }
{
    let test = !is_in(&files.keys, key) && MOST_KEYS <= files.keys.len();
    cause(test, CallKind::TooMany)
}

/// The first kind of a row.
fn first_of(causes: &[Option<CallKind>]) -> Option<CallKind>
    ensures { result ≡ first_of causes.now }
{
    for cause in causes {
        if let Some(kind) = cause {
            return Some(*kind);
        }
    }
    None
}

/// Why a call is refused for what it finds among the files, if it is: the first cause in the order of its row.
pub fn refusal(files: &Files, call: &Call) -> Option<CallKind>
    requires { IsSmall files.now }
    ensures { result ≡ refusal files.now call.now }
{
    match call {
        Call::Mkdir { path } => {
            first_of(&[no_parent(files, path), taken(files, path), dirs_full(files)])
        }
        Call::Create { path } => first_of(&[
            no_parent(files, path),
            taken(files, path),
            files_full(files),
            names_full(files, path),
        ]),
        Call::Write { path, at, text } => {
            first_of(&[no_file(files, path), too_long_behind(*at as usize, text)])
        }
        Call::Append { path, text } => {
            let size = files.content_of(files.file_of(path)).len();
            first_of(&[no_file(files, path), too_long_behind(size, text)])
        }
        Call::Truncate { path, size } => {
            first_of(&[no_file(files, path), too_long(*size as usize)])
        }
        Call::Link { from, to } => first_of(&[
            no_file(files, from),
            no_parent(files, to),
            taken(files, to),
            names_full(files, to),
        ]),
        Call::Unlink { path } | Call::Fsync { path } => no_file(files, path),
        Call::Rename { from, to } => first_of(&[
            no_file(files, from),
            no_parent(files, to),
            taken_by_dir(files, to),
            names_full(files, to),
        ]),
        Call::Attr { path, key, .. } => first_of(&[no_file(files, path), keys_full(files, key)]),
        Call::FsyncDir { path } => no_dir(files, path),
        Call::Sync | Call::Mark { .. } | Call::Begin | Call::Commit => None,
    }
}

/// Whether the event is a sync.
fn is_sync(event: &Event) -> bool
    ensures { result ≡ is_sync event.now.kind }
{
    matches!(event.kind, Kind::Fsync | Kind::FsyncDir | Kind::Sync)
}

/// Whether events pass a limit: 64 that aren't syncs, 128 in all.
pub fn too_many(events: &[Event]) -> bool
    ensures { result ≡ too_many events.now }
{
    let others = events.iter().filter(|event| !is_sync(event)).count();
    MOST_EVENTS_BUT_SYNCS < others || MOST_EVENTS < events.len()
}
