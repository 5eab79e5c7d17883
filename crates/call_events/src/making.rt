ghost use Rattle.std.specs.Prelude.{◌≡◌, ◌≤◌, ◌<◌, ◌+◌, ◌-◌, ◌%◌, ◌∷◌, [], length, min, take, unwrap_or, IfOk};
ghost use Rattle.fer_events.specs.declared.event.Kind.TheVariants as kind;
ghost use Rattle.fer_events.specs.declared.event.Effect.TheVariants.{PutName, SetAttr, See};
ghost use Rattle.fer_events.specs.Truth.{text_number};
ghost use Rattle.call_events.specs.Found.{dir_number, file_of, size_of};
ghost use Rattle.call_events.specs.Changes.{are_one};
ghost use Rattle.call_events.specs.CallEvents.{piece_event, next_stamp, text_events, file_event, name_event, dir_event, bare_event, rename_events, events_of};
ghost use Rattle.call_events.specs.Small.{IsSmall, CanTake, IsCutting};

use crate::files::Files;
use crate::finding::number_in;
use fer_events::{Effect, Event, Kind, MOST_EVENTS_BUT_SYNCS};
use fer_list::Seq;
use litmus_syntax::{Call, Path, Text};
use std::alloc::{AllocError, Global};

/// The sizes of blocks and of sectors, in bytes. Writes are cut at the multiples of both.
#[derive(Clone, Copy, Debug)]
pub struct Sizes {
    pub block: u32,
    pub sector: u32,
}

/// The call and the first transaction of new events, counted from 1.
#[derive(Clone, Copy, Debug)]
pub struct Stamp {
    pub call: u32,
    pub txn: u32,
    /// Whether all events of the call are of this transaction, and not each of the next.
    pub shared: bool,
}

/// An event of a file's data.
fn file_event(stamp: Stamp, kind: Kind, file: Option<u32>, effect: Effect) -> Event
    ensures { result ≡ file_event stamp kind file effect }
{
    Event {
        kind,
        file,
        block: None,
        dir: None,
        slot: None,
        call: stamp.call,
        txn: stamp.txn,
        effect,
    }
}

/// An event of a directory.
fn dir_event(stamp: Stamp, dir: Option<u32>) -> Event
    ensures { result ≡ dir_event stamp dir }
{
    Event {
        kind: Kind::FsyncDir,
        file: None,
        block: None,
        dir,
        slot: None,
        call: stamp.call,
        txn: stamp.txn,
        effect: Effect::Nothing,
    }
}

/// An event of no file and no name.
fn bare_event(stamp: Stamp, kind: Kind, effect: Effect) -> Event
    ensures { result ≡ bare_event stamp kind effect }
{
    Event {
        kind,
        file: None,
        block: None,
        dir: None,
        slot: None,
        call: stamp.call,
        txn: stamp.txn,
        effect,
    }
}

/// An event of a name.
fn name_event(
    files: &Files,
    stamp: Stamp,
    kind: Kind,
    file: Option<u32>,
    path: &Path,
    effect: Effect,
) -> Event
    requires { IsSmall files.now }
    ensures { result ≡ name_event files.now stamp kind file path.now effect }
{
    let dir = match files.entry_of(path) {
        None => None,
        Some((dir, _)) => Some(dir),
    };
    Event {
        kind,
        file,
        block: None,
        dir,
        slot: files.slot_of(path),
        call: stamp.call,
        txn: stamp.txn,
        effect,
    }
}

/// Whether both paths name one file.
pub fn are_one(files: &Files, from: &Path, to: &Path) -> bool
    requires { IsSmall files.now }
    ensures { result ≡ are_one files.now from.now to.now }
{
    match (files.file_of(from), files.file_of(to)) {
        (Some(first), Some(second)) => first == second,
        _ => false,
    }
}

impl Stamp {
    /// The stamp of the next event of a call.
    fn next(self) -> Stamp
        requires { self.txn ≤ 200 }
        ensures { result ≡ next_stamp self }
    {
        if self.shared {
            return self;
        }
        Stamp {
            txn: self.txn + 1,
            ..self
        }
    }
}

/// How many bytes of a text that is written at a place stand before the next block and the next sector.
fn first_len(sizes: Sizes, at: u32, len: usize) -> usize
    requires { IsCutting sizes }
    ensures { result ≡ min len (min (sizes.block - at % sizes.block) (sizes.sector - at % sizes.sector)) }
{
    let to_block = sizes.block - at % sizes.block;
    let to_sector = sizes.sector - at % sizes.sector;
    len.min(to_block.min(to_sector) as usize)
}

/// The event of a piece of a text.
fn piece_event(
    alloc: Global,
    sizes: Sizes,
    stamp: Stamp,
    file: Option<u32>,
    size: u32,
    at: u32,
    text: &[u8],
) -> Result<Event, AllocError>
    requires cuts { IsCutting sizes }
    requires room { at + length text.now ≤ 65536 }
    ensures { IfOk result (λ e. e ≡ piece_event sizes stamp file size (record { at = at; text = text.now })) }
{
    let end = at + text.len() as u32;
    let text = Seq::from_slice(alloc, text)?;
    let fits = end <= size;
    Ok(Event {
        kind: if fits { Kind::Write } else { Kind::Extend },
        file,
        block: Some(at / sizes.block),
        dir: None,
        slot: None,
        call: stamp.call,
        txn: stamp.txn,
        effect: if fits {
            Effect::Bytes { at, text }
        } else {
            Effect::Grow {
                at,
                text,
                size: end,
            }
        },
    })
}

/// The first events of a text that is written at a place: all, or as many as no body may make.
fn text_events(
    alloc: Global,
    sizes: Sizes,
    stamp: Stamp,
    file: Option<u32>,
    size: u32,
    at: u32,
    text: &[u8],
) -> Result<Seq<Event>, AllocError>
    requires cuts { IsCutting sizes }
    requires room { at + length text.now ≤ 65536 }
    requires txns { stamp.txn ≤ 129 }
    ensures { IfOk result (λ events. events ≡ take 65 (text_events sizes stamp file size at text.now)) }
{
    let mut events = Seq::new(alloc);
    let mut stamp = stamp;
    let mut at = at;
    let mut rest = text;
    // One event more than there may be is enough: the call is refused for it.
    for _place in 0..MOST_EVENTS_BUT_SYNCS + 1 {
        if rest.is_empty() {
            return Ok(events);
        }
        let (piece, behind) = rest.split_at(first_len(sizes, at, rest.len()));
        let event = piece_event(alloc, sizes, stamp, file, size, at, piece)?;
        events.push(event)?;
        stamp = stamp.next();
        at += piece.len() as u32;
        rest = behind;
    }
    Ok(events)
}

/// One event alone.
fn alone(alloc: Global, event: Event) -> Result<Seq<Event>, AllocError>
    ensures { IfOk result (λ events. events ≡ event ∷ []) }
{
    let mut events = Seq::new(alloc);
    events.push(event)?;
    Ok(events)
}

/// The events of a rename: none where both names are names of one file, else a link and an unlink in one transaction.
fn rename_events(
    alloc: Global,
    stamp: Stamp,
    files: &Files,
    from: &Path,
    to: &Path,
) -> Result<Seq<Event>, AllocError>
    requires { IsSmall files.now }
    ensures { IfOk result (λ events. events ≡ rename_events files.now stamp from.now to.now) }
{
    let mut events = Seq::new(alloc);
    if are_one(files, from, to) {
        return Ok(events);
    }
    let file = files.file_of(from);
    events.push(name_event(files, stamp, Kind::Link, file, to, Effect::PutName))?;
    events.push(name_event(files, stamp, Kind::Unlink, file, from, Effect::ClearName))?;
    Ok(events)
}

/// The first events of a text that is written to a file, at its end where no place is given.
fn write_events(
    alloc: Global,
    sizes: Sizes,
    stamp: Stamp,
    files: &Files,
    path: &Path,
    at: Option<u32>,
    text: &Text,
) -> Result<Seq<Event>, AllocError>
    requires small { IsSmall files.now }
    requires cuts { IsCutting sizes }
    requires room { unwrap_or at (size_of files.now (file_of files.now path.now)) + length text.now ≤ 65536 }
    requires txns { stamp.txn ≤ 129 }
    ensures { IfOk result (λ events. events ≡ take 65 (text_events sizes stamp (file_of files.now path.now) (size_of files.now (file_of files.now path.now)) (unwrap_or at (size_of files.now (file_of files.now path.now))) text.now)) }
{
    let file = files.file_of(path);
    let size = files.content_of(file).len() as u32;
    let at = at.unwrap_or(size);
    let events = text_events(alloc, sizes, stamp, file, size, at, text.as_slice())?;
    Ok(events)
}

/// The link of a new name to the newest file.
fn create_event(files: &Files, stamp: Stamp, path: &Path) -> Event
    requires small { IsSmall files.now }
    requires some { 0 < length files.now.contents }
    ensures { result ≡ name_event files.now stamp kind.Link (Some (length files.now.contents - 1)) path.now PutName }
{
    let newest = Some(files.contents.len() as u32 - 1);
    name_event(files, stamp, Kind::Link, newest, path, Effect::PutName)
}

/// The event of a value that a file's key gets.
fn attr_event(files: &Files, stamp: Stamp, path: &Path, key: &Text, value: u32) -> Event
    requires { IsSmall files.now }
    ensures { result ≡ file_event stamp kind.Attr (file_of files.now path.now) (SetAttr (unwrap_or (text_number files.now.keys key.now) 0) value) }
{
    let key = number_in(&files.keys, key).unwrap_or(0);
    let set = Effect::SetAttr { key, value };
    file_event(stamp, Kind::Attr, files.file_of(path), set)
}

/// The event of a word that is seen.
fn mark_event(files: &Files, stamp: Stamp, word: &Text) -> Event
    requires { IsSmall files.now }
    ensures { result ≡ bare_event stamp kind.Mark (See (unwrap_or (text_number files.now.words word.now) 0)) }
{
    let word = number_in(&files.words, word).unwrap_or(0);
    bare_event(stamp, Kind::Mark, Effect::See { word })
}

/// The first events of a call, the names that it uses having their numbers: all, or as many as no body may make.
pub fn events_of(
    alloc: Global,
    sizes: Sizes,
    stamp: Stamp,
    files: &Files,
    call: &Call,
) -> Result<Seq<Event>, AllocError>
    requires small { IsSmall files.now }
    requires cuts { IsCutting sizes }
    requires room { CanTake files.now call.now }
    requires txns { stamp.txn ≤ 129 }
    ensures { IfOk result (λ events. events ≡ take 65 (events_of sizes stamp files.now call.now)) }
{
    let event = match call {
        Call::Mkdir { .. } | Call::Begin | Call::Commit => return Ok(Seq::new(alloc)),
        Call::Create { path } => create_event(files, stamp, path),
        Call::Write { path, at, text } => {
            return write_events(alloc, sizes, stamp, files, path, Some(*at), text);
        }
        Call::Append { path, text } => {
            return write_events(alloc, sizes, stamp, files, path, None, text);
        }
        Call::Truncate { path, size } => {
            let cut = Effect::Cut { size: *size };
            file_event(stamp, Kind::Trunc, files.file_of(path), cut)
        }
        Call::Link { from, to } => {
            let file = files.file_of(from);
            name_event(files, stamp, Kind::Link, file, to, Effect::PutName)
        }
        Call::Unlink { path } => {
            let file = files.file_of(path);
            name_event(files, stamp, Kind::Unlink, file, path, Effect::ClearName)
        }
        Call::Rename { from, to } => return rename_events(alloc, stamp, files, from, to),
        Call::Attr { path, key, value } => attr_event(files, stamp, path, key, *value),
        Call::Fsync { path } => {
            file_event(stamp, Kind::Fsync, files.file_of(path), Effect::Nothing)
        }
        Call::FsyncDir { path } => dir_event(stamp, files.dir_number(path.as_slice())),
        Call::Sync => bare_event(stamp, Kind::Sync, Effect::Nothing),
        Call::Mark { word } => mark_event(files, stamp, word),
    };
    alone(alloc, event)
}
