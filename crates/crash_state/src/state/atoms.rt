ghost use Rattle.std.specs.Prelude.{◌≡◌, ◌+◌, ◌<◌, ◌^◌, ◌==◌, ◌&&◌, bytes_eq, drop, length, nat_le, take, unwrap_or, IfSome, false};
ghost use Rattle.fer_events.specs.Truth.{truth, held_file, same_file, on_file, size_of, content_of, has_bytes, has_value, item_at, text_number};
ghost use Rattle.crash_state.specs.Fits.{Fits};

use crate::state::State;
use fer_events::Events;
use litmus_syntax::{Path, Pred, Text};

impl State {
    /// Whether the predicate is true of the state.
    pub fn holds(&self, events: &Events, pred: &Pred) -> bool
        requires { Fits self.now events.now }
        ensures { result ≡ truth events.now self.now pred.now }
    {
        match pred {
            Pred::True => true,
            Pred::False => false,
            Pred::Exists { path } => self.file_at(events, path).is_some(),
            Pred::Same { left, right } => is_one_file(
                self.file_at(events, left),
                self.file_at(events, right),
            ),
            Pred::SizeIs { path, size } => self.size_is(self.file_at(events, path), *size),
            Pred::ContentIs { path, text } => self.content_is(
                self.file_at(events, path),
                text.as_slice(),
            ),
            Pred::BytesAre { path, at, text } => self.bytes_are(
                self.file_at(events, path),
                *at,
                text.as_slice(),
            ),
            Pred::AttrIs { path, key, value } => self.attr_is(events, path, key, *value),
            Pred::Seen { word } => self.was_seen(events.word_of(word.as_slice())),
            Pred::Not { inner } => !self.holds(events, inner.get()),
            Pred::And { left, right } => self.holds(events, left.get())
                && self.holds(events, right.get()),
            Pred::Or { left, right } => self.holds(events, left.get())
                || self.holds(events, right.get()),
        }
    }

    /// The file that the path holds.
    fn file_at(&self, events: &Events, path: &Path) -> Option<u32>
        ensures held { result ≡ held_file events.now self.now path.now }
        ensures there { IfSome result (λ f. f < length self.now.sizes) }
    {
        let slot = events.slot_of(path)?;
        match self.slots.get(slot as usize) {
            None => None,
            Some(held) => *held,
        }
    }

    /// Whether the file has this size.
    fn size_is(&self, file: Option<u32>, size: u32) -> bool
        requires { IfSome file (λ f. f < length self.now.sizes) }
        ensures { result ≡ on_file file (λ f. size_of self.now f == size) }
    {
        match file {
            None => false,
            Some(file) => self.sizes[file as usize] == size,
        }
    }

    /// Whether the file's content is the text.
    fn content_is(&self, file: Option<u32>, text: &[u8]) -> bool
        requires agree { length self.now.sizes ≡ length self.now.bytes }
        requires there { IfSome file (λ f. f < length self.now.sizes) }
        ensures { result ≡ on_file file (λ f. bytes_eq (content_of self.now f) text.now) }
    {
        match file {
            None => false,
            Some(file) => self.content(file) == text,
        }
    }

    /// Whether the file has the text at a place.
    fn bytes_are(&self, file: Option<u32>, at: u32, text: &[u8]) -> bool
        requires agree { length self.now.sizes ≡ length self.now.bytes }
        requires there { IfSome file (λ f. f < length self.now.sizes) }
        ensures { result ≡ on_file file (has_bytes self.now at text.now) }
    {
        match file {
            None => false,
            Some(file) => has_text(self.content(file), at as usize, text),
        }
    }

    /// Whether the path's file has this value of the attribute.
    fn attr_is(&self, events: &Events, path: &Path, key: &Text, value: u32) -> bool
        ensures { result ≡ on_file (held_file events.now self.now path.now) (has_value self.now (text_number events.now.keys key.now) value) }
    {
        self.value_is(
            self.file_at(events, path),
            events.key_of(key.as_slice()),
            value,
        )
    }

    /// Whether the file has this value of the key.
    fn value_is(&self, file: Option<u32>, key: Option<u32>, value: u32) -> bool
        ensures { result ≡ on_file file (has_value self.now key value) }
    {
        let (Some(file), Some(key)) = (file, key) else {
            return false;
        };
        match self.attrs.get(key as usize) {
            None => false,
            Some(values) => values.as_slice().get(file as usize) == Some(&Some(value)),
        }
    }

    /// Whether the word was seen.
    fn was_seen(&self, word: Option<u32>) -> bool
        ensures { result ≡ unwrap_or (item_at self.now.seen word) false }
    {
        match word {
            None => false,
            Some(word) => self.seen.get(word as usize).copied().unwrap_or(false),
        }
    }

    /// The content of the file.
    fn content(&self, file: u32) -> &[u8]
        requires agree { length self.now.sizes ≡ length self.now.bytes }
        requires there { file < length self.now.sizes }
        ensures content { result.now ≡ content_of self.now file }
        ensures size { length result.now ≡ size_of self.now file }
    {
        self.bytes[file as usize].first(self.sizes[file as usize])
    }
}

/// Whether both are one and the same file.
fn is_one_file(left: Option<u32>, right: Option<u32>) -> bool
    ensures { result ≡ same_file left right }
{
    match (left, right) {
        (Some(left), Some(right)) => left == right,
        _ => false,
    }
}

/// Whether the content has the text at a place.
fn has_text(content: &[u8], at: usize, text: &[u8]) -> bool
    requires { at < 2 ^ 32 }
    ensures { result ≡ nat_le (at + length text.now) (length content.now) && bytes_eq (take (length text.now) (drop at content.now)) text.now }
{
    let end = at + text.len();
    if end > content.len() {
        return false;
    }
    &content[at..end] == text
}
