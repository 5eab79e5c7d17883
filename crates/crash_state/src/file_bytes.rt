ghost use Rattle.std.specs.Prelude.{◌≡◌, ◌+◌, ◌≤◌, length, take, vec_len, IfOk};
ghost use Rattle.fer_events.specs.States.{padded, written, cleared};

use litmus_syntax::MOST_FILE_BYTES;
use std::alloc::{AllocError, Global};
use std::marker::Model;

/// All bytes of a file, whatever its size. Places and sizes are in bytes.
#[derive(Debug, Drop)]
pub struct FileBytes {
    bytes: Vec<u8>,
}

impl Model for FileBytes {
    ghost use Rattle.std.specs.Prelude.{◌≡◌, ℕ, List, vec_len};

    ghost Value = { List ℕ };

    ghost view = { λ f. f.bytes.items };

    ghost invariant = { λ f. vec_len f.bytes ≡ 65536 };
}

impl FileBytes {
    /// Room for the bytes of a file, which `fill` has yet to set.
    pub fn unset(alloc: Global) -> Result<FileBytes, AllocError>
        ensures { IfOk result (λ f. length f ≡ 65536) }
    {
        let bytes = zeros(alloc, MOST_FILE_BYTES)?;
        Ok(FileBytes { bytes })
    }

    /// The bytes before the size.
    pub fn first(&self, size: u32) -> &[u8]
        requires { size ≤ 65536 }
        ensures first { result.now ≡ take size self.now }
        ensures len { length result.now ≡ size }
    {
        &self.bytes[..size as usize]
    }

    /// Writes the text at a place.
    pub fn write(&mut self, at: u32, text: &[u8])
        requires { at + length text.now ≤ 65536 }
        ensures { self.new ≡ written at text.now self.old }
    {
        write_text(self.bytes.as_mut_slice(), at as usize, text);
    }

    /// Makes every byte from the size on zero.
    pub fn clear_from(&mut self, size: u32)
        requires { size ≤ 65536 }
        ensures { self.new ≡ cleared size self.old }
    {
        clear_from(self.bytes.as_mut_slice(), size as usize);
    }

    /// Makes the bytes those of a file with this content.
    pub fn fill(&mut self, content: &[u8])
        requires { length content.now ≤ 65536 }
        ensures { self.new ≡ padded content.now }
    {
        fill(self.bytes.as_mut_slice(), content);
    }
}

/// As many bytes as `len` says.
fn zeros(alloc: Global, len: usize) -> Result<Vec<u8>, AllocError>
    ensures { IfOk result (λ v. vec_len v ≡ len) }
{
    vec![in alloc; 0; len]
}

/// Writes the text at a place of the bytes.
fn write_text(bytes: &mut [u8], at: usize, text: &[u8])
    requires { at + length text.now ≤ length bytes.old }
    ensures { bytes.new ≡ written at text.now bytes.old }
{
    bytes[at..at + text.len()].copy_from_slice(text);
}

/// Makes every byte from the size on zero.
fn clear_from(bytes: &mut [u8], size: usize)
    requires { size ≤ length bytes.old }
    ensures { bytes.new ≡ cleared size bytes.old }
{
    bytes[size..].fill(0);
}

/// Makes the bytes those of a file with this content.
fn fill(bytes: &mut [u8], content: &[u8])
    requires room { length bytes.old ≡ 65536 }
    requires fits { length content.now ≤ 65536 }
    ensures { bytes.new ≡ padded content.now }
{
    write_text(bytes, 0, content);
    clear_from(bytes, content.len());
}
