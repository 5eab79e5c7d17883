ghost use Rattle.std.specs.Prelude.{◌≡◌, ◌≤◌, ◌<◌, ◌+◌, ◌-◌, ◌++◌, ◌∷◌, [], length, replicate, IfSome, OnOk};
ghost use Rattle.fer_events.specs.States.{at_place, written};
ghost use Rattle.call_events.specs.Changes.{resized, overwritten};

use std::alloc::{AllocError, Global};
use std::marker::Model;

/// The content of a file, as long as the file is.
#[derive(Drop)]
pub struct Content {
    bytes: Vec<u8>,
}

impl Model for Content {
    ghost use Rattle.std.specs.Prelude.{ℕ, List};

    ghost Value = { List ℕ };

    ghost view = { λ c. c.bytes.items };
}

impl Content {
    /// The bytes.
    pub fn as_slice(&self) -> &[u8]
        ensures { result.now ≡ self.now }
    {
        self.bytes.as_slice()
    }

    /// Gives the file a size; new bytes are zero.
    fn resize(&mut self, size: usize) -> Result<(), AllocError>
        ensures { OnOk result (self.new ≡ resized size self.old) }
    {
        self.bytes.resize(size, 0)?;
        Ok(())
    }

    /// Writes the text at a place, behind zeros where the content ends before it.
    fn overwrite(&mut self, at: usize, text: &[u8]) -> Result<(), AllocError>
        requires { at + length text.now ≤ 65536 }
        ensures { OnOk result (self.new ≡ overwritten at text.now self.old) }
    {
        if text.is_empty() {
            return Ok(());
        }
        let end = at + text.len();
        reach(&mut self.bytes, end)?;
        write_over(self.bytes.as_mut_slice(), at, text);
        Ok(())
    }
}

/// Makes the bytes at least so many; new ones are zero.
fn reach(bytes: &mut Vec<u8>, len: usize) -> Result<(), AllocError>
    ensures { OnOk result (bytes.new.items ≡ bytes.old.items ++ replicate (len - length bytes.old.items) 0) }
{
    if bytes.len() < len {
        bytes.resize(len, 0)?;
    }
    Ok(())
}

/// Writes the text at a place of the bytes.
fn write_over(bytes: &mut [u8], at: usize, text: &[u8])
    requires { at + length text.now ≤ length bytes.old }
    ensures { bytes.new ≡ written at text.now bytes.old }
{
    bytes[at..at + text.len()].copy_from_slice(text);
}

/// The content of each file, by the file's number.
#[derive(Drop)]
pub struct Contents {
    files: Vec<Content>,
}

impl Model for Contents {
    ghost use Rattle.std.specs.Prelude.{ℕ, List};

    ghost Value = { List (List ℕ) };

    ghost view = { λ c. c.files.items };
}

impl Contents {
    /// No files. It takes no memory.
    pub fn new(alloc: Global) -> Contents
        ensures { result ≡ [] }
    {
        Contents {
            files: Vec::new(alloc),
        }
    }

    /// The contents, in the order of the files' numbers.
    pub fn as_slice(&self) -> &[Content]
        ensures { result.now ≡ self.now }
    {
        self.files.as_slice()
    }

    /// How many files there are.
    pub fn len(&self) -> usize
        ensures { result ≡ length self.now }
    {
        self.files.len()
    }

    /// Adds an empty file.
    pub fn add(&mut self, alloc: Global) -> Result<(), AllocError>
        ensures { OnOk result (self.new ≡ self.old ++ [] ∷ []) }
    {
        let bytes = Vec::new(alloc);
        self.files.push(Content { bytes })?;
        Ok(())
    }

    /// Gives the file a size.
    pub fn resize(&mut self, file: Option<u32>, size: usize) -> Result<(), AllocError>
        requires { IfSome file (λ f. f < length self.old) }
        ensures { OnOk result (self.new ≡ at_place file (resized size) self.old) }
    {
        if let Some(file) = file {
            self.files[file as usize].resize(size)?;
        }
        Ok(())
    }

    /// Writes the text at a place of the file.
    pub fn overwrite(&mut self, file: Option<u32>, at: usize, text: &[u8]) -> Result<(), AllocError>
        requires there { IfSome file (λ f. f < length self.old) }
        requires room { at + length text.now ≤ 65536 }
        ensures { OnOk result (self.new ≡ at_place file (overwritten at text.now) self.old) }
    {
        if let Some(file) = file {
            self.files[file as usize].overwrite(at, text)?;
        }
        Ok(())
    }
}
