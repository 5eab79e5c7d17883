ghost use Rattle.std.specs.Prelude.{◌≡◌, ℕ, List, ◌+◌, ◌<◌, ◌≤◌, None, OnOk, IfOk, IfSome, IsErrOf, length};
ghost use Rattle.std.specs.Io.KnownBytes.{Consumes};
ghost use Rattle.fer_outside.specs.Causes.{one_more};

use crate::library::{FetchError, KeepError, Library};
use std::alloc::Global;
use std::fs;
use std::io::{ErrorKind, Read};
use std::marker::Model;
use std::rt::Files;

/// The files of the system, by their paths. Contracts know nothing of what is in them, and see a
/// `DiskLibrary` as its count of faults, which serves for all names.
#[derive(Drop)]
pub struct DiskLibrary<'a, R: Files> {
    rt: &'a R,
    faults: u64,
}

impl<'a, R: Files> Model for DiskLibrary<'a, R> {
    ghost use Rattle.std.specs.Prelude.{ℕ};

    ghost Value = { ℕ };

    ghost view = { λ l. l.faults };
}

impl<'a, R: Files> DiskLibrary<'a, R> {
    /// The files that `rt` reaches, with no fault so far. It takes no memory.
    pub fn new(rt: &'a R) -> DiskLibrary<'a, R>
        ensures { result ≡ 0 }
    {
        DiskLibrary { rt, faults: 0 }
    }

    /// Counts one fault more.
    fn count_fault(&mut self)
        ensures counted { self.new ≡ one_more self.old }
        ensures rises { self.old ≤ self.new }
    {
        self.faults = self.faults.saturating_add(1);
    }
}

impl<R: Files> Library for DiskLibrary<'_, R> {
    ghost held = { λ l. None };

    ghost faults = { λ l name. l };

    /// A file that isn't there is a fault that is answered as `Missing`. One that is there and can't be
    /// read, as a directory, is a fault that is answered as `Failed`.
    fn fetch(&mut self, alloc: Global, name: &str, limit: usize) -> Result<Vec<u8>, FetchError>
        ensures within { IfOk result (λ v. length v.items ≤ limit) }
        ensures missing { IsErrOf result FetchError.Missing → self.new ≡ one_more self.old }
        ensures failed { IsErrOf result FetchError.Failed → self.new ≡ one_more self.old }
        ensures never_falls { self.old ≤ self.new }
        ensures ok { OnOk result (self.new ≡ self.old) }
        ensures too_long { IsErrOf result FetchError.TooLong → self.new ≡ self.old }
        ensures out_of_memory { IsErrOf result FetchError.OutOfMemory → self.new ≡ self.old }
    {
        let fetched = read_file(self.rt, alloc, name, limit);
        if let Err(FetchError::Missing | FetchError::Failed) = &fetched {
            self.count_fault();
        }
        fetched
    }

    /// Makes the file if there is none. Every refusal of the system is a fault.
    fn keep(&mut self, _alloc: Global, name: &str, bytes: &[u8]) -> Result<(), KeepError>
        ensures ok { OnOk result (self.new ≡ self.old) }
        ensures cause { IsErrOf result KeepError.Failed → self.new ≡ one_more self.old }
        ensures sufficed { ¬ IsErrOf result KeepError.OutOfMemory }
        ensures rises { self.old ≤ self.new }
    {
        if fs::write(self.rt, name, bytes).is_err() {
            self.count_fault();
            return Err(KeepError::Failed);
        }
        Ok(())
    }
}

/// The bytes of the file at `path`, if it has at most `limit` of them.
fn read_file<R: Files>(
    rt: &R,
    alloc: Global,
    path: &str,
    limit: usize,
) -> Result<Vec<u8>, FetchError>
    ensures within { IfOk result (λ v. length v.items ≤ limit) }
{
    match fs::open(rt, path) {
        Ok(mut file) => read_within(&mut file, alloc, limit),
        Err(error) if error.kind() == ErrorKind::NotFound => Err(FetchError::Missing),
        Err(_) => Err(FetchError::Failed),
    }
}

/// The bytes that `file` has left, if there are at most `limit` of them. It reads at most `limit` + 1 bytes.
fn read_within<F: Read>(file: &mut F, alloc: Global, limit: usize) -> Result<Vec<u8>, FetchError>
    ensures bytes { IfOk result (λ v. IfSome (F.remaining file.old) (λ bytes. bytes ≡ v.items)) }
    ensures within { IfOk result (λ v. length v.items ≤ limit) }
    ensures too_long { IsErrOf result FetchError.TooLong →
        IfSome (F.remaining file.old) (λ bytes. limit < length bytes) }
    ensures never_missing { ¬ IsErrOf result FetchError.Missing }
    ensures stops { (read : List ℕ) × (length read ≤ limit + 1) ×
        Consumes (F.remaining file.old) (F.remaining file.new) read }
{
    let mut bytes = Vec::new(alloc);
    let mut buffer = [0u8; 4096];
    while bytes.len() <= limit {
        // One byte beyond the limit tells that there are too many.
        let wanted = (limit - bytes.len()).min(buffer.len() - 1) + 1;
        let count = match file.read(&mut buffer[..wanted]) {
            Ok(count) => count,
            Err(_) => return Err(FetchError::Failed),
        };
        if count == 0 {
            return Ok(bytes);
        }
        if bytes.extend_from_slice(&buffer[..count]).is_err() {
            return Err(FetchError::OutOfMemory);
        }
    }
    Err(FetchError::TooLong)
}
