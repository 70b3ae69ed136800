// A shelf over the files of the system.
ghost use Rattle.std.specs.Prelude.{◌≡◌, ◌≢◌, ◌-◌, ◌≤◌, ◌^◌, None, Err, length, IfOk, IfSome};
ghost use Rattle.std.specs.IoError.{error_kind};
ghost use Rattle.soar_edge.specs.Files.{faults_after, open_fault, read_fault, HasFetchCause, GivesWhole};

use crate::fault::Fetch;
use crate::shelf::Shelf;
use soar_sym::List;
use std::alloc::Global;
use std::fs::File;
use std::io::{Error, ErrorKind, Read};
use std::marker::Model;
use std::rt::Files;

/// The most bytes that are read of a file: one more than a file of 64 MiB has.
const MOST_READ: u64 = 67_108_865;

/// The most bytes of a file, 64 MiB.
const MOST_FILE: usize = 67_108_864;

/// A shelf over the files of the system. A name is a path as given, relative to the folder that the program runs in.
///
/// As a `Shelf` it tells nothing of the files, since no clause of std says which bytes a file has. Each error of the system raises its count of faults, but that there is no such file and want of memory.
#[derive(Drop)]
pub struct DirShelf<'a, R: Files> {
    system: &'a R,
    faults: u64,
}

impl<'a, R: Files> Model for DirShelf<'a, R> {
    ghost use Rattle.std.specs.Prelude.{◌<◌, ◌^◌};
    ghost use Rattle.soar_edge.specs.Streams.{FolderState};

    ghost Value = { FolderState };

    ghost view = { λ s. record { faults = s.faults } };

    ghost invariant = { λ s. s.faults < 2 ^ 64 };
}

impl<'a, R: Files> DirShelf<'a, R> {
    /// A shelf over the files that a runtime reaches, which has not failed.
    pub fn new(system: &'a R) -> DirShelf<'a, R>
        ensures calm { ⟦<DirShelf<'a, R> as Shelf>⟧.faults result ≡ 0 }
    {
        DirShelf { system, faults: 0 }
    }
}

impl<'a, R: Files> Shelf for DirShelf<'a, R> {
    ghost files = { λ _. None };

    ghost fetched = { λ _. None };

    ghost faults = { λ s. s.faults };

    /// At most one byte more than 64 MiB is read of a file.
    fn fetch(&mut self, alloc: Global, name: &str) -> Result<List<u8>, Fetch>
        ensures bound { IfOk result (λ bytes. length bytes ≤ 2 ^ 26) }
        ensures cause { HasFetchCause self.old.faults self.new.faults result }
        ensures last { self.new.faults ≤ 2 ^ 64 - 1 }
        ensures counted { self.new.faults ≡ faults_after self.old.faults result }
    {
        let answer = fetch_from(self.system, alloc, name);
        if matches!(answer, Err(Fetch::Failed)) {
            self.faults = self.faults.saturating_add(1);
        }
        answer
    }
}

/// The bytes of the file at a path.
fn fetch_from<R: Files>(system: &R, alloc: Global, path: &str) -> Result<List<u8>, Fetch>
    ensures { IfOk result (λ bytes. length bytes ≤ 2 ^ 26) }
{
    match File::open(system, path) {
        Ok(file) => read_whole(alloc, file),
        Err(error) => Err(open_fault(&error)),
    }
}

/// All that a reader has left.
fn read_whole<F: Read + Drop>(alloc: Global, file: F) -> Result<List<u8>, Fetch>
    ensures bound { IfOk result (λ bytes. length bytes ≤ 2 ^ 26) }
    ensures whole { IfSome (F.remaining file) (λ bytes. GivesWhole bytes result) }
    ensures there { result ≢ Err Fetch.Missing }
{
    let mut bytes = Vec::new(alloc);
    match file.take(MOST_READ).read_to_end(&mut bytes) {
        Ok(_) if bytes.len() > MOST_FILE => Err(Fetch::TooLong),
        Ok(_) => Ok(List::from_vec(bytes)),
        Err(error) => Err(read_fault(&error)),
    }
}

/// Why a file could not be opened.
fn open_fault(error: &Error) -> Fetch
    ensures { result ≡ open_fault (error_kind error.now) }
{
    match error.kind() {
        ErrorKind::NotFound => Fetch::Missing,
        _ => read_fault(error),
    }
}

/// Why a file could not be read.
fn read_fault(error: &Error) -> Fetch
    ensures { result ≡ read_fault (error_kind error.now) }
{
    match error.kind() {
        ErrorKind::OutOfMemory => Fetch::NoMemory,
        _ => Fetch::Failed,
    }
}
