// A source, a shelf and a sink that count their calls, fail at one of them, and answer at one that memory was refused.
ghost use Rattle.std.specs.Prelude.{◌≡◌, ◌≤◌, ◌-◌, ◌^◌, None};

use crate::tests::only;
use soar_edge::{
    Failed, Fetch, Filed, MemShelf, MemSink, MemSource, PutFault, Shelf, Sink, Source,
};
use soar_sym::List;
use std::alloc::Global;
use std::process::Abort;

/// Which call of a source, of a shelf or of a sink does not do what it should, from 1, and 0 for none.
#[derive(Clone, Copy)]
pub enum Trouble {
    Read(u64),
    Fetch(u64),
    Put(u64),
    FetchMemory(u64),
    PutMemory(u64),
    Nothing,
}

/// A source that counts its calls.
#[derive(Drop)]
pub struct CountedSource {
    inner: MemSource,
    pub calls: u64,
}

impl CountedSource {
    /// A source that gives nine bytes a call.
    pub fn new(rt: &impl Abort, alloc: Global, bytes: List<u8>, trouble: Trouble) -> CountedSource
        ensures { result.inner.faults ≡ 0 }
    {
        let failing = match trouble {
            Trouble::Read(number) => number,
            _ => 0,
        };
        CountedSource {
            inner: MemSource::new(bytes, 9, only(rt, alloc, failing)),
            calls: 0,
        }
    }
}

impl Source for CountedSource {
    ghost left = { λ _. None };

    ghost faults = { λ s. s.inner.faults };

    fn take(&mut self, room: &mut [u8]) -> Result<usize, Failed> {
        self.calls = self.calls.saturating_add(1);
        self.inner.take(room)
    }
}

/// A shelf that counts its calls.
#[derive(Drop)]
pub struct CountedShelf {
    inner: MemShelf,
    refused: u64,
    pub calls: u64,
    ghost counted: { inner.faults ≤ 2 ^ 64 - 1 },
}

impl CountedShelf {
    pub fn new(rt: &impl Abort, alloc: Global, files: List<Filed>, trouble: Trouble) -> CountedShelf
        ensures { result.inner.faults ≡ 0 }
    {
        let (failing, refused) = match trouble {
            Trouble::Fetch(number) => (number, 0),
            Trouble::FetchMemory(number) => (0, number),
            _ => (0, 0),
        };
        CountedShelf {
            inner: MemShelf::new(files, only(rt, alloc, failing)),
            refused,
            calls: 0,
        }
    }
}

impl Shelf for CountedShelf {
    ghost files = { λ _. None };

    ghost fetched = { λ _. None };

    ghost faults = { λ s. s.inner.faults };

    fn fetch(&mut self, alloc: Global, name: &str) -> Result<List<u8>, Fetch> {
        self.calls = self.calls.saturating_add(1);
        if self.calls == self.refused {
            return Err(Fetch::NoMemory);
        }
        self.inner.fetch(alloc, name)
    }
}

/// A sink that counts its calls.
#[derive(Drop)]
pub struct CountedSink {
    inner: MemSink,
    refused: u64,
    pub calls: u64,
    ghost counted: { inner.faults ≤ 2 ^ 64 - 1 },
}

impl CountedSink {
    /// A sink that takes each of the texts whole.
    pub fn new(rt: &impl Abort, alloc: Global, trouble: Trouble) -> CountedSink
        ensures { result.inner.faults ≡ 0 }
    {
        let (failing, refused) = match trouble {
            Trouble::Put(number) => (number, 0),
            Trouble::PutMemory(number) => (0, number),
            _ => (0, 0),
        };
        CountedSink {
            inner: MemSink::new(alloc, 4096, only(rt, alloc, failing)),
            refused,
            calls: 0,
        }
    }

    /// What was written.
    pub fn bytes(&self) -> &[u8] {
        self.inner.bytes()
    }
}

impl Sink for CountedSink {
    ghost written = { λ _. None };

    ghost faults = { λ s. s.inner.faults };

    fn put(&mut self, piece: &[u8]) -> Result<usize, PutFault> {
        self.calls = self.calls.saturating_add(1);
        if self.calls == self.refused {
            return Err(PutFault::NoMemory);
        }
        self.inner.put(piece)
    }
}
