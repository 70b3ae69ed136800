// Each text is written before what follows: that of a command before the next one, and that of a cycle before the next.
ghost use Rattle.std.specs.Prelude.{◌<◌, None};

use crate::tests::{bytes_of, run};
use soar_edge::{Failed, FineSource, PutFault, Sink, Source, Status};
use soar_sym::List;
use std::alloc::Global;
use std::cell::Cell;
use std::process::Abort;

/// A source that counts its reads for a sink.
#[derive(Drop)]
struct TimedSource<'a> {
    inner: FineSource,
    reads: &'a Cell<u64>,
}

impl Source for TimedSource<'_> {
    ghost left = { λ _. None };

    ghost faults = { λ _. 0 };

    fn take(&mut self, room: &mut [u8]) -> Result<usize, Failed> {
        self.reads.set(self.reads.get().saturating_add(1));
        self.inner.take(room)
    }
}

/// A piece that a sink took: how many reads there had been, and how many bytes were written with it.
#[derive(Clone, Copy, PartialEq, Eq)]
struct Piece {
    reads: u64,
    end: usize,
}

/// A sink that takes each piece whole, and keeps its end.
#[derive(Drop)]
struct TimedSink<'a> {
    bytes: List<u8>,
    pieces: List<Piece>,
    reads: &'a Cell<u64>,
}

impl Sink for TimedSink<'_> {
    ghost written = { λ _. None };

    ghost faults = { λ _. 0 };

    fn put(&mut self, piece: &[u8]) -> Result<usize, PutFault> {
        if self.bytes.extend_from_slice(piece).is_err() {
            return Err(PutFault::NoMemory);
        }
        let end = self.bytes.len();
        let reads = self.reads.get();
        match self.pieces.push(Piece { reads, end }) {
            Ok(()) => Ok(piece.len()),
            Err(_) => Err(PutFault::NoMemory),
        }
    }
}

const INPUT: &str = "matches\nfly\nrun 2\nmatches\n";

/// The bytes up to the end of a command, and what is written of the command or of one of its cycles.
const TEXTS: &[(u64, &str)] = &[
    (8, "no matches\n"),
    (12, "error 10 -:2: unknown command\n"),
    (18, "1:   ==>S: S2 (state no-change)\n"),
    (18, "2:     ==>S: S3 (state no-change)\n"),
    (26, "no matches\n"),
];

/// Checks that some piece ends with each text, and came before the next read.
fn end_with_texts(sink: &TimedSink<'_>, is_whole: bool) -> bool {
    let mut rest = sink.bytes.as_slice();
    for (read, text) in TEXTS {
        let Some(after) = rest.strip_prefix(text.as_bytes()) else {
            return false;
        };
        rest = after;
        let reads = if is_whole { 1 } else { *read };
        let end = sink.bytes.len().saturating_sub(rest.len());
        if !sink.pieces.as_slice().contains(&Piece { reads, end }) {
            return false;
        }
    }
    rest.is_empty()
}

/// Checks that the texts come one by one, if a read gives at most `piece` bytes.
fn come_one_by_one(rt: &impl Abort, alloc: Global, piece: usize) -> bool
    requires { 0 < piece }
{
    let reads = Cell::new(0);
    let mut source = TimedSource {
        inner: FineSource::new(bytes_of(rt, alloc, INPUT), piece),
        reads: &reads,
    };
    let mut sink = TimedSink {
        bytes: List::new(alloc),
        pieces: List::new(alloc),
        reads: &reads,
    };
    let ended = run(alloc, &mut source, &mut sink);
    ended == Status::Refusals && end_with_texts(&sink, piece > 1)
}

#[test]
fn each_text_is_written_before_what_follows(rt: HostRuntime) {
    assert!(rt; come_one_by_one(&rt, rt.alloc(), 1), "byte by byte");
    assert!(rt; come_one_by_one(&rt, rt.alloc(), 4096), "at once");
}
