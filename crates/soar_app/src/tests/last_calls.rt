// A call that fails, or that answers that memory was refused, is the last of its run.
use crate::tests::bytes_of;
use crate::tests::counted::{CountedShelf, CountedSink, CountedSource, Trouble};
use soar_edge::{Filed, Status};
use soar_run::run_soar;
use soar_sym::{List, Text};
use std::alloc::Global;
use std::process::Abort;

/// The files that are named on the command line, and one for which the first and the input ask.
const FILES: &[(&str, &str)] = &[
    ("a", "matches\nsource c\nmatches\n"),
    ("b", "run 1\n"),
    ("c", "matches\n"),
];

/// Three commands of nine bytes, each of which is one read.
const INPUT: &str = "matches \nsource c\nrun 2   \n";

/// What is written, text by text: of a, of c in it, of a again, of b, of the input, of c in it, and of two cycles.
const TEXTS: [&str; 8] = [
    "no matches\n",
    "no matches\n",
    "no matches\n",
    "1:   ==>S: S2 (state no-change)\n",
    "no matches\n",
    "no matches\n",
    "2:     ==>S: S3 (state no-change)\n",
    "3:       ==>S: S4 (state no-change)\n",
];

/// Which call does not do what it should, how the run ends, how often source, shelf and sink were called then, and how
/// many of the texts were written.
const ENDS: &[(Trouble, Status, u64, u64, u64, usize)] = &[
    (Trouble::Nothing, Status::Done, 4, 4, 8, 8),
    (Trouble::Read(1), Status::ReadFault, 1, 3, 4, 4),
    (Trouble::Read(2), Status::ReadFault, 2, 3, 5, 5),
    (Trouble::Read(3), Status::ReadFault, 3, 4, 6, 6),
    (Trouble::Read(4), Status::ReadFault, 4, 4, 8, 8),
    (Trouble::Fetch(1), Status::FileFault, 0, 1, 0, 0),
    (Trouble::Fetch(2), Status::FileFault, 0, 2, 1, 1),
    (Trouble::Fetch(3), Status::FileFault, 0, 3, 3, 3),
    (Trouble::Fetch(4), Status::FileFault, 2, 4, 5, 5),
    (Trouble::FetchMemory(1), Status::NoMemory, 0, 1, 0, 0),
    (Trouble::FetchMemory(2), Status::NoMemory, 0, 2, 1, 1),
    (Trouble::FetchMemory(3), Status::NoMemory, 0, 3, 3, 3),
    (Trouble::FetchMemory(4), Status::NoMemory, 2, 4, 5, 5),
    (Trouble::Put(1), Status::WriteFault, 0, 1, 1, 0),
    (Trouble::Put(4), Status::WriteFault, 0, 3, 4, 3),
    (Trouble::Put(5), Status::WriteFault, 1, 3, 5, 4),
    (Trouble::Put(7), Status::WriteFault, 3, 4, 7, 6),
    (Trouble::PutMemory(1), Status::NoMemory, 0, 1, 1, 0),
    (Trouble::PutMemory(2), Status::NoMemory, 0, 2, 2, 1),
    (Trouble::PutMemory(3), Status::NoMemory, 0, 2, 3, 2),
    (Trouble::PutMemory(4), Status::NoMemory, 0, 3, 4, 3),
    (Trouble::PutMemory(5), Status::NoMemory, 1, 3, 5, 4),
    (Trouble::PutMemory(6), Status::NoMemory, 2, 4, 6, 5),
    (Trouble::PutMemory(7), Status::NoMemory, 3, 4, 7, 6),
    (Trouble::PutMemory(8), Status::NoMemory, 3, 4, 8, 7),
];

fn words(rt: &impl Abort, alloc: Global) -> Vec<String> {
    let mut words = Vec::new(alloc);
    for word in ["a", "b"] {
        let word = String::from_str(alloc, word).expect(rt, "memory");
        words.push(word).expect(rt, "memory");
    }
    words
}

fn files(rt: &impl Abort, alloc: Global) -> List<Filed> {
    let mut files = List::new(alloc);
    for (name, text) in FILES {
        let name = Text::from_str(alloc, name).expect(rt, "memory");
        let bytes = bytes_of(rt, alloc, text);
        files.push(Filed { name, bytes }).expect(rt, "memory");
    }
    files
}

/// Checks that `bytes` are the first `count` texts.
fn are_texts(bytes: &[u8], count: usize) -> bool {
    let mut rest = bytes;
    for text in TEXTS.iter().take(count) {
        match rest.strip_prefix(text.as_bytes()) {
            Some(after) => rest = after,
            None => return false,
        }
    }
    rest.is_empty()
}

/// Checks how a run ends, how often it calls, and what it writes.
fn ends(rt: &impl Abort, alloc: Global, end: &(Trouble, Status, u64, u64, u64, usize)) -> bool {
    let (trouble, status, reads, fetches, puts, texts) = *end;
    let words = words(rt, alloc);
    let mut source = CountedSource::new(rt, alloc, bytes_of(rt, alloc, INPUT), trouble);
    let mut shelf = CountedShelf::new(rt, alloc, files(rt, alloc), trouble);
    let mut sink = CountedSink::new(rt, alloc, trouble);
    let ended = run_soar(alloc, &words, &mut source, &mut shelf, &mut sink);
    ended == status
        && source.calls == reads
        && shelf.calls == fetches
        && sink.calls == puts
        && are_texts(sink.bytes(), texts)
}

#[test]
fn nothing_is_called_after_a_refusal(rt: HostRuntime) {
    for (number, end) in ENDS.iter().enumerate() {
        assert!(rt; ends(&rt, rt.alloc(), end), "row {number}");
    }
}
