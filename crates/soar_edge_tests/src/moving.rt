//! Bytes from sources, to sinks and off shelves, and the numbers of statuses.
ghost use Rattle.std.specs.Prelude.{◌<◌};

use soar_edge::{
    DirShelf, Failed, Fetch, Filed, FineShelf, FineSink, FineSource, MemShelf, MemSink, MemSource,
    PutFault, Shelf, Sink, Source, Status, StdSink, StdSource, put_all,
};
use soar_sym::{List, NoMemory, Text};
use std::alloc::Global;
use std::fs;
use std::io::{Error, ErrorKind, Read, Result as IoResult};
use std::test::Fail;

/// A reader that always fails.
#[derive(Drop)]
struct Broken;

impl Read for Broken {
    fn read(&mut self, _room: &mut [u8]) -> IoResult<usize> {
        Err(Error::from(ErrorKind::Other))
    }
}

#[test]
fn a_source_fails_at_each_call_in_turn(rt: HostRuntime) -> Result<(), Fail> {
    for failing in 1..=5u64 {
        assert!(rt; fails_at(rt.alloc(), failing)?, "at {failing}");
    }
    Ok(())
}

/// Whether `abc` is given byte by byte, and then nothing, with a failure at this call alone.
fn fails_at(alloc: Global, failing: u64) -> Result<bool, NoMemory> {
    let bytes = List::from_slice(alloc, b"abc")?;
    let fails = List::from_slice(alloc, &[failing])?;
    let mut source = MemSource::new(bytes, 1, fails);
    let mut text = List::new(alloc);
    for call in 1..=5u64 {
        if !takes(&mut source, call == failing, &mut text)? {
            return Ok(false);
        }
    }
    Ok(text.as_slice() == b"abc".as_slice())
}

/// Takes what is next, and answers whether that fails as it should.
fn takes(source: &mut MemSource, fails: bool, text: &mut List<u8>) -> Result<bool, NoMemory> {
    let mut room = [0u8; 8];
    match source.take(&mut room) {
        Ok(count) => {
            text.extend_from_slice(&room[..count])?;
            Ok(!fails)
        }
        Err(Failed) => Ok(fails),
    }
}

#[test]
fn a_sink_fails_at_each_call_in_turn(rt: HostRuntime) -> Result<(), Fail> {
    for (failing, front) in FRONTS {
        assert!(rt; keeps(rt.alloc(), *failing, front)?, "at {failing}");
    }
    Ok(())
}

/// The call that fails, and what was written before.
const FRONTS: &[(u64, &[u8])] = &[(1, b""), (2, b"a"), (3, b"ab"), (4, b"abc")];

/// Whether of `abcd`, written byte by byte, these bytes are kept where this call fails.
fn keeps(alloc: Global, failing: u64, front: &[u8]) -> Result<bool, NoMemory> {
    let mut sink = MemSink::new(alloc, 1, List::from_slice(alloc, &[failing])?);
    Ok(put_all(&mut sink, b"abcd") == Err(PutFault::Failed) && sink.bytes() == front)
}

#[test]
fn as_much_moves_as_fits(rt: HostRuntime) -> Result<(), Fail> {
    let mut source = FineSource::new(List::from_slice(rt.alloc(), b"abcdefgh")?, 3);
    let mut sink = FineSink::new(rt.alloc(), 3);
    assert!(rt; is_given_in_pieces(&mut source) && is_taken_in_pieces(&mut sink));
    Ok(())
}

fn is_given_in_pieces(source: &mut FineSource) -> bool {
    let mut room = [0u8; 4];
    source.take(&mut room) == Ok(3)
        && source.take(&mut room[..2]) == Ok(2)
        && source.take(&mut room) == Ok(3)
        && source.take(&mut room) == Ok(0)
        && &room[..3] == b"fgh".as_slice()
}

fn is_taken_in_pieces(sink: &mut FineSink) -> bool {
    sink.put(b"abcd") == Ok(3) && sink.put(b"de") == Ok(2) && sink.bytes() == b"abcde".as_slice()
}

#[test]
fn a_shelf_gives_its_files_by_name(rt: HostRuntime) -> Result<(), Fail> {
    assert!(rt; is_kept_in_memory(rt.alloc())? && is_kept_without_fail(rt.alloc())?);
    Ok(())
}

fn is_kept_in_memory(alloc: Global) -> Result<bool, NoMemory> {
    let mut shelf = MemShelf::new(one_file(alloc)?, List::from_slice(alloc, &[2u64])?);
    Ok(
        gives(&mut shelf, alloc, "a.soar")
            && refuses(&mut shelf, alloc, "a.soar", Fetch::Failed)
            && refuses(&mut shelf, alloc, "b.soar", Fetch::Missing),
    )
}

fn is_kept_without_fail(alloc: Global) -> Result<bool, NoMemory> {
    let mut shelf = FineShelf::new(one_file(alloc)?);
    Ok(gives(&mut shelf, alloc, "a.soar") && refuses(&mut shelf, alloc, "a.soa", Fetch::Missing))
}

fn one_file(alloc: Global) -> Result<List<Filed>, NoMemory> {
    let name = Text::from_str(alloc, "a.soar")?;
    let bytes = List::from_slice(alloc, b"sp")?;
    let mut files = List::new(alloc);
    files.push(Filed { name, bytes })?;
    Ok(files)
}

/// Whether a shelf gives `sp` for a name.
fn gives<S: Shelf>(shelf: &mut S, alloc: Global, name: &str) -> bool {
    match shelf.fetch(alloc, name) {
        Ok(bytes) => bytes.as_slice() == b"sp".as_slice(),
        Err(_) => false,
    }
}

/// Whether a shelf answers this for a name.
fn refuses<S: Shelf>(shelf: &mut S, alloc: Global, name: &str, why: Fetch) -> bool {
    match shelf.fetch(alloc, name) {
        Ok(_) => false,
        Err(fault) => fault == why,
    }
}

/// A file of the folder that the test runs in.
const PATH: &str = "soar_edge_tests.soar";

#[test]
fn a_file_of_the_system_is_fetched(rt: HostRuntime) -> Result<(), Fail> {
    fs::write(&rt, PATH, b"sp".as_slice())?;
    let mut shelf = DirShelf::new(&rt);
    let fetched = gives(&mut shelf, rt.alloc(), PATH)
        && refuses(&mut shelf, rt.alloc(), ".", Fetch::Failed)
        && refuses(
            &mut shelf,
            rt.alloc(),
            "soar_edge_tests.soa",
            Fetch::Missing,
        )
        && refuses(&mut shelf, rt.alloc(), "/dev/zero", Fetch::TooLong);
    fs::remove_file(&rt, PATH)?;
    assert!(rt; fetched);
    Ok(())
}

#[test]
fn a_reader_is_read_to_its_end(rt: HostRuntime) {
    let mut source = StdSource::new(b"abc".as_slice());
    let mut broken = StdSource::new(Broken);
    assert!(rt; is_read(&mut source) && is_broken(&mut broken));
}

fn is_read(source: &mut StdSource<&[u8]>) -> bool {
    let mut room = [0u8; 2];
    source.take(&mut room) == Ok(2)
        && source.take(&mut room) == Ok(1)
        && source.take(&mut room) == Ok(0)
        && source.take(&mut room) == Ok(0)
        && room == *b"cb"
}

fn is_broken(source: &mut StdSource<Broken>) -> bool {
    let mut room = [0u8; 2];
    source.take(&mut room) == Err(Failed)
}

#[test]
fn a_writer_that_takes_nothing_has_failed(rt: HostRuntime) {
    let mut bytes = Vec::new(rt.alloc());
    let mut sink = StdSink::new(&mut bytes);
    let written = put_all(&mut sink, b"abc") == Ok(());
    let mut room = [0u8; 2];
    let mut full = StdSink::new(room.as_mut_slice());
    let refused = put_all(&mut full, b"abc") == Err(PutFault::Failed)
        && full.put(b"c") == Err(PutFault::Failed);
    assert!(rt; written && refused && bytes.as_slice() == b"abc".as_slice() && room == *b"ab");
}

/// In the order of their numbers.
const STATUSES: &[Status] = &[
    Status::Done,
    Status::Refusals,
    Status::Usage,
    Status::NoMemory,
    Status::ReadFault,
    Status::WriteFault,
    Status::FileFault,
    Status::TooLong,
    Status::Limit,
];

#[test]
fn a_status_is_a_number(rt: HostRuntime) {
    assert!(rt; are_numbered(STATUSES));
}

/// Whether the numbers are those from 0 on.
fn are_numbered(statuses: &[Status]) -> bool {
    let mut number = 0;
    for status in statuses {
        if status.number() != number {
            return false;
        }
        number = number.wrapping_add(1);
    }
    true
}
