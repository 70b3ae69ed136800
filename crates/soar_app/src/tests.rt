// Whole runs that no case of soar_cases can say: outsides that fail, inputs of 64 MiB, each prefix of a text.
ghost use Rattle.std.specs.Prelude.{◌-◌, ◌^◌, ◌<◌};

use soar_edge::{FineShelf, Sink, Source, Status};
use soar_run::run_soar;
use soar_sym::List;
use std::alloc::Global;
use std::process::Abort;

mod counted;
mod counts;
mod failing;
mod last_calls;
mod pieces;
mod prefixes;
mod sizes;

/// Runs an input without words and files.
fn run<I: Source, O: Sink>(alloc: Global, input: &mut I, out: &mut O) -> Status
    requires source { I.faults input.old < 2 ^ 64 - 1 }
    requires sink { O.faults out.old < 2 ^ 64 - 1 }
{
    let words = Vec::new(alloc);
    let mut files = FineShelf::new(List::new(alloc));
    run_soar(alloc, &words, input, &mut files, out)
}

/// Returns the bytes of a text.
fn bytes_of(rt: &impl Abort, alloc: Global, text: &str) -> List<u8> {
    List::from_slice(alloc, text.as_bytes()).expect(rt, "memory")
}

/// Returns a list of one number.
fn only(rt: &impl Abort, alloc: Global, number: u64) -> List<u64> {
    List::from_slice(alloc, &[number]).expect(rt, "memory")
}
