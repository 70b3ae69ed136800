// A source and a sink that fail at each call in turn.
ghost use Rattle.std.specs.Prelude.{◌<◌};

use crate::tests::{bytes_of, only, run};
use soar_edge::{FineSink, FineSource, MemSink, MemSource, Status};
use std::alloc::Global;
use std::process::Abort;

const TWICE: &str = "matches\nmatches\n";

const AGENT: &str = r#"sp {hello*propose
   (state <s> ^type state)
   -->
   (<s> ^operator <o> +)
   (<o> ^name hello-world)
}
sp {hello*apply
   (state <s> ^operator <o>)
   (<o> ^name hello-world)
   -->
   (write |Hello World|)
   (halt)
}
run 1
"#;

/// What a run of the agent writes: 40 bytes.
const SAID: &str = "1: O: O1 (hello-world)\nHello World\nhalt\n";

/// An input, how many bytes of it a read gives at most, reads from the first to the last, how a run ends of which one of
/// them fails, and what it writes. The agent has 228 bytes, and one read more finds the end.
const READS: &[(&str, usize, u64, u64, Status, &str)] = &[
    (TWICE, 5, 1, 2, Status::ReadFault, ""),
    (TWICE, 5, 3, 4, Status::ReadFault, "no matches\n"),
    (
        TWICE,
        5,
        5,
        5,
        Status::ReadFault,
        "no matches\nno matches\n",
    ),
    (TWICE, 5, 6, 6, Status::Done, "no matches\nno matches\n"),
    (AGENT, 1, 1, 228, Status::ReadFault, ""),
    (AGENT, 1, 229, 229, Status::ReadFault, SAID),
    (AGENT, 1, 230, 231, Status::Done, SAID),
];

/// Checks how a run of which one read fails ends, and what it writes.
fn ends_at_read(
    rt: &impl Abort,
    alloc: Global,
    input: &str,
    piece: usize,
    failing: u64,
    status: Status,
    text: &str,
) -> bool
    requires { 0 < piece }
{
    let bytes = bytes_of(rt, alloc, input);
    let mut source = MemSource::new(bytes, piece, only(rt, alloc, failing));
    let mut sink = FineSink::new(alloc, 4096);
    let ended = run(alloc, &mut source, &mut sink);
    ended == status && sink.bytes() == text.as_bytes()
}

#[test]
fn a_run_ends_at_the_read_that_fails(rt: HostRuntime) {
    for (input, piece, first, last, status, text) in READS {
        for failing in *first..=*last {
            let ends = ends_at_read(
                &rt,
                rt.alloc(),
                input,
                (*piece).max(1),
                failing,
                *status,
                text,
            );
            assert!(rt; ends, "read {failing} of {input}");
        }
    }
}

/// An input and what it writes. A sink that takes seven bytes takes five pieces of the first line, and two of the second.
const BOTH: (&str, &str) = (
    "fly\nmatches\n",
    "error 10 -:1: unknown command\nno matches\n",
);

/// Writes of a sink, by what it takes at most, how a run ends of which this write fails, and how many bytes are written.
const WRITES: &[(usize, u64, Status, usize)] = &[
    (7, 1, Status::WriteFault, 0),
    (7, 2, Status::WriteFault, 7),
    (7, 3, Status::WriteFault, 14),
    (7, 4, Status::WriteFault, 21),
    (7, 5, Status::WriteFault, 28),
    (7, 6, Status::WriteFault, 30),
    (7, 7, Status::WriteFault, 37),
    (7, 8, Status::Refusals, 41),
];

/// Checks how a run of which one write fails ends, and how many bytes of its text are written.
fn ends_at_write(
    rt: &impl Abort,
    alloc: Global,
    run_of: (&str, &str),
    piece: usize,
    failing: u64,
    status: Status,
    written: usize,
) -> bool
    requires { 0 < piece }
{
    let (input, text) = run_of;
    let mut source = FineSource::new(bytes_of(rt, alloc, input), 64);
    let mut sink = MemSink::new(alloc, piece, only(rt, alloc, failing));
    let ended = run(alloc, &mut source, &mut sink);
    ended == status && sink.bytes().len() == written && text.as_bytes().starts_with(sink.bytes())
}

#[test]
fn a_run_ends_at_the_write_that_fails(rt: HostRuntime) {
    for (piece, failing, status, written) in WRITES {
        let ends = ends_at_write(
            &rt,
            rt.alloc(),
            BOTH,
            (*piece).max(1),
            *failing,
            *status,
            *written,
        );
        assert!(rt; ends, "write {failing}");
    }
    for written in 0..40usize {
        let failing = written as u64 + 1;
        let ends = ends_at_write(
            &rt,
            rt.alloc(),
            (AGENT, SAID),
            1,
            failing,
            Status::WriteFault,
            written,
        );
        assert!(rt; ends, "write {failing} of the agent");
    }
    assert!(rt; ends_at_write(&rt, rt.alloc(), (AGENT, SAID), 1, 41, Status::Done, 40));
}
