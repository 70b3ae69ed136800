// Inputs of 64 MiB, and of one byte more.
use crate::tests::run;
use soar_edge::{FineSink, FineSource, Status};
use soar_sym::List;
use std::alloc::Global;
use std::process::Abort;

const BLANK_LINES: [u8; 4096] = [b'\n'; 4096];

/// How many blank lines stand between `matches` and a last line, that line, how the run ends and what it writes.
const INPUTS: &[(usize, &str, Status, &str)] = &[
    (
        67_108_848,
        "matches\n",
        Status::Done,
        "no matches\nno matches\n",
    ),
    (
        67_108_852,
        "fly\n",
        Status::Refusals,
        "no matches\nerror 10 -:67108854: unknown command\n",
    ),
    // One byte more, after the last newline.
    (
        67_108_848,
        "matches\n ",
        Status::TooLong,
        "no matches\nno matches\n",
    ),
    // One byte more, which is the last newline.
    (67_108_849, "matches\n", Status::TooLong, "no matches\n"),
];

/// Returns `matches`, blank lines, and `last`.
fn lines_before(rt: &impl Abort, alloc: Global, blank: usize, last: &str) -> List<u8> {
    let mut bytes = List::from_slice(alloc, b"matches\n").expect(rt, "memory");
    for _ in 0..blank / 4096 {
        bytes.extend_from_slice(&BLANK_LINES).expect(rt, "memory");
    }
    bytes
        .extend_from_slice(&BLANK_LINES[..blank % 4096])
        .expect(rt, "memory");
    bytes
        .extend_from_slice(last.as_bytes())
        .expect(rt, "memory");
    bytes
}

/// Checks how a run ends, and what it writes.
fn ends(alloc: Global, bytes: List<u8>, status: Status, text: &str) -> bool {
    let mut source = FineSource::new(bytes, 65_536);
    let mut sink = FineSink::new(alloc, 65_536);
    let ended = run(alloc, &mut source, &mut sink);
    ended == status && sink.bytes() == text.as_bytes()
}

#[test]
fn whole_commands_within_64_mib_run(rt: HostRuntime) {
    for (blank, last, status, text) in INPUTS {
        let bytes = lines_before(&rt, rt.alloc(), *blank, last);
        assert!(rt;
            ends(rt.alloc(), bytes, *status, text),
            "{blank} blank lines"
        );
    }
}
