// Each prefix of the text of an agent, and what is left unread after `quit`.
use crate::tests::{bytes_of, run};
use soar_edge::{FineSink, FineSource, Source, Status};
use soar_sym::List;
use std::alloc::Global;
use std::process::Abort;

/// An agent without the last brace of its second production.
const OPEN_AGENT: &str = r#"sp {hello*propose
   (state <s> ^type state)
   -->
   (<s> ^operator <o> +)
   (<o> ^name hello-world)
}
sp {hello*apply
   (state <s> ^operator <o>)
   (<o> ^name hello-world)
   -->
   (write |Hello World|)
   (halt)
"#;

/// Returns how a run of the first `count` bytes ends, and what it writes. The braces of the first production are the 4th and the
/// 105th byte, and that of the second is the 110th.
fn wanted(count: usize) -> (Status, &'static str) {
    match count {
        0 | 105 | 106 => (Status::Done, ""),
        1 => (Status::Refusals, "error 10 -:1: unknown command\n"),
        2 | 3 => (
            Status::Refusals,
            "error 16 -:1: unexpected token at byte 2\n",
        ),
        4..=104 => (Status::Refusals, "error 11 -:1: unfinished command\n"),
        107 => (Status::Refusals, "error 10 -:7: unknown command\n"),
        108 | 109 => (
            Status::Refusals,
            "error 16 -:7: unexpected token at byte 2\n",
        ),
        _ => (Status::Refusals, "error 11 -:7: unfinished command\n"),
    }
}

/// Checks how a run of a prefix ends, and what it writes.
fn goes(rt: &impl Abort, alloc: Global, prefix: &[u8]) -> bool {
    let (status, text) = wanted(prefix.len());
    let bytes = List::from_slice(alloc, prefix).expect(rt, "memory");
    let mut source = FineSource::new(bytes, 64);
    let mut sink = FineSink::new(alloc, 64);
    let ended = run(alloc, &mut source, &mut sink);
    ended == status && sink.bytes() == text.as_bytes()
}

#[test]
fn an_open_production_is_reported_and_nothing_else(rt: HostRuntime) {
    let bytes = OPEN_AGENT.as_bytes();
    for count in 0..bytes.len() {
        assert!(rt;
            goes(&rt, rt.alloc(), &bytes[..count]),
            "the first {count} bytes"
        );
    }
    assert!(rt; goes(&rt, rt.alloc(), bytes), "all bytes");
}

/// Returns the byte after `quit` in an input that is read byte by byte.
fn left_by_quit(rt: &impl Abort, alloc: Global) -> Option<u8> {
    let bytes = bytes_of(rt, alloc, "matches\nquit\nfly\n");
    let mut source = FineSource::new(bytes, 1);
    let mut sink = FineSink::new(alloc, 4096);
    let ended = run(alloc, &mut source, &mut sink);
    let mut next = [0u8; 1];
    if ended == Status::Done
        && sink.bytes() == b"no matches\n".as_slice()
        && matches!(source.take(&mut next), Ok(1))
    {
        Some(next[0])
    } else {
        None
    }
}

#[test]
fn a_quit_leaves_the_rest_unread(rt: HostRuntime) {
    assert!(rt; left_by_quit(&rt, rt.alloc()) == Some(b'f'));
}
