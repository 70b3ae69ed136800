// What came of a case, as text.
ghost use Rattle.std.specs.Prelude.{◌≡◌, ◌++◌, OnOk};

use crate::case::{Outcome, run_case};
use soar_sym::List;
use std::alloc::{AllocError, Global};

/// Returns the name of a case and its outcome in large pieces, and the one byte by byte if that differs.
pub fn report_of(alloc: Global, case: &str) -> Result<List<u8>, AllocError> {
    let (name, _) = case.split_once("\n").unwrap_or((case, ""));
    let mut report = List::from_slice(alloc, b"case ")?;
    report.extend_from_slice(name.as_bytes())?;
    report.push(b'\n')?;
    let whole = run_case(alloc, case, 4096)?;
    add_outcome(&mut report, &whole)?;
    let single = run_case(alloc, case, 1)?;
    if single.status != whole.status || single.sink.bytes() != whole.sink.bytes() {
        report.extend_from_slice(b"byte by byte\n")?;
        add_outcome(&mut report, &single)?;
    }
    Ok(report)
}

/// Adds what was written, line by line, and the status.
fn add_outcome(report: &mut List<u8>, outcome: &Outcome) -> Result<(), AllocError> {
    for line in outcome.sink.bytes().split_inclusive(|byte| *byte == b'\n') {
        add_line(report, line)?;
    }
    report.extend_from_slice(b"status ")?;
    report.push(b'0' + outcome.status.number())?;
    report.push(b'\n')
}

/// Adds a line after a bar, or a last one without its end after a colon.
fn add_line(report: &mut List<u8>, line: &[u8]) -> Result<(), AllocError> {
    if line.ends_with(b"\n") {
        report.push(b'|')?;
        report.extend_from_slice(line)
    } else {
        report.push(b':')?;
        report.extend_from_slice(line)?;
        report.push(b'\n')
    }
}
