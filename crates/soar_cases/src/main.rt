//! Runs cases: whole runs as text on standard input, and on standard output what each wrote and how it ended.
#![tactic(auto)]

mod case;
mod report;
mod text;

use report::report_of;
use std::io;
use std::io::Write;

fn main(rt: HostRuntime) -> io::Result<()> {
    let alloc = rt.alloc();
    let cases = io::read_to_string(alloc, rt.reader())?;
    let mut out = io::writer(&rt);
    for case in cases.as_str().split("\ncase ").skip(1) {
        let report = report_of(alloc, case)?;
        out.write_all(report.as_slice())?;
    }
    Ok(())
}
