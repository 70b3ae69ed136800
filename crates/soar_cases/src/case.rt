// A case: its name, words of the command line, files and the input, line by line.
ghost use Rattle.std.specs.Prelude.{◌<◌, ◌≢◌, IfOk};

use crate::text::text_of;
use soar_edge::{Filed, FineShelf, FineSink, FineSource, Status};
use soar_run::run_soar;
use soar_sym::{List, Text};
use std::alloc::{AllocError, Global};

/// What came of a run: what was written, and how it ended.
#[derive(Drop)]
pub struct Outcome {
    pub sink: FineSink,
    pub status: Status,
}

/// Runs a case, with a source and a sink that move at most `piece` bytes a call.
pub fn run_case(alloc: Global, case: &str, piece: usize) -> Result<Outcome, AllocError>
    requires { 0 < piece }
    ensures read { IfOk result (λ outcome. outcome.status ≢ Status.ReadFault) }
    ensures write { IfOk result (λ outcome. outcome.status ≢ Status.WriteFault) }
    ensures file { IfOk result (λ outcome. outcome.status ≢ Status.FileFault) }
{
    let (head, input) = case.split_once("\ninput").unwrap_or((case, ""));
    let words = words_of(alloc, head)?;
    let mut source = FineSource::new(text_of(alloc, input)?, piece);
    let mut files = FineShelf::new(files_of(alloc, head)?);
    let mut sink = FineSink::new(alloc, piece);
    let status = run_soar(alloc, &words, &mut source, &mut files, &mut sink);
    Ok(Outcome { sink, status })
}

/// Returns the words of the command line. Each has a line of its own.
fn words_of(alloc: Global, head: &str) -> Result<Vec<String>, AllocError> {
    let mut words = Vec::new(alloc);
    for line in head.split("\n") {
        if let Some(word) = line.strip_prefix("word ") {
            words.push(String::from_str(alloc, word)?)?;
        }
    }
    Ok(words)
}

/// Returns the files. The text of each follows the line with its name.
fn files_of(alloc: Global, head: &str) -> Result<List<Filed>, AllocError> {
    let mut files = List::new(alloc);
    for file in head.split("\nfile ").skip(1) {
        let (name, lines) = file.split_once("\n").unwrap_or((file, ""));
        let name = Text::from_str(alloc, name)?;
        let bytes = text_of(alloc, lines)?;
        files.push(Filed { name, bytes })?;
    }
    Ok(files)
}
