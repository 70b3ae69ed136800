// The files of the command line.
ghost use Rattle.std.specs.Prelude.{◌≡◌, ◌-◌, ◌^◌, ◌<◌, List as ListOf, ℕ, Option, Some};
ghost use Rattle.soar_edge.specs.declared.filed.Filed.{Filed};
ghost use Rattle.defs_run.specs.Runs.{Run};
ghost use Rattle.command_runs.specs.Causes.{Fetched, ShelfCause, SinkCause};
ghost use Rattle.command_runs.specs.Following.{Comes, Flows, IsAt, IsReadyFlow};
ghost use Rattle.command_runs.specs.Whole.{file_of, files_of};

use crate::carrier::Carrier;
use crate::ends::{Flow, Step};
use crate::fault::Fault;
use crate::opening::open_file;
use crate::progress::Progress;
use crate::stream::obey_stream;
use soar_edge::{Shelf, Sink};
use soar_sym::Text;
use std::alloc::Global;

/// The source that refusals name.
pub const STANDARD_INPUT: &str = "-";

/// How deep files may be read inside standard input.
pub const DEPTH: u32 = 16;

/// Carries out the commands of the files of the command line, one file after another.
pub fn obey_files<C: Carrier + Drop, F: Shelf, O: Sink>(
    alloc: Global,
    names: &[Text],
    progress: &mut Progress<C>,
    files: &mut F,
    out: &mut O,
) -> Result<Flow, Fault>
    requires ready { C.ready progress.old.carrier }
    requires shelf { F.faults files.old < 2 ^ 64 - 1 }
    requires sink { O.faults out.old < 2 ^ 64 - 1 }
    ensures flow { (stock : ListOf Filed) → F.files files.old ≡ Some stock → (fails : Option ℕ) → Comes fails progress.new.fetched → (r : Run) → IsAt (C.stands progress.old.carrier) progress.old r →
        Flows (C.stands progress.new.carrier) progress.new (O.written out.old) (O.written out.new) fails (files_of fails stock names.now r) result }
    ensures ready { IsReadyFlow (C.ready progress.new.carrier) result }
    ensures fetched { Fetched progress.old.fetched progress.new.fetched (F.fetched files.old) (F.fetched files.new) }
    ensures stock { F.files files.new ≡ F.files files.old }
    ensures shelf { ShelfCause (F.faults files.old) (F.faults files.new) result }
    ensures sink { SinkCause (O.faults out.old) (O.faults out.new) result }
{
    'names: for name in names {
        match obey_file(alloc, name, progress, files, out) {
            Ok(Flow::Goes) => {}
            Ok(Flow::Ends(end)) => return Ok(Flow::Ends(end)),
            Err(fault) => return Err(fault),
        }
    }
    Ok(Flow::Goes)
}

/// Carries out the commands of a file of the command line.
fn obey_file<C: Carrier + Drop, F: Shelf, O: Sink>(
    alloc: Global,
    name: &Text,
    progress: &mut Progress<C>,
    files: &mut F,
    out: &mut O,
) -> Result<Flow, Fault>
    requires ready { C.ready progress.old.carrier }
    requires shelf { F.faults files.old < 2 ^ 64 - 1 }
    requires sink { O.faults out.old < 2 ^ 64 - 1 }
    ensures flow { (stock : ListOf Filed) → F.files files.old ≡ Some stock → (fails : Option ℕ) → Comes fails progress.new.fetched → (r : Run) → IsAt (C.stands progress.old.carrier) progress.old r →
        Flows (C.stands progress.new.carrier) progress.new (O.written out.old) (O.written out.new) fails (file_of fails stock name.now r) result }
    ensures ready { IsReadyFlow (C.ready progress.new.carrier) result }
    ensures fetched { Fetched progress.old.fetched progress.new.fetched (F.fetched files.old) (F.fetched files.new) }
    ensures stock { F.files files.new ≡ F.files files.old }
    ensures shelf { ShelfCause (F.faults files.old) (F.faults files.new) result }
    ensures sink { SinkCause (O.faults out.old) (O.faults out.new) result }
{
    let name = match Text::from_str(alloc, name.as_str()) {
        Ok(name) => name,
        Err(_) => return Err(Fault::NoMemory),
    };
    match open_file(alloc, DEPTH, name, STANDARD_INPUT, 0, progress, files, out) {
        Ok(Step::Goes) => Ok(Flow::Goes),
        Ok(Step::Ends(end)) => Ok(Flow::Ends(end)),
        Err(fault) => Err(fault),
        Ok(Step::Opens(file)) => obey_stream(
            alloc,
            DEPTH - 1,
            file.name.as_str(),
            file.bytes.as_slice(),
            progress,
            files,
            out,
        ),
    }
}
