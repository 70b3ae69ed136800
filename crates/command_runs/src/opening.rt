// The files that commands ask for.
ghost use Rattle.std.specs.Prelude.{◌≡◌, ◌-◌, ◌^◌, ◌<◌, [], List as ListOf, ℕ, Option, Some, IfOk};
ghost use Rattle.soar_edge.specs.declared.filed.Filed.{Filed};
ghost use Rattle.defs_run.specs.Runs.{Run};
ghost use Rattle.defs_run.specs.Sources.{Obeying, fetched, refused_run, sourced};
ghost use Rattle.command_runs.specs.Carrying.{refusal_of};
ghost use Rattle.command_runs.specs.Causes.{Fetched, ShelfCause, SinkCause};
ghost use Rattle.command_runs.specs.Following.{Comes, IsAt, IsReadyStep, OpensWithin, Passes, Steps, inner_of};

use crate::carrier::{Carrier, Unread};
use crate::ends::{End, Opened, Step};
use crate::fault::{Fault, fault_of};
use crate::progress::Progress;
use soar_edge::{Fetch, Shelf, Sink};
use soar_sym::Text;
use std::alloc::Global;

/// The most files that a run asks for.
const MOST_FETCHES: u32 = 1000;

/// Reads a file that a source asks for on a line, inside which files may be read so many deep with it.
pub fn open_file<C: Carrier + Drop, F: Shelf, O: Sink>(
    alloc: Global,
    depth: u32,
    name: Text,
    source: &str,
    line: u64,
    progress: &mut Progress<C>,
    files: &mut F,
    out: &mut O,
) -> Result<Step, Fault>
    requires ready { C.ready progress.old.carrier }
    requires shelf { F.faults files.old < 2 ^ 64 - 1 }
    requires sink { O.faults out.old < 2 ^ 64 - 1 }
    ensures step { (stock : ListOf Filed) → F.files files.old ≡ Some stock → (fails : Option ℕ) → Comes fails progress.new.fetched → (r : Run) → IsAt (C.stands progress.old.carrier) progress.old r →
        Steps (C.stands progress.new.carrier) progress.new (O.written out.old) (O.written out.new) fails (inner_of fails stock depth) (sourced (inner_of fails stock depth) fails stock source.now line name r) result }
    ensures within { OpensWithin depth result }
    ensures ready { IsReadyStep (C.ready progress.new.carrier) result }
    ensures fetched { Fetched progress.old.fetched progress.new.fetched (F.fetched files.old) (F.fetched files.new) }
    ensures stock { F.files files.new ≡ F.files files.old }
    ensures shelf { ShelfCause (F.faults files.old) (F.faults files.new) result }
    ensures sink { SinkCause (O.faults out.old) (O.faults out.new) result }
{
    if progress.fetched >= MOST_FETCHES {
        return refuse_step(alloc, Unread::TooMany, &name, source, line, progress, out);
    }
    if depth == 0 {
        return refuse_step(alloc, Unread::TooDeep, &name, source, line, progress, out);
    }
    fetch_file(alloc, name, source, line, progress, files, out)
}

/// Fetches a file, or refuses a name of none.
fn fetch_file<C: Carrier + Drop, F: Shelf, O: Sink>(
    alloc: Global,
    name: Text,
    source: &str,
    line: u64,
    progress: &mut Progress<C>,
    files: &mut F,
    out: &mut O,
) -> Result<Step, Fault>
    requires count { progress.old.fetched < 1000 }
    requires ready { C.ready progress.old.carrier }
    requires shelf { F.faults files.old < 2 ^ 64 - 1 }
    requires sink { O.faults out.old < 2 ^ 64 - 1 }
    ensures step { (stock : ListOf Filed) → F.files files.old ≡ Some stock → (fails : Option ℕ) → Comes fails progress.new.fetched → (r : Run) → IsAt (C.stands progress.old.carrier) progress.old r → (obeying : Obeying) →
        Steps (C.stands progress.new.carrier) progress.new (O.written out.old) (O.written out.new) fails (Some obeying) (fetched obeying fails stock source.now line name r) result }
    ensures ready { IsReadyStep (C.ready progress.new.carrier) result }
    ensures fetched { Fetched progress.old.fetched progress.new.fetched (F.fetched files.old) (F.fetched files.new) }
    ensures stock { F.files files.new ≡ F.files files.old }
    ensures shelf { ShelfCause (F.faults files.old) (F.faults files.new) result }
    ensures sink { SinkCause (O.faults out.old) (O.faults out.new) result }
{
    match files.fetch(alloc, name.as_str()) {
        Ok(bytes) => {
            progress.fetched += 1;
            Ok(Step::Opens(Opened { name, bytes }))
        }
        Err(Fetch::Missing) => {
            progress.fetched += 1;
            refuse_step(alloc, Unread::NoFile, &name, source, line, progress, out)
        }
        Err(Fetch::TooLong) => {
            progress.fetched += 1;
            Ok(Step::Ends(End::TooLong))
        }
        Err(Fetch::Failed) => Err(Fault::Shelf),
        Err(Fetch::NoMemory) => Err(Fault::NoMemory),
    }
}

/// Refuses on a line of a source what is no command, and goes on.
fn refuse_step<C: Carrier + Drop, O: Sink>(
    alloc: Global,
    why: Unread,
    name: &Text,
    source: &str,
    line: u64,
    progress: &mut Progress<C>,
    out: &mut O,
) -> Result<Step, Fault>
    requires ready { C.ready progress.old.carrier }
    requires sink { O.faults out.old < 2 ^ 64 - 1 }
    ensures refused { (fails : Option ℕ) (inner : Option Obeying) (r : Run) → IsAt (C.stands progress.old.carrier) progress.old r →
        Steps (C.stands progress.new.carrier) progress.new (O.written out.old) (O.written out.new) fails inner (refused_run (refusal_of why name.now) source.now line r) result }
    ensures within { (depth : ℕ) → OpensWithin depth result }
    ensures fetched { progress.new.fetched ≡ progress.old.fetched }
    ensures ready { IsReadyStep (C.ready progress.new.carrier) result }
    ensures shelf { (count : ℕ) → ShelfCause count count result }
    ensures sink { SinkCause (O.faults out.old) (O.faults out.new) result }
{
    match refuse(alloc, why, name, source, line, progress, out) {
        Ok(()) => Ok(Step::Goes),
        Err(fault) => Err(fault),
    }
}

/// Refuses on a line of a source what is no command.
pub fn refuse<C: Carrier + Drop, O: Sink>(
    alloc: Global,
    why: Unread,
    name: &Text,
    source: &str,
    line: u64,
    progress: &mut Progress<C>,
    out: &mut O,
) -> Result<(), Fault>
    requires ready { C.ready progress.old.carrier }
    requires sink { O.faults out.old < 2 ^ 64 - 1 }
    ensures refused { (fails : Option ℕ) (r : Run) → IsAt (C.stands progress.old.carrier) progress.old r →
        Passes (C.stands progress.new.carrier) progress.new (O.written out.old) (O.written out.new) fails (refused_run (refusal_of why name.now) source.now line r) result }
    ensures fetched { progress.new.fetched ≡ progress.old.fetched }
    ensures ready { IfOk result (λ _. C.ready progress.new.carrier) }
    ensures shelf { (count : ℕ) → ShelfCause count count result }
    ensures sink { SinkCause (O.faults out.old) (O.faults out.new) result }
{
    let refusal = progress
        .carrier
        .refuse(alloc, why, name.as_str(), source, line, out);
    match refusal {
        Ok(()) => {
            progress.refused = true;
            Ok(())
        }
        Err(fault) => Err(fault_of(fault)),
    }
}
