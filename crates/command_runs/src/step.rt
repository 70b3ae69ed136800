// One command, and what follows it.
ghost use Rattle.std.specs.Prelude.{◌≡◌, ◌||◌, ◌-◌, ◌^◌, ◌<◌, ◌≤◌, List as ListOf, ℕ, Option, Some, length, IfOk};
ghost use Rattle.soar_edge.specs.declared.filed.Filed.{Filed};
ghost use Rattle.defs_run.specs.Whole.{whole_stage};
ghost use Rattle.defs_run.specs.Runs.{Run};
ghost use Rattle.defs_run.specs.Sources.{after_sequel, command_run};
ghost use Rattle.command_runs.specs.Carrying.{sequel_of};
ghost use Rattle.command_runs.specs.Causes.{Fetched, ShelfCause, SinkCause};
ghost use Rattle.command_runs.specs.Following.{CarriesOut, Comes, IsAt, IsReadyCarried, IsReadyStep, OpensWithin, Steps, inner_of};

use crate::carrier::{Answered, Carrier, Next};
use crate::ends::{End, Step, ended_by};
use crate::fault::{Fault, fault_of};
use crate::opening::open_file;
use crate::progress::Progress;
use soar_edge::{Command, Shelf, Sink};
use std::alloc::Global;

/// Carries a command of a source out, inside which files may be read so many deep; the commands of a file that it asks
/// for are left to the caller.
pub fn obey_command<C: Carrier + Drop, F: Shelf, O: Sink>(
    alloc: Global,
    depth: u32,
    command: &Command,
    source: &str,
    progress: &mut Progress<C>,
    files: &mut F,
    out: &mut O,
) -> Result<Step, Fault>
    requires short { length command.now.text ≤ 2 ^ 26 }
    requires ready { C.ready progress.old.carrier }
    requires shelf { F.faults files.old < 2 ^ 64 - 1 }
    requires sink { O.faults out.old < 2 ^ 64 - 1 }
    ensures step { (stock : ListOf Filed) → F.files files.old ≡ Some stock → (fails : Option ℕ) → Comes fails progress.new.fetched → (r : Run) → IsAt (C.stands progress.old.carrier) progress.old r →
        Steps (C.stands progress.new.carrier) progress.new (O.written out.old) (O.written out.new) fails (inner_of fails stock depth)
        (command_run whole_stage (inner_of fails stock depth) fails stock source.now command.now.line command.now.text r) result }
    ensures within { OpensWithin depth result }
    ensures ready { IsReadyStep (C.ready progress.new.carrier) result }
    ensures fetched { Fetched progress.old.fetched progress.new.fetched (F.fetched files.old) (F.fetched files.new) }
    ensures stock { F.files files.new ≡ F.files files.old }
    ensures shelf { ShelfCause (F.faults files.old) (F.faults files.new) result }
    ensures sink { SinkCause (O.faults out.old) (O.faults out.new) result }
{
    match carry_out(alloc, command, source, progress, out) {
        Ok(Some(next)) => follow(
            alloc,
            depth,
            next,
            source,
            command.line,
            progress,
            files,
            out,
        ),
        Ok(None) => Ok(Step::Ends(End::Limit)),
        Err(fault) => Err(fault),
    }
}

/// Carries a command out, and gives what follows it. None where it passes a limit.
fn carry_out<C: Carrier + Drop, O: Sink>(
    alloc: Global,
    command: &Command,
    source: &str,
    progress: &mut Progress<C>,
    out: &mut O,
) -> Result<Option<Next>, Fault>
    requires short { length command.now.text ≤ 2 ^ 26 }
    requires ready { C.ready progress.old.carrier }
    requires sink { O.faults out.old < 2 ^ 64 - 1 }
    ensures carried { (fails : Option ℕ) (r : Run) → IsAt (C.stands progress.old.carrier) progress.old r →
        CarriesOut (C.stands progress.new.carrier) progress.new (O.written out.old) (O.written out.new) fails source.now command.now.line command.now.text r result }
    ensures fetched { progress.new.fetched ≡ progress.old.fetched }
    ensures ready { IsReadyCarried (C.ready progress.new.carrier) result }
    ensures shelf { (count : ℕ) → ShelfCause count count result }
    ensures sink { SinkCause (O.faults out.old) (O.faults out.new) result }
{
    let answer = progress.carrier.answer(alloc, command, source, out);
    match answer {
        Ok(Answered::Went(refused, next)) => {
            progress.refused = either(progress.refused, refused);
            Ok(Some(next))
        }
        Ok(Answered::Stopped) => Ok(None),
        Err(fault) => Err(fault_of(fault)),
    }
}

fn either(a: bool, b: bool) -> bool
    ensures { result ≡ (a || b) }
{
    a || b
}

/// What follows a command on a line of a source.
fn follow<C: Carrier + Drop, F: Shelf, O: Sink>(
    alloc: Global,
    depth: u32,
    next: Next,
    source: &str,
    line: u64,
    progress: &mut Progress<C>,
    files: &mut F,
    out: &mut O,
) -> Result<Step, Fault>
    requires ready { C.ready progress.old.carrier }
    requires shelf { F.faults files.old < 2 ^ 64 - 1 }
    requires sink { O.faults out.old < 2 ^ 64 - 1 }
    ensures step { (stock : ListOf Filed) → F.files files.old ≡ Some stock → (fails : Option ℕ) → Comes fails progress.new.fetched → (r : Run) → IsAt (C.stands progress.old.carrier) progress.old r →
        Steps (C.stands progress.new.carrier) progress.new (O.written out.old) (O.written out.new) fails (inner_of fails stock depth)
        (after_sequel (inner_of fails stock depth) fails stock source.now line (sequel_of next) r) result }
    ensures within { OpensWithin depth result }
    ensures ready { IsReadyStep (C.ready progress.new.carrier) result }
    ensures fetched { Fetched progress.old.fetched progress.new.fetched (F.fetched files.old) (F.fetched files.new) }
    ensures stock { F.files files.new ≡ F.files files.old }
    ensures shelf { ShelfCause (F.faults files.old) (F.faults files.new) result }
    ensures sink { SinkCause (O.faults out.old) (O.faults out.new) result }
{
    match next {
        Next::Command => Ok(Step::Goes),
        Next::File(name) => open_file(alloc, depth, name, source, line, progress, files, out),
        Next::End => Ok(Step::Ends(ended_by(progress.refused))),
    }
}
