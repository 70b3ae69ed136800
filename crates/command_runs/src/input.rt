// Standard input, and the script that is run in its place.
ghost use Rattle.std.specs.Prelude.{◌≡◌, ◌-◌, ◌^◌, ◌<◌, true, false, [], List as ListOf, ℕ, Option, Some, None, IfSome};
ghost use Rattle.soar_edge.specs.declared.filed.Filed.{Filed};
ghost use Rattle.defs_run.specs.CommandLine.{script_of};
ghost use Rattle.defs_run.specs.Runs.{Run};
ghost use Rattle.command_runs.specs.Answers.{IsLeftAs, LeavesBy, StopsAtRead};
ghost use Rattle.command_runs.specs.Causes.{Caused, Fetched, ShelfCause, SinkCause};
ghost use Rattle.command_runs.specs.Following.{Comes, Flows, IsAt, RunsWhole};
ghost use Rattle.command_runs.specs.Whole.{commands_of, input_of, is_open};

use crate::carrier::Carrier;
use crate::ends::{End, Flow};
use crate::fault::{Broken, Fault};
use crate::files::{DEPTH, STANDARD_INPUT};
use crate::progress::Progress;
use crate::reading::{Came, InputFault, feed_more};
use crate::stream::{obey_fed, obey_stream};
use generator::script;
use soar_edge::{Cutter, Shelf, Sink, Source};
use std::alloc::Global;

/// Reads standard input, and carries each of its commands out as soon as it is whole: those within its first 64 MiB,
/// where it is longer.
pub fn obey_input<C: Carrier + Drop, I: Source, F: Shelf, O: Sink>(
    alloc: Global,
    progress: &mut Progress<C>,
    input: &mut I,
    files: &mut F,
    out: &mut O,
) -> Result<Flow, Broken>
    requires ready { C.ready progress.old.carrier }
    requires source { I.faults input.old < 2 ^ 64 - 1 }
    requires shelf { F.faults files.old < 2 ^ 64 - 1 }
    requires sink { O.faults out.old < 2 ^ 64 - 1 }
    ensures flow { IfSome (I.left input.old) (λ bytes. (stock : ListOf Filed) → F.files files.old ≡ Some stock → (fails : Option ℕ) → Comes fails progress.new.fetched → (r : Run) → IsAt (C.stands progress.old.carrier) progress.old r →
        RunsWhole (C.stands progress.new.carrier) progress.new (O.written out.old) (O.written out.new) fails (input_of fails stock bytes r) result) }
    ensures before_read { IfSome (I.left input.old) (λ bytes. (stock : ListOf Filed) → F.files files.old ≡ Some stock → (r : Run) → IsAt (C.stands progress.old.carrier) progress.old r →
        StopsAtRead None (O.written out.old) (O.written out.new) bytes (I.left input.new) (λ taken. commands_of None stock false taken r) result) }
    ensures left { IfSome (I.left input.old) (λ bytes. (stock : ListOf Filed) → F.files files.old ≡ Some stock → (r : Run) → IsAt (C.stands progress.old.carrier) progress.old r →
        LeavesBy (IsLeftAs true (is_open (input_of None stock bytes r)) (λ taken. commands_of None stock false taken r) bytes (I.left input.new)) result) }
    ensures fetched { Fetched progress.old.fetched progress.new.fetched (F.fetched files.old) (F.fetched files.new) }
    ensures cause { Caused (record { source = I.faults input.old; shelf = F.faults files.old; sink = O.faults out.old })
        (record { source = I.faults input.new; shelf = F.faults files.new; sink = O.faults out.new }) result }
{
    let mut cutter = match Cutter::new(alloc) {
        Ok(cutter) => cutter,
        Err(_) => return Err(Broken::Run(Fault::NoMemory)),
    };
    let mut taken = 0;
    'reading: loop {
        let came = match feed_more(input, &mut cutter, &mut taken) {
            Ok(came) => came,
            Err(InputFault::Failed) => return Err(Broken::Source),
            Err(InputFault::NoMemory) => return Err(Broken::Run(Fault::NoMemory)),
        };
        match obey_fed(
            alloc,
            DEPTH,
            STANDARD_INPUT,
            &mut cutter,
            progress,
            files,
            out,
        ) {
            Ok(Flow::Goes) => match came {
                Came::Bytes => {}
                Came::TooMany => return Ok(Flow::Ends(End::TooLong)),
                Came::Nothing => return Ok(Flow::Goes),
            },
            Ok(Flow::Ends(end)) => return Ok(Flow::Ends(end)),
            Err(fault) => return Err(Broken::Run(fault)),
        }
    }
}

/// Carries out the commands of the script of so many items.
pub fn obey_script<C: Carrier + Drop, F: Shelf, O: Sink>(
    alloc: Global,
    items: u32,
    progress: &mut Progress<C>,
    files: &mut F,
    out: &mut O,
) -> Result<Flow, Fault>
    requires ready { C.ready progress.old.carrier }
    requires shelf { F.faults files.old < 2 ^ 64 - 1 }
    requires sink { O.faults out.old < 2 ^ 64 - 1 }
    ensures flow { (stock : ListOf Filed) → F.files files.old ≡ Some stock → (fails : Option ℕ) → Comes fails progress.new.fetched → (r : Run) → IsAt (C.stands progress.old.carrier) progress.old r →
        Flows (C.stands progress.new.carrier) progress.new (O.written out.old) (O.written out.new) fails (commands_of fails stock true (script_of items) r) result }
    ensures fetched { Fetched progress.old.fetched progress.new.fetched (F.fetched files.old) (F.fetched files.new) }
    ensures shelf { ShelfCause (F.faults files.old) (F.faults files.new) result }
    ensures sink { SinkCause (O.faults out.old) (O.faults out.new) result }
{
    match script(alloc, items) {
        Ok(text) => obey_stream(
            alloc,
            DEPTH,
            STANDARD_INPUT,
            text.as_str().as_bytes(),
            progress,
            files,
            out,
        ),
        Err(_) => Err(Fault::NoMemory),
    }
}
